// The built-in compiler.
ghost use Rattle.std.specs.Prelude.{None};
ghost use Rattle.unit_compile.specs.Facts.{unit_failed_is_bare, unit_files_in_order, unit_nothing_is_empty};
ghost use Rattle.unit_compile.specs.Units.{unit_meaning};

use crate::compile::compile_unit;
use compile_model::{CompileFault, Compiler, Input, Meaning, Outcome};
use partition_face::{Lasting, LastingMaker, LastingPartition};
use std::alloc::{AllocError, Global};

/// Compiles unit files, and never dies.
#[derive(Clone, Copy)]
pub struct UnitCompiler;

impl Meaning for UnitCompiler {
    ghost compile_of = { unit_meaning };

    ghost honest = { Unit {0} };

    ghost files_in_order = { unit_files_in_order };

    ghost failed_is_bare = { unit_failed_is_bare };

    ghost nothing_is_empty = { unit_nothing_is_empty };
}

impl Compiler for UnitCompiler {
    ghost deaths = { λ _. 0 };

    ghost calls = { λ _. None };

    fn compile(&mut self, alloc: Global, input: &Input) -> Result<Outcome, CompileFault> {
        Ok(compile_unit(alloc, input)?)
    }
}

impl Lasting for UnitCompiler {
    fn outcome(alloc: Global, input: &Input) -> Result<Outcome, AllocError> {
        compile_unit(alloc, input)
    }
}

/// Compiles unit files into a folder. It is honest, and never dies.
pub type UnitPartition = LastingPartition<UnitCompiler>;

/// Starts as many `UnitPartition`s as it is asked for. It never fails.
pub type UnitMaker = LastingMaker<UnitCompiler>;
