// A compiler that dies at the calls of a list, and else copies sources as `EchoCompiler` does.
ghost use Rattle.std.specs.Prelude.{None};
ghost use Rattle.compile_model.specs.Echo.{echo_of, echo_failed_is_bare, echo_files_in_order, echo_nothing_is_empty};

use compile_model::{CompileFault, Compiler, EchoCompiler, Input, Meaning, Outcome};
use mx_base::{FaultPlan, Faults};
use std::alloc::Global;

#[derive(Drop)]
pub(crate) struct MortalCompiler {
    /// The calls at which it dies.
    pub(crate) dying: FaultPlan,
}

impl Meaning for MortalCompiler {
    ghost compile_of = { echo_of };

    ghost honest = { Unit {0} };

    ghost files_in_order = { echo_files_in_order };

    ghost failed_is_bare = { echo_failed_is_bare };

    ghost nothing_is_empty = { echo_nothing_is_empty };
}

impl Compiler for MortalCompiler {
    ghost deaths = { λ compiler. compiler.dying };

    ghost calls = { λ _. None };

    fn compile(&mut self, alloc: Global, input: &Input) -> Result<Outcome, CompileFault> {
        if self.dying.fails() {
            return Err(CompileFault::Died);
        }
        EchoCompiler.compile(alloc, input)
    }
}
