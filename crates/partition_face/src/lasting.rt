// Compilers that never die.
ghost use Rattle.std.specs.Prelude.{◌≡◌, IfErr, IfOk, IfSome, false, length};
ghost use Rattle.mx_base.specs.Causes.{Counted};
ghost use Rattle.compile_model.specs.Content.{content_of};
ghost use Rattle.compile_model.specs.Planned.{IsNamed};
ghost use Rattle.tree_store.specs.FolderKnown.{IsBare};
ghost use Rattle.partition_face.specs.declared.partition.RunFault.TheVariants.{OutOfMemory};
ghost use Rattle.partition_face.specs.Runs.{IsVerdictOf, NeverMarks, has_died, tree_failed};

use crate::partition::RunFault;
use compile_model::{Compiler, EchoCompiler, Input, Meaning, Outcome, Verdict};
use std::alloc::{AllocError, Global};
use tree_store::{Folder, put_files};

/// Compiles without a state of its own, and never dies.
pub trait Lasting: Meaning {
    /// The outcome that the input's content means.
    ///
    /// # Errors
    ///
    /// `AllocError` where there is not enough memory.
    fn outcome(alloc: Global, input: &Input) -> Result<Outcome, AllocError>
        requires needs { length input.now.needs.now ≡ length input.now.job.now.needs }
        requires named { IsNamed input.now.job.now }
        ensures { IfOk result (λ outcome. outcome
            ≡ Self.compile_of (content_of input.now.job.now input.now.needs.now)) };
}

impl Lasting for EchoCompiler {
    fn outcome(alloc: Global, input: &Input) -> Result<Outcome, AllocError> {
        match EchoCompiler.compile(alloc, input) {
            Ok(outcome) => Ok(outcome),
            Err(_) => Err(AllocError),
        }
    }
}

/// Puts what compiling an input gives into an empty folder.
pub(crate) fn compile_into<C: Lasting, F: Folder>(
    alloc: Global,
    input: &Input,
    folder: &mut F,
) -> Result<Verdict, RunFault>
    requires needs { length input.now.needs.now ≡ length input.now.job.now.needs }
    requires named { IsNamed input.now.job.now }
    requires bare { IsBare (F.known folder.old) }
    ensures meaning { IfOk result (λ verdict. IfSome (F.known folder.old).held
        (λ _. IsVerdictOf (C.compile_of (content_of input.now.job.now input.now.needs.now))
        (F.known folder.new) verdict)) }
    ensures unmarked { NeverMarks (F.known folder.old) (F.known folder.new) }
    ensures tree { Counted (F.known folder.old).faults (F.known folder.new).faults
        (tree_failed result) }
    ensures lives { has_died result ≡ false }
{
    let outcome = C::outcome(alloc, input)?;
    put_outcome(alloc, outcome, folder)
}

// Puts the files of an outcome into an empty folder.
fn put_outcome<F: Folder>(
    alloc: Global,
    outcome: Outcome,
    folder: &mut F,
) -> Result<Verdict, RunFault>
    requires { IsBare (F.known folder.old) }
    ensures verdict { IfOk result (λ verdict. IfSome (F.known folder.old).held
        (λ _. IsVerdictOf outcome (F.known folder.new) verdict)) }
    ensures unmarked { NeverMarks (F.known folder.old) (F.known folder.new) }
    ensures tree { Counted (F.known folder.old).faults (F.known folder.new).faults
        (tree_failed result) }
    ensures lives { has_died result ≡ false }
{
    let Outcome {
        status,
        text,
        files,
        ..
    } = outcome;
    put_files(alloc, files.as_slice(), folder)?;
    Ok(Verdict { status, text })
}
