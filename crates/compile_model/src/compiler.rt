// Compilers, by their meaning.
ghost use Rattle.std.specs.Prelude.{◌≡◌, ◌≢◌, [], ◌∷◌, ℕ, List, Option, length, IfOk};
ghost use Rattle.mx_base.specs.Blame.{fails};
ghost use Rattle.mx_base.specs.Causes.{Counted};
ghost use Rattle.mx_base.specs.Order.{AreInOrder};
ghost use Rattle.compile_model.specs.Calls.{Call, after_calls};
ghost use Rattle.compile_model.specs.Content.{Content, content_of, empty_outcome};
ghost use Rattle.compile_model.specs.Planned.{IsNamed};
ghost use Rattle.compile_model.specs.declared.how.How.TheVariants.{Nothing};
ghost use Rattle.compile_model.specs.Blame.{compile_blame};
ghost use Rattle.compile_model.specs.declared.outcome.Outcome.{Outcome};

use crate::job::Job;
use crate::outcome::Outcome;
use mx_base::Shared;
use std::alloc::{AllocError, AllocFailed, Global};

/// What a compiler is given: a job, and one outcome for each of its needs, in their order.
#[derive(Drop)]
pub struct Input<'a> {
    pub job: &'a Job,
    pub needs: &'a [Shared<Outcome>],
}

/// Why there is no outcome.
#[derive(Clone, Copy, PartialEq, Eq)]
pub enum CompileFault {
    /// The compiler died, which its count of deaths shows.
    Died,
    OutOfMemory,
}

impl From<AllocError> for CompileFault {
    ghost use Rattle.std.specs.Prelude.{◌≡◌};
    ghost use Rattle.compile_model.specs.declared.compiler.CompileFault.TheVariants.{OutOfMemory};

    ghost from_gives = { λ _ e. e ≡ OutOfMemory };

    fn from(_: AllocError) -> CompileFault {
        CompileFault::OutOfMemory
    }
}

impl<T: Drop> From<AllocFailed<T>> for CompileFault {
    ghost use Rattle.std.specs.Prelude.{◌≡◌};
    ghost use Rattle.compile_model.specs.declared.compiler.CompileFault.TheVariants.{OutOfMemory};

    ghost from_gives = { λ _ e. e ≡ OutOfMemory };

    fn from(_: AllocFailed<T>) -> CompileFault {
        CompileFault::OutOfMemory
    }
}

/// What compiling means, the same for all values of a type.
pub trait Meaning {
    /// The outcome of a content.
    ghost compile_of: { Content → Outcome };

    /// Whether each result is that outcome.
    ghost honest: { Type 0 };

    /// The files of an outcome stand in the order of their paths.
    ghost files_in_order: { (content : Content) → AreInOrder (compile_of content).files };

    /// An outcome of another status than 0 has no files.
    ghost failed_is_bare: { (content : Content) → (compile_of content).status ≢ 0 → (compile_of content).files ≡ [] };

    /// What isn't compiled has the empty outcome.
    ghost nothing_is_empty: { (content : Content) → content.how ≡ Nothing → compile_of content ≡ empty_outcome };
}

/// Compiles jobs, and may die on the way.
pub trait Compiler: Meaning {
    /// How often it died, up to 2^64 - 1, where the count stands still.
    ghost deaths: { Self → ℕ };

    /// Its calls so far, where they are told: what each was given, and whether it died of it.
    ghost calls: { Self → Option (List Call) };

    /// The outcome that the input's content means. `Died` says that the compiler ended before it answered.
    fn compile(&mut self, alloc: Global, input: &Input) -> Result<Outcome, CompileFault>
        requires needs { length input.now.needs.now ≡ length input.now.job.now.needs }
        requires named { IsNamed input.now.job.now }
        ensures meaning { IfOk result (λ outcome. outcome
            ≡ Self.compile_of (content_of input.now.job.now input.now.needs.now)) }
        ensures cause { Counted (deaths self.old) (deaths self.new) (fails compile_blame result) }
        ensures called { calls self.new ≡ after_calls (calls self.old) (record {
          content = content_of input.now.job.now input.now.needs.now;
          died = fails compile_blame result;
        } ∷ []) };
}
