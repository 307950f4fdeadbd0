// Partitions, by what they mean and what they count.
ghost use Rattle.std.specs.Prelude.{◌≡◌, ◌+◌, IfOk, IfSome, length};
ghost use Rattle.mx_base.specs.Causes.{Counted};
ghost use Rattle.compile_model.specs.Content.{content_of};
ghost use Rattle.compile_model.specs.Planned.{IsNamed};
ghost use Rattle.tree_store.specs.FolderKnown.{IsBare};
ghost use Rattle.partition_face.specs.declared.counts.Counts.{Counts};
ghost use Rattle.partition_face.specs.Counts.{CanRun};
ghost use Rattle.partition_face.specs.Runs.{IsVerdictOf, NeverMarks, has_died, tree_failed};

use crate::counts::Counts;
use compile_model::{Input, Meaning, Verdict};
use std::alloc::{AllocError, AllocFailed, Global};
use tree_store::{Folder, StoreFault};

/// Why a run has no verdict.
#[derive(Clone, Copy, PartialEq, Eq)]
pub enum RunFault {
    /// The partition died, which its count of deaths shows.
    Died,
    /// The folder failed, which its count of faults shows.
    Tree,
    OutOfMemory,
}

impl From<AllocError> for RunFault {
    ghost use Rattle.std.specs.Prelude.{◌≡◌};
    ghost use Rattle.partition_face.specs.declared.partition.RunFault.TheVariants.{OutOfMemory};

    ghost from_gives = { λ _ e. e ≡ OutOfMemory };

    fn from(_: AllocError) -> RunFault {
        RunFault::OutOfMemory
    }
}

impl<T: Drop> From<AllocFailed<T>> for RunFault {
    ghost use Rattle.std.specs.Prelude.{◌≡◌};
    ghost use Rattle.partition_face.specs.declared.partition.RunFault.TheVariants.{OutOfMemory};

    ghost from_gives = { λ _ e. e ≡ OutOfMemory };

    fn from(_: AllocFailed<T>) -> RunFault {
        RunFault::OutOfMemory
    }
}

impl From<StoreFault> for RunFault {
    ghost use Rattle.std.specs.Prelude.{◌≡◌};
    ghost use Rattle.partition_face.specs.Runs.{of_folder};

    ghost from_gives = { λ fault e. e ≡ of_folder fault };

    fn from(fault: StoreFault) -> RunFault {
        match fault {
            StoreFault::Failed => RunFault::Tree,
            StoreFault::OutOfMemory => RunFault::OutOfMemory,
        }
    }
}

/// Compiles a job into a folder, and may die of it. Whether its results are what compiling means is a fact of
/// its type (`honest`).
pub trait Partition: Meaning + Send {
    /// How many runs it made, and how often it died. It has died where its deaths aren't 0.
    ghost counted: { Self → Counts };

    /// That no partition of the type ever dies, as a fact that a type may state.
    ghost lasting: { Type 0 };

    /// What it counted. It takes no memory.
    fn counts(&self) -> Counts
        ensures { result ≡ counted self.now };

    /// Compiles the input's job into a folder that holds nothing. Where the verdict's status is 0 the folder
    /// then holds the output files, and it never gets a mark. After a refusal it may hold anything but a mark.
    fn run<F: Folder>(
        &mut self,
        alloc: Global,
        input: &Input,
        folder: &mut F,
    ) -> Result<Verdict, RunFault>
        requires needs { length input.now.needs.now ≡ length input.now.job.now.needs }
        requires named { IsNamed input.now.job.now }
        requires bare { IsBare (F.known folder.old) }
        requires able { CanRun (counted self.old) }
        ensures meaning { Self.honest → IfOk result (λ verdict. IfSome (F.known folder.old).held
            (λ _. IsVerdictOf (Self.compile_of (content_of input.now.job.now input.now.needs.now))
            (F.known folder.new) verdict)) }
        ensures unmarked { NeverMarks (F.known folder.old) (F.known folder.new) }
        ensures runs { (counted self.new).runs ≡ (counted self.old).runs + 1 }
        ensures died { Counted (counted self.old).deaths (counted self.new).deaths
            (has_died result) }
        ensures tree { Counted (F.known folder.old).faults (F.known folder.new).faults
            (tree_failed result) }
        ensures lasts { lasting → (counted self.new).deaths ≡ (counted self.old).deaths };
}
