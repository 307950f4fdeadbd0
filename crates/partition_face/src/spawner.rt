// What runs programs.
ghost use Rattle.std.specs.Prelude.{◌≡◌};
ghost use Rattle.partition_face.specs.Spawners.{SpawnerKnown, Spawns};

use compile_model::{Texts, Verdict};
use mx_base::{Text, Variable, Variables};
use std::alloc::{AllocError, AllocFailed, Global};

/// How many bytes of a program's output are kept.
pub const MOST_OUTPUT: usize = 1_048_576;

/// Why a program has no verdict.
#[derive(Clone, Copy, PartialEq, Eq)]
pub enum SpawnFault {
    /// It couldn't be run to its end, and that was counted.
    Failed,
    OutOfMemory,
}

impl From<AllocError> for SpawnFault {
    ghost use Rattle.std.specs.Prelude.{◌≡◌};
    ghost use Rattle.partition_face.specs.declared.spawner.SpawnFault.TheVariants.{OutOfMemory};

    ghost from_gives = { λ _ e. e ≡ OutOfMemory };

    fn from(_: AllocError) -> SpawnFault {
        SpawnFault::OutOfMemory
    }
}

impl<T: Drop> From<AllocFailed<T>> for SpawnFault {
    ghost use Rattle.std.specs.Prelude.{◌≡◌};
    ghost use Rattle.partition_face.specs.declared.spawner.SpawnFault.TheVariants.{OutOfMemory};

    ghost from_gives = { λ _ e. e ≡ OutOfMemory };

    fn from(_: AllocFailed<T>) -> SpawnFault {
        SpawnFault::OutOfMemory
    }
}

/// How a program is started.
#[derive(Drop)]
pub struct Start {
    /// Its name, and the words that it is given.
    pub words: Texts,
    /// Variables that are set for it beside those of the spawner itself.
    pub variables: Variables,
}

/// A program that was started.
#[derive(Drop)]
pub struct ProgramRun {
    pub start: Start,
    /// What it answered, where it came to its end.
    pub verdict: Option<Verdict>,
}

/// Runs programs, one after another.
pub trait Spawner {
    /// What it ran: for each run the words, the variables, and the verdict or none, where it tells that, and how often
    /// it failed. The count never falls. A spawner that was handed out has the count 0.
    ghost known: { Self → SpawnerKnown };

    /// Runs the program that the first word names, with the other words and these variables, to its end. The verdict
    /// has its exit status and the first bytes of its standard output, at most 1,048,576.
    ///
    /// # Errors
    ///
    /// `Failed` where it couldn't be run to its end, which is counted. Where memory ran out it may have been run.
    fn run(
        &mut self,
        alloc: Global,
        words: &[Text],
        variables: &[Variable],
    ) -> Result<Verdict, SpawnFault>
        ensures { Spawns (record { words = words.now; variables = variables.now }) (known self.old)
            (known self.new) result };
}
