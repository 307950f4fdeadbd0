// Why words are no command.

use std::alloc::{AllocError, AllocFailed};

/// Why words are no command.
#[derive(Clone, Copy, Debug, PartialEq, Eq, Drop)]
pub enum WordsError {
    /// The place, from 0, of the first word with which no command's words begin, or the number of
    /// words where some are wanting.
    Refused { at: u64 },
    /// There was not enough memory. This says nothing of the words.
    OutOfMemory,
}

/// Why a step of reading goes no further.
#[derive(Clone, Copy, Drop)]
pub(crate) enum Stop {
    /// With this word no words of the command go on, or they don't end here.
    Refused,
    OutOfMemory,
}

impl From<AllocError> for Stop {
    ghost use Rattle.std.specs.Prelude.{◌≡◌};
    ghost use Rattle.mix_words.specs.declared.error.Stop.TheVariants.{OutOfMemory};

    ghost from_gives = { λ _ stop. stop ≡ OutOfMemory };

    fn from(_: AllocError) -> Stop {
        Stop::OutOfMemory
    }
}

impl<T: Drop> From<AllocFailed<T>> for Stop {
    ghost use Rattle.std.specs.Prelude.{◌≡◌};
    ghost use Rattle.mix_words.specs.declared.error.Stop.TheVariants.{OutOfMemory};

    ghost from_gives = { λ _ stop. stop ≡ OutOfMemory };

    fn from(_: AllocFailed<T>) -> Stop {
        Stop::OutOfMemory
    }
}
