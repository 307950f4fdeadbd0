// Why a lock is refused.
ghost use Rattle.std.specs.Prelude.{◌≡◌, ◌++◌, OnOk};
ghost use Rattle.mix_lock.specs.Said.{lock_said};

use elixir_terms::{TermCause, TermError};
use mx_base::Text;
use std::alloc::{AllocError, AllocFailed, Global};

/// Why a text is no lock.
#[derive(Drop)]
pub enum LockError {
    /// The text spells no term within the limits.
    Term(TermError),
    /// The first key in the text whose value is a tuple with `:hex` first and no entry, or that is no name of an
    /// app; without text where it is no atom, and where the term is no map.
    Shape(Text),
    /// There was not enough memory. This says nothing of the text.
    OutOfMemory,
}

impl From<AllocError> for LockError {
    ghost use Rattle.std.specs.Prelude.{◌≡◌};
    ghost use Rattle.mix_lock.specs.declared.error.LockError.TheVariants.{OutOfMemory};

    ghost from_gives = { λ _ e. e ≡ OutOfMemory };

    fn from(_: AllocError) -> LockError {
        LockError::OutOfMemory
    }
}

impl<T: Drop> From<AllocFailed<T>> for LockError {
    ghost use Rattle.std.specs.Prelude.{◌≡◌};
    ghost use Rattle.mix_lock.specs.declared.error.LockError.TheVariants.{OutOfMemory};

    ghost from_gives = { λ _ e. e ≡ OutOfMemory };

    fn from(_: AllocFailed<T>) -> LockError {
        LockError::OutOfMemory
    }
}

impl From<TermError> for LockError {
    ghost use Rattle.std.specs.Prelude.{◌≡◌};
    ghost use Rattle.mix_lock.specs.Refusals.{term_refused};

    ghost from_gives = { λ error e. e ≡ term_refused error };

    fn from(error: TermError) -> LockError {
        match error.cause {
            TermCause::OutOfMemory => LockError::OutOfMemory,
            _ => LockError::Term(error),
        }
    }
}

impl LockError {
    /// Adds why the lock is refused, for people.
    pub fn say(&self, alloc: Global, text: &mut Vec<u8>) -> Result<(), AllocError>
        ensures { OnOk result (text.new.items ≡ text.old.items ++ lock_said self.now) }
    {
        match self {
            LockError::Term(error) => error.say(alloc, text),
            LockError::Shape(_) => text.extend_from_slice(b"shape"),
            LockError::OutOfMemory => text.extend_from_slice(b"out of memory"),
        }
    }
}
