// Where a reader of fields ends early.
ghost use Rattle.std.specs.Prelude.{◌≡◌, length};

use std::alloc::{AllocError, AllocFailed};

/// Where no text goes on.
#[derive(Clone, Copy)]
pub struct Stuck {
    /// How many bytes are left there.
    pub left: usize,
}

/// Where this is all that is left of the text.
pub fn stuck_at(text: &[u8]) -> Stuck
    ensures { result ≡ record { left = length text.now } }
{
    Stuck { left: text.len() }
}

/// Why reading ends early.
#[derive(Clone, Copy)]
pub enum Fault {
    /// No text goes on.
    Stuck(Stuck),
    /// There was not enough memory. This says nothing of the text.
    OutOfMemory,
}

impl From<Stuck> for Fault {
    ghost use Rattle.std.specs.Prelude.{◌≡◌};
    ghost use Rattle.reading.specs.declared.stuck.Fault.TheVariants as faults;

    ghost from_gives = { λ stuck fault. fault ≡ faults.Stuck stuck };

    fn from(stuck: Stuck) -> Fault {
        Fault::Stuck(stuck)
    }
}

impl From<AllocError> for Fault {
    ghost use Rattle.std.specs.Prelude.{◌≡◌};
    ghost use Rattle.reading.specs.declared.stuck.Fault.TheVariants.{OutOfMemory};

    ghost from_gives = { λ _ fault. fault ≡ OutOfMemory };

    fn from(_: AllocError) -> Fault {
        Fault::OutOfMemory
    }
}

impl<T: Drop> From<AllocFailed<T>> for Fault {
    ghost use Rattle.std.specs.Prelude.{◌≡◌};
    ghost use Rattle.reading.specs.declared.stuck.Fault.TheVariants.{OutOfMemory};

    ghost from_gives = { λ _ fault. fault ≡ OutOfMemory };

    fn from(_: AllocFailed<T>) -> Fault {
        Fault::OutOfMemory
    }
}
