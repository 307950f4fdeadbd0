// Where the reading of a text stops.
ghost use Rattle.std.specs.Prelude.{◌≡◌, length};

use crate::cause::TermCause;
use std::alloc::{AllocError, AllocFailed};

/// Where the reading of a text stops, and why.
#[derive(Clone, Copy, Debug, PartialEq, Eq, Drop)]
pub struct Fault {
    /// How many bytes there are from that place to the end of the text.
    pub left: usize,
    /// What stands there.
    pub cause: TermCause,
}

impl Fault {
    /// Memory ran out.
    pub const MEMORY: Fault = Fault {
        left: 0,
        cause: TermCause::OutOfMemory,
    };

    /// The reading stops before the rest of the text.
    pub fn before(rest: &[u8], cause: TermCause) -> Fault
        ensures place { result.left ≡ length rest.now }
        ensures cause { result.cause ≡ cause }
    {
        Fault {
            left: rest.len(),
            cause,
        }
    }
}

impl From<AllocError> for Fault {
    ghost use Rattle.term_tokens.specs.declared.cause.TermCause.TheVariants.{OutOfMemory};

    ghost from_gives = { λ _ e. e.cause ≡ OutOfMemory };

    fn from(_error: AllocError) -> Fault {
        Fault::MEMORY
    }
}

impl<T: Drop> From<AllocFailed<T>> for Fault {
    ghost use Rattle.term_tokens.specs.declared.cause.TermCause.TheVariants.{OutOfMemory};

    ghost from_gives = { λ _ e. e.cause ≡ OutOfMemory };

    fn from(_error: AllocFailed<T>) -> Fault {
        Fault::MEMORY
    }
}
