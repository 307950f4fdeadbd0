// Why a text is not read, and where.
ghost use Rattle.std.specs.Prelude.{◌≡◌, ◌++◌, OnOk};
ghost use Rattle.elixir_terms.specs.Said.{term_said};

use mx_base::push_decimal;
use std::alloc::{AllocError, AllocFailed, Global};
use term_tokens::TermCause;

/// Why a text is not read, and where.
#[derive(Clone, Copy, Debug, PartialEq, Eq, Drop)]
pub struct TermError {
    /// The place in bytes from the beginning of the text.
    pub at: u64,
    /// What stands there.
    pub cause: TermCause,
}

impl TermError {
    /// Memory ran out.
    pub const MEMORY: TermError = TermError {
        at: 0,
        cause: TermCause::OutOfMemory,
    };

    /// Adds `refused at N: CAUSE`, for people.
    pub fn say(&self, alloc: Global, text: &mut Vec<u8>) -> Result<(), AllocError>
        ensures { OnOk result (text.new.items ≡ text.old.items ++ term_said self.now) }
    {
        text.extend_from_slice(b"refused at ")?;
        push_decimal(alloc, text, self.at)?;
        text.extend_from_slice(b": ")?;
        text.extend_from_slice(self.cause.said())
    }
}

impl From<AllocError> for TermError {
    ghost use Rattle.term_tokens.specs.declared.cause.TermCause.TheVariants.{OutOfMemory};

    ghost from_gives = { λ _ e. e.cause ≡ OutOfMemory };

    fn from(_error: AllocError) -> TermError {
        TermError::MEMORY
    }
}

impl<T: Drop> From<AllocFailed<T>> for TermError {
    ghost use Rattle.term_tokens.specs.declared.cause.TermCause.TheVariants.{OutOfMemory};

    ghost from_gives = { λ _ e. e.cause ≡ OutOfMemory };

    fn from(_error: AllocFailed<T>) -> TermError {
        TermError::MEMORY
    }
}
