// How far a line was read.
ghost use Rattle.std.specs.Prelude.{◌≡◌, MatchResult};
ghost use Rattle.unit_lang.specs.Gives.{fault};
ghost use Rattle.unit_lang.specs.Progress.{first, Advances, Stops, FinishesAs};

use crate::error::UnitCause;
use crate::state::State;
use crate::token::Token;
use crate::unit::Statement;
use crate::words::is_too_great;
use std::alloc::Global;

/// How many parentheses and minus signs may be open.
const DEEPEST: usize = 64;

/// How far a line was read.
#[derive(Drop)]
pub(crate) struct Progress {
    pub state: State,
    /// Whether a number was too great.
    pub great: bool,
}

impl Progress {
    /// At the beginning of a line.
    pub(crate) fn first() -> Progress
        ensures { result ≡ first }
    {
        Progress {
            state: State::Start,
            great: false,
        }
    }

    /// After one more token.
    pub(crate) fn advanced(self, alloc: Global, token: Token) -> Result<Progress, UnitCause>
        ensures { MatchResult result (Advances self token) (Stops self token) }
    {
        let Progress { state, great } = self;
        let too_great = is_too_great(&token);
        let state = match state.step(alloc, token) {
            Ok(next) => next,
            Err(cause) => return Err(fault(cause, great)),
        };
        if state.depth() > DEEPEST {
            drop(state);
            return Err(UnitCause::TooDeep);
        }
        Ok(Progress {
            state,
            great: great || too_great,
        })
    }

    /// The statement of a line that ends here.
    pub(crate) fn finished(self, alloc: Global) -> Result<Statement, UnitCause>
        ensures { FinishesAs self result }
    {
        let Progress { state, great } = self;
        if great {
            drop(state);
            return Err(UnitCause::NumberTooBig);
        }
        state.finished(alloc)
    }
}

/// The fault of a line that ends here: a number that was too great comes before it.
pub(crate) fn fault(cause: UnitCause, great: bool) -> UnitCause
    ensures { result ≡ fault cause great }
{
    match cause {
        UnitCause::BadLine if great => UnitCause::NumberTooBig,
        cause => cause,
    }
}
