// How often children were asked for, and how many declarations came.
ghost use Rattle.std.specs.Prelude.{◌≡◌, IfOk};
ghost use Rattle.dep_rows.specs.Tally.{one_more};

use std::alloc::AllocError;

/// The calls that gave declarations, as whoever knows children counts them.
#[derive(Clone, Copy, Drop)]
pub struct Tally {
    /// How many there were.
    pub calls: u64,
    /// How many declarations they gave.
    pub given: u64,
    /// How many declarations all of them but the last one gave.
    pub before: u64,
}

impl Tally {
    /// Before any call.
    pub fn none() -> Tally {
        Tally {
            calls: 0,
            given: 0,
            before: 0,
        }
    }

    /// With a call more, which gave so many declarations. A count that would pass 2^64 - 1 is
    /// refused as want of memory.
    pub fn with(self, count: usize) -> Result<Tally, AllocError>
        ensures { IfOk result (λ tally. tally ≡ one_more self count) }
    {
        match (
            self.calls.checked_add(1),
            self.given.checked_add(count as u64),
        ) {
            (Some(calls), Some(given)) => Ok(Tally {
                calls,
                given,
                before: self.given,
            }),
            _ => Err(AllocError),
        }
    }
}
