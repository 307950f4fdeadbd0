// What a post is given to do.
ghost use Rattle.std.specs.Prelude.{◌≡◌};
ghost use Rattle.partition_board.specs.Answers.{makes_event};

use crate::lease::Lease;

/// How many events a history has.
#[derive(Clone, Copy, Debug, PartialEq, Eq)]
pub struct Front {
    pub events: u64,
}

/// What a post is given to do.
#[derive(Drop)]
pub enum Take<F> {
    /// A place that it runs now.
    Started(Lease<F>),
    /// What was kept of this place stands, and the event is made.
    Kept { place: u32 },
    /// This place won't be compiled for want of that need, and the event is made.
    Skipped { place: u32, need: u32 },
    /// Nothing until the history is longer than this.
    Later(Front),
    /// All places have fates.
    Over(Front),
    /// No event was made.
    NoMemory,
}

impl<F> Take<F> {
    // Whether an event was made.
    pub(crate) fn makes_event(&self) -> bool
        ensures { result ≡ makes_event self.now }
    {
        match self {
            Take::Started(_) | Take::Kept { .. } | Take::Skipped { .. } => true,
            Take::Later(_) | Take::Over(_) | Take::NoMemory => false,
        }
    }
}
