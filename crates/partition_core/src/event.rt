// What happens to the places of a plan.
ghost use Rattle.std.specs.Prelude.{◌≡◌};
ghost use Rattle.partition_core.specs.Refusals.{place_of, by_of};
ghost use Rattle.partition_core.specs.Agendas.{settles};

use compile_model::Outcome;
use mx_base::Shared;

/// Why a partition gave a place back.
#[derive(Clone, Copy, Debug, PartialEq, Eq)]
pub enum BackCause {
    /// The partition died.
    Died,
    /// The folder failed.
    Tree,
    /// Memory ran out.
    Memory,
}

/// One event. Partitions are numbered from 1, and places from 0.
#[derive(Drop)]
pub enum Event {
    /// The outcome that was kept of an earlier build stands.
    Keep {
        place: u32,
        by: u32,
    },
    /// The partition begins to compile the place.
    Start {
        place: u32,
        by: u32,
    },
    /// It was compiled.
    Finish {
        place: u32,
        by: u32,
        outcome: Shared<Outcome>,
    },
    /// It was compiled, with a status other than 0.
    Fail {
        place: u32,
        by: u32,
        outcome: Shared<Outcome>,
    },
    /// It won't be compiled, since this is its first need that isn't built.
    Skip {
        place: u32,
        need: u32,
        by: u32,
    },
    /// The partition gives the place back, and takes no other.
    Back {
        place: u32,
        by: u32,
        cause: BackCause,
    },
}

impl Event {
    /// The place that it is of.
    pub fn place(&self) -> u32
        ensures { result ≡ place_of self.now }
    {
        match self {
            Event::Keep { place, .. } => *place,
            Event::Start { place, .. } => *place,
            Event::Finish { place, .. } => *place,
            Event::Fail { place, .. } => *place,
            Event::Skip { place, .. } => *place,
            Event::Back { place, .. } => *place,
        }
    }

    /// The number of the partition that makes it.
    pub fn by(&self) -> u32
        ensures { result ≡ by_of self.now }
    {
        match self {
            Event::Keep { by, .. } => *by,
            Event::Start { by, .. } => *by,
            Event::Finish { by, .. } => *by,
            Event::Fail { by, .. } => *by,
            Event::Skip { by, .. } => *by,
            Event::Back { by, .. } => *by,
        }
    }

    /// Whether it gives its place a fate.
    pub(crate) fn settles(&self) -> bool
        ensures { result ≡ settles self.now }
    {
        match self {
            Event::Start { .. } => false,
            Event::Back { .. } => false,
            _ => true,
        }
    }
}

/// Why an event isn't legal: the first cause that holds in this order.
#[derive(Clone, Copy, Debug, PartialEq, Eq)]
pub enum IllegalCause {
    /// The place is no job's.
    NoPlace,
    /// No partition has this number.
    NoPartition,
    /// The partition gave a place back before.
    Ended,
    /// The partition runs a place.
    Busy,
    /// The place has a fate.
    Settled,
    /// A partition runs the place.
    Running,
    /// The first need that isn't built.
    NeedNotBuilt { need: u32 },
    /// Nothing is kept of the place that was made from what it is made from now.
    MarkDiffers,
    /// What is kept of the place was made from what it is made from now.
    MarkMatches,
    /// The named need isn't the first that isn't built, or has no fate.
    WrongNeed,
    /// The partition doesn't run this place.
    NotRunning,
    /// The status isn't one of this event.
    BadStatus,
}

/// The event isn't legal, and nothing changed.
#[derive(Clone, Copy, Debug, PartialEq, Eq)]
pub struct Illegal {
    pub cause: IllegalCause,
}

/// What a partition does now.
#[derive(Clone, Copy, Debug, PartialEq, Eq)]
pub enum Standing {
    Idle,
    /// It runs the place.
    Runs(u32),
    Ended,
}

/// What a free partition may do next.
#[derive(Clone, Copy, Debug, PartialEq, Eq)]
pub enum Next {
    Keep(u32),
    Start(u32),
    Skip { place: u32, need: u32 },
    /// Nothing until a place that is running gets a fate or is given back.
    Later,
    /// All places have fates.
    Over,
}
