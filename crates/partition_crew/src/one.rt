// What a build by one partition leads to.
use compile_model::Fate;
use partition_core::Event;
use std::alloc::AllocError;

/// Why some place has no fate.
#[derive(Clone, Copy, PartialEq, Eq)]
pub enum BuildFault {
    /// A folder failed, which its count of faults shows.
    TreeFault,
    OutOfMemory,
    /// So many partitions died, which their counts of deaths show, and none is left.
    NoPartitionLeft { died: u32 },
}

impl From<AllocError> for BuildFault {
    ghost use Rattle.std.specs.Prelude.{◌≡◌};
    ghost use Rattle.partition_crew.specs.declared.one.BuildFault.TheVariants.{OutOfMemory};

    ghost from_gives = { λ _ e. e ≡ OutOfMemory };

    fn from(_: AllocError) -> BuildFault {
        BuildFault::OutOfMemory
    }
}

/// What a build by one partition has led to.
#[derive(Drop)]
pub struct One {
    /// By place. Where memory ran out before the first event there is none.
    pub fates: Vec<Option<Fate>>,
    /// The events, the first one first.
    pub history: Vec<Event>,
    /// None where each place has a fate.
    pub fault: Option<BuildFault>,
}
