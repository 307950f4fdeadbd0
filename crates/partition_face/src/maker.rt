// Makers of partitions.
ghost use Rattle.std.specs.Prelude.{◌≡◌, map};
ghost use Rattle.partition_face.specs.Makers.{MakerKnown, Starts, Stops, counts_in};

use crate::partition::Partition;
use std::alloc::{AllocError, AllocFailed, Global};

/// Why a maker gives no partition.
#[derive(Clone, Copy, PartialEq, Eq)]
pub enum MakerFault {
    /// None could be started, and that was counted.
    Failed,
    OutOfMemory,
}

impl From<AllocError> for MakerFault {
    ghost use Rattle.std.specs.Prelude.{◌≡◌};
    ghost use Rattle.partition_face.specs.declared.maker.MakerFault.TheVariants.{OutOfMemory};

    ghost from_gives = { λ _ e. e ≡ OutOfMemory };

    fn from(_: AllocError) -> MakerFault {
        MakerFault::OutOfMemory
    }
}

impl<T: Drop> From<AllocFailed<T>> for MakerFault {
    ghost use Rattle.std.specs.Prelude.{◌≡◌};
    ghost use Rattle.partition_face.specs.declared.maker.MakerFault.TheVariants.{OutOfMemory};

    ghost from_gives = { λ _ e. e ≡ OutOfMemory };

    fn from(_: AllocFailed<T>) -> MakerFault {
        MakerFault::OutOfMemory
    }
}

/// Starts partitions and takes them back. Partitions need not be `Drop`, so code over any maker stops each that
/// it started.
pub trait Maker {
    type P: Partition;

    /// What the partitions counted that it stopped, how many it was asked for, and how often it failed. The
    /// counts never fall.
    ghost known: { Self → MakerKnown };

    /// Starts so many partitions, which have made no run and not died. It may start fewer, and then at least one,
    /// and counts that as a fault; `Failed` says that none was started.
    fn start(&mut self, alloc: Global, n: u32) -> Result<Vec<Self::P>, MakerFault>
        ensures { Starts n (known self.old) (known self.new)
            (counts_in Self.P.counted result) };

    /// Ends partitions, and adds what they counted to its own counts, up to 2^64 - 1. It takes no memory.
    fn stop(&mut self, partitions: Vec<Self::P>)
        ensures { Stops (map Self.P.counted partitions.items) (known self.old) (known self.new) };
}
