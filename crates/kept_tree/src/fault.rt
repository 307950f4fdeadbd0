// Why a call over a build tree has no answer.
ghost use Rattle.std.specs.Prelude.{◌≡◌};
ghost use Rattle.kept_tree.specs.Faults.{of_read, of_write};

use std::alloc::{AllocError, AllocFailed};
use tree_store::StoreFault;

/// Why a call over a build tree has no answer.
#[derive(Clone, Copy, Debug, PartialEq, Eq)]
pub enum KeptFault {
    /// A call of the store failed, or one that reads a folder.
    Read,
    /// A call that writes into a folder failed.
    Tree,
    OutOfMemory,
}

impl KeptFault {
    /// What the fault of a call that writes into a folder comes to.
    pub fn of_write(fault: StoreFault) -> KeptFault
        ensures { result ≡ of_write fault }
    {
        match fault {
            StoreFault::Failed => KeptFault::Tree,
            StoreFault::OutOfMemory => KeptFault::OutOfMemory,
        }
    }
}

impl From<StoreFault> for KeptFault {
    ghost from_gives = { λ fault e. e ≡ of_read fault };

    fn from(fault: StoreFault) -> KeptFault {
        match fault {
            StoreFault::Failed => KeptFault::Read,
            StoreFault::OutOfMemory => KeptFault::OutOfMemory,
        }
    }
}

impl From<AllocError> for KeptFault {
    ghost use Rattle.std.specs.Prelude.{◌≡◌};
    ghost use Rattle.kept_tree.specs.declared.fault.KeptFault.TheVariants.{OutOfMemory};

    ghost from_gives = { λ _ e. e ≡ OutOfMemory };

    fn from(_: AllocError) -> KeptFault {
        KeptFault::OutOfMemory
    }
}

impl<T: Drop> From<AllocFailed<T>> for KeptFault {
    ghost use Rattle.std.specs.Prelude.{◌≡◌};
    ghost use Rattle.kept_tree.specs.declared.fault.KeptFault.TheVariants.{OutOfMemory};

    ghost from_gives = { λ _ e. e ≡ OutOfMemory };

    fn from(_: AllocFailed<T>) -> KeptFault {
        KeptFault::OutOfMemory
    }
}
