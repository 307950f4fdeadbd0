// Why a command stops.
ghost use Rattle.std.specs.Prelude.{◌≡◌};
ghost use Rattle.mix_answer.specs.Answer.{line_of, stop_of_folder, stop_of_kept, stop_of_store, status_of};

use crate::status::Status;
use kept_tree::KeptFault;
use std::alloc::{AllocError, AllocFailed};
use tree_store::StoreFault;

/// Why a command stops without a text of its own: the outside failed, or memory.
#[derive(Clone, Copy, Debug, PartialEq, Eq)]
pub enum Stop {
    /// The store failed where it was read.
    Read,
    /// A folder of the build tree failed.
    Tree,
    /// The store failed where it was written.
    Write,
    /// No partition was started.
    Maker,
    Memory,
}

impl Stop {
    /// What the fault of a call that writes into a folder comes to.
    pub fn of_folder(fault: StoreFault) -> Stop
        ensures { result ≡ stop_of_folder fault }
    {
        match fault {
            StoreFault::Failed => Stop::Tree,
            StoreFault::OutOfMemory => Stop::Memory,
        }
    }

    /// The status that it ends with.
    pub fn status(self) -> Status
        ensures { result ≡ status_of self }
    {
        match self {
            Stop::Read => Status::ReadFault,
            Stop::Tree | Stop::Write => Status::TreeFault,
            Stop::Maker => Status::MakerFault,
            Stop::Memory => Status::OutOfMemory,
        }
    }

    /// Its line, which takes no memory.
    pub fn line(self) -> &'static [u8]
        ensures { result.now ≡ line_of self }
    {
        match self {
            Stop::Read => b"mixc: read fault\n",
            Stop::Tree => b"mixc: tree fault\n",
            Stop::Write => b"mixc: write fault\n",
            Stop::Maker => b"mixc: maker fault\n",
            Stop::Memory => b"mixc: out of memory\n",
        }
    }
}

impl From<StoreFault> for Stop {
    ghost from_gives = { λ fault stop. stop ≡ stop_of_store fault };

    fn from(fault: StoreFault) -> Stop {
        match fault {
            StoreFault::Failed => Stop::Read,
            StoreFault::OutOfMemory => Stop::Memory,
        }
    }
}

impl From<KeptFault> for Stop {
    ghost from_gives = { λ fault stop. stop ≡ stop_of_kept fault };

    fn from(fault: KeptFault) -> Stop {
        match fault {
            KeptFault::Read => Stop::Read,
            KeptFault::Tree => Stop::Tree,
            KeptFault::OutOfMemory => Stop::Memory,
        }
    }
}

impl From<AllocError> for Stop {
    ghost use Rattle.std.specs.Prelude.{◌≡◌};
    ghost use Rattle.mix_answer.specs.declared.stop.Stop.TheVariants.{Memory};

    ghost from_gives = { λ _ stop. stop ≡ Memory };

    fn from(_: AllocError) -> Stop {
        Stop::Memory
    }
}

impl<T: Drop> From<AllocFailed<T>> for Stop {
    ghost use Rattle.std.specs.Prelude.{◌≡◌};
    ghost use Rattle.mix_answer.specs.declared.stop.Stop.TheVariants.{Memory};

    ghost from_gives = { λ _ stop. stop ≡ Memory };

    fn from(_: AllocFailed<T>) -> Stop {
        Stop::Memory
    }
}
