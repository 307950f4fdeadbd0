// What a command comes to, before anything is written.
ghost use Rattle.std.specs.Prelude.{◌≡◌};
ghost use Rattle.mix_main.specs.Answer.{stop_of_store, stop_of_folder, stop_of_seq, stop_status, stop_line};

use crate::status::Status;
use compile_model::SeqFault;
use std::alloc::AllocError;
use tree_store::StoreFault;

/// The status that a command means to end with, and the text that goes with it.
#[derive(Drop)]
pub(crate) struct Answer {
    pub(crate) status: Status,
    pub(crate) text: Vec<u8>,
}

/// Why a command stops: the outside failed, or memory.
#[derive(Clone, Copy)]
pub(crate) enum Stop {
    /// The store failed.
    Read,
    /// A folder failed.
    Tree,
    /// The compiler died.
    Died,
    Memory,
}

impl Stop {
    pub(crate) fn of_folder(fault: StoreFault) -> Stop
        ensures { result ≡ stop_of_folder fault }
    {
        match fault {
            StoreFault::Failed => Stop::Tree,
            StoreFault::OutOfMemory => Stop::Memory,
        }
    }

    pub(crate) fn status(self) -> Status
        ensures { result ≡ stop_status self }
    {
        match self {
            Stop::Read => Status::ReadFault,
            Stop::Tree => Status::TreeFault,
            Stop::Died => Status::Died,
            Stop::Memory => Status::OutOfMemory,
        }
    }

    /// Its line, which takes no memory.
    pub(crate) fn line(self) -> &'static [u8]
        ensures { result.now ≡ stop_line self }
    {
        match self {
            Stop::Read => b"mixc: read fault\n",
            Stop::Tree => b"mixc: tree fault\n",
            Stop::Died => b"mixc: no partition left, 1 died\n",
            Stop::Memory => b"mixc: out of memory\n",
        }
    }
}

impl From<StoreFault> for Stop {
    ghost from_gives = { λ fault stop. stop ≡ stop_of_store fault };

    fn from(fault: StoreFault) -> Stop {
        match fault {
            StoreFault::Failed => Stop::Read,
            StoreFault::OutOfMemory => Stop::Memory,
        }
    }
}

impl From<SeqFault> for Stop {
    ghost from_gives = { λ fault stop. stop ≡ stop_of_seq fault };

    fn from(fault: SeqFault) -> Stop {
        match fault {
            SeqFault::Died { .. } => Stop::Died,
            SeqFault::OutOfMemory => Stop::Memory,
        }
    }
}

impl From<AllocError> for Stop {
    ghost use Rattle.std.specs.Prelude.{◌≡◌};
    ghost use Rattle.mix_main.specs.declared.answer.Stop.TheVariants.{Memory};

    ghost from_gives = { λ _ stop. stop ≡ Memory };

    fn from(_: AllocError) -> Stop {
        Stop::Memory
    }
}
