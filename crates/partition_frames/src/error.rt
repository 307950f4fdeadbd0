// Why bytes give no frame, and where.
ghost use Rattle.std.specs.Prelude.{◌≡◌};

use std::alloc::{AllocError, AllocFailed};

/// Why bytes give no frame, and where.
#[derive(Clone, Copy, Debug, PartialEq, Eq, Drop)]
pub struct FrameError {
    /// The place in bytes from the first byte of the frame; 0 where memory ran out.
    pub at: u64,
    /// What is wrong there.
    pub cause: FrameCause,
}

/// What is wrong with a frame.
#[derive(Clone, Copy, Debug, PartialEq, Eq, Drop)]
pub enum FrameCause {
    /// The length is 0 or above 16,777,216.
    BadLength,
    /// No frame has this kind.
    BadKind,
    /// The first field of the body that doesn't fit or says what it may not, or the first byte left over.
    BadBody,
    /// There was not enough memory. This says nothing of the bytes.
    OutOfMemory,
}

impl FrameError {
    /// Memory ran out.
    pub const MEMORY: FrameError = FrameError {
        at: 0,
        cause: FrameCause::OutOfMemory,
    };
}

impl From<AllocError> for FrameError {
    ghost use Rattle.partition_frames.specs.declared.error.FrameCause.TheVariants.{OutOfMemory};

    ghost from_gives = { λ _ e. e.cause ≡ OutOfMemory };

    fn from(_error: AllocError) -> FrameError {
        FrameError::MEMORY
    }
}
