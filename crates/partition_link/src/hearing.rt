// Frames that come over a link.
ghost use Rattle.std.specs.Prelude.{◌≡◌, ◌<◌, [], length};
ghost use Rattle.partition_frames.specs.Stream.{most_held};
ghost use Rattle.partition_link.specs.Channel.{Hears, Takes, channel_of};

use mx_base::Failed;
use partition_face::Link;
use partition_frames::{Frame, FrameCause, FrameError, FrameReader, MOST_HELD};
use std::alloc::Global;

// How many bytes are received at once.
const ROOM: usize = 4096;

/// Why no frame was heard.
#[derive(Clone, Copy, PartialEq, Eq)]
pub enum HearFault {
    /// The link failed, which its count of faults shows.
    Failed,
    /// The peer closed, and the bytes that are held are no whole frame.
    Closed,
    /// The bytes that came are those of no frame, and why.
    Refused(FrameError),
    OutOfMemory,
}

impl From<Failed> for HearFault {
    ghost use Rattle.std.specs.Prelude.{◌≡◌};
    ghost use Rattle.partition_link.specs.declared.hearing.HearFault.TheVariants.{Failed};

    ghost from_gives = { λ _ e. e ≡ Failed };

    fn from(_: Failed) -> HearFault {
        HearFault::Failed
    }
}

impl From<FrameError> for HearFault {
    ghost use Rattle.std.specs.Prelude.{◌≡◌};
    ghost use Rattle.partition_link.specs.Channel.{of_frame};

    ghost from_gives = { λ error e. e ≡ of_frame error };

    fn from(error: FrameError) -> HearFault {
        match error.cause {
            FrameCause::OutOfMemory => HearFault::OutOfMemory,
            _ => HearFault::Refused(error),
        }
    }
}

/// Waits for the next frame, which it gives out of the reader of what comes over the link. It receives only where the
/// bytes that the reader holds are no whole frame.
///
/// # Errors
///
/// `Failed` where the link failed, which is counted; `Closed` where the peer closed before the frame was whole;
/// `Refused` where the bytes are those of no frame, as `read_frame` says it. What came stays in the reader.
pub fn receive_frame<L: Link>(
    alloc: Global,
    link: &mut L,
    reader: &mut FrameReader,
) -> Result<Frame, HearFault>
    ensures { Hears (channel_of (L.known link.old) reader.old)
        (channel_of (L.known link.new) reader.new) result }
{
    let mut room = [0; ROOM];
    'frames: loop {
        match reader.next(alloc)? {
            Some(frame) => return Ok(frame),
            None => receive_some(link, reader, &mut room)?,
        }
    }
}

// Waits for bytes, and puts them into the reader: some, and no more than it has room for.
fn receive_some<L: Link>(
    link: &mut L,
    reader: &mut FrameReader,
    room: &mut [u8],
) -> Result<(), HearFault>
    requires room { 0 < length room.old }
    requires holds { length reader.old < most_held }
    ensures { Takes (channel_of (L.known link.old) reader.old)
        (channel_of (L.known link.new) reader.new) result }
{
    let most = room.len().min(MOST_HELD - reader.len());
    let piece = &mut room[..most];
    let count = link.receive(piece)?;
    if count == 0 {
        return Err(HearFault::Closed);
    }
    reader.push(&piece[..count]);
    Ok(())
}
