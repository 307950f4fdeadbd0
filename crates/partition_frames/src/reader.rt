// A reader of frames that come in pieces.
ghost use Rattle.std.specs.Prelude.{◌≡◌, ◌-◌, ◌<◌, ◌≤◌, ◌++◌, [], get_or, length, min, take, IfOk, MatchOption, MatchResult};
ghost use Rattle.mx_base.specs.Blame.{Computes};
ghost use Rattle.partition_frames.specs.Reading.{IsRefused, IsWhole, IsWholeReading, Opens, blame_of};
ghost use Rattle.partition_frames.specs.Stream.{HasRoom, IsNext, LeavesAll, most_held};

use crate::error::FrameError;
use crate::frame::Frame;
use crate::parsing::{LENGTH, opened, read_whole};
use circular_buffer::HeapCircularBuffer;
use std::alloc::{AllocError, Global};
use std::marker::Model;

/// How many bytes a reader holds: those of the longest frame.
pub const MOST_HELD: usize = 16_777_220;

// How many bytes a frame opens with: its length and its kind.
const OPENING: usize = LENGTH + 1;

/// Frames out of a stream of bytes that comes in pieces. Contracts see a reader as the bytes that it holds: those that
/// were pushed and not given out.
#[derive(Drop)]
pub struct FrameReader {
    held: HeapCircularBuffer<u8>,
}

impl Model for FrameReader {
    ghost use Rattle.std.specs.Prelude.{◌≡◌, List, ℕ};
    ghost use Rattle.partition_frames.specs.Stream.{most_held};

    ghost Value = { List ℕ };

    ghost view = { λ reader. reader.held.items };

    ghost invariant = { λ reader. reader.held.capacity ≡ most_held };
}

impl FrameReader {
    /// A reader of an empty stream. It takes all the memory that it ever holds.
    pub fn begin(alloc: Global) -> Result<FrameReader, AllocError>
        ensures { IfOk result (λ reader. reader ≡ []) }
    {
        Ok(FrameReader {
            held: HeapCircularBuffer::with_capacity(alloc, MOST_HELD)?,
        })
    }

    /// How many bytes it holds. It takes no memory.
    pub fn len(&self) -> usize
        ensures count { result ≡ length self.now }
        ensures few { result ≤ most_held }
    {
        self.held.len()
    }

    /// Takes as many bytes of a piece as there is room for, the first ones, and answers how many. It takes no memory.
    pub fn push(&mut self, piece: &[u8]) -> usize
        ensures count { result ≡ min (length piece.now) (most_held - length self.old) }
        ensures held { self.new ≡ self.old ++ take result piece.now }
    {
        self.held.fill_from_slice(piece)
    }

    /// Gives out the frame at the front, or none where more bytes are needed. Then there is room for some.
    ///
    /// # Errors
    ///
    /// As `read_frame`. Nothing is given out, and each later call is refused in the same way. After want of memory
    /// nothing changed.
    pub fn next(&mut self, alloc: Global) -> Result<Option<Frame>, FrameError>
        ensures answer { Computes blame_of result (IsNext self.old self.new) }
        ensures left { LeavesAll self.old self.new result }
        ensures room { HasRoom self.new result }
    {
        let Some(size) = opened_front(&self.held)? else {
            return Ok(None);
        };
        let used = LENGTH + size as usize;
        let held = self.held.len();
        if held < used {
            return Ok(None);
        }
        let frame = read_front(alloc, &mut self.held, used)?;
        self.held.truncate_front(held - used);
        Ok(Some(frame))
    }
}

// The byte at a place, or 0 where none stands.
fn byte_at(held: &HeapCircularBuffer<u8>, i: usize) -> u8
    ensures { result ≡ get_or held.now.items i 0 }
{
    match held.get(i) {
        Some(byte) => *byte,
        None => 0,
    }
}

// What the bytes that are held open.
fn opened_front(held: &HeapCircularBuffer<u8>) -> Result<Option<u32>, FrameError>
    ensures { MatchResult result
        (λ size. MatchOption size (length held.now.items < 4) (Opens held.now.items))
        (λ error. IsRefused held.now.items error.cause error.at) }
{
    let head = [
        byte_at(held, 0),
        byte_at(held, 1),
        byte_at(held, 2),
        byte_at(held, 3),
        byte_at(held, 4),
    ];
    let count = held.len().min(OPENING);
    opened(&head[..count])
}

// The frame of so many bytes that stands at the front. Bytes that wrap round the end of the buffer are moved only
// where this frame does, which is then given out, so that no byte is moved more than twice.
fn read_front(
    alloc: Global,
    held: &mut HeapCircularBuffer<u8>,
    used: usize,
) -> Result<Frame, FrameError>
    requires few { used ≤ length held.old.items }
    requires whole { IsWhole (take used held.old.items) }
    ensures answer { Computes blame_of result (IsWholeReading (take used held.old.items)) }
    ensures held { held.new ≡ held.old }
{
    let (straight, _) = held.as_slices();
    if used <= straight.len() {
        return read_whole(alloc, &straight[..used]);
    }
    let straight = &*held.make_contiguous();
    read_whole(alloc, &straight[..used])
}
