// Frames, read.
ghost use Rattle.std.specs.Prelude.{◌≡◌, ◌+◌, ◌<◌, ◌≤◌, ◌++◌, ◌↔◌, length, IfNone, IfSome, IsTrue, MatchOption, MatchResult};
ghost use Rattle.mx_base.specs.Blame.{Computes};
ghost use Rattle.partition_frames.specs.declared.error.FrameCause.TheVariants.{BadBody};
ghost use Rattle.partition_frames.specs.Field.{together};
ghost use Rattle.partition_frames.specs.Frame.{fields_of};
ghost use Rattle.partition_frames.specs.Pieces.{LacksBy};
ghost use Rattle.partition_frames.specs.Reading.{HasBody, HasSize, IsInRange, IsKind, IsOfKind, IsReading, IsRefused, IsWhole, IsWholeReading, MayHaveKind, Opens, blame_of};

use crate::error::{FrameCause, FrameError};
use crate::fields::{read_number, read_text};
use crate::frame::Frame;
use crate::job::read_job;
use mx_base::{Bytes, Text};
use reading::Fault;
use std::alloc::Global;

/// How many bytes kind and body of a frame have at most.
pub(crate) const MOST: u32 = 16_777_216;

/// How many bytes the length of a frame has.
pub(crate) const LENGTH: usize = 4;

fn read_hello(alloc: Global, text: &[u8]) -> Result<(Frame, &[u8]), Fault>
    ensures { MatchResult result
        (λ read. IsOfKind 1 read.0 × (text.now ≡ together (fields_of read.0) ++ read.1.now))
        (LacksBy fields_of (IsOfKind 1) text.now) }
{
    let (cookie, rest) = read_text(text)?;
    let (index, rest) = read_number(rest)?;
    let hello = Frame::Hello {
        cookie: Text::from_slice(alloc, cookie)?,
        index,
    };
    Ok((hello, rest))
}

fn read_verdict(alloc: Global, text: &[u8]) -> Result<(Frame, &[u8]), Fault>
    ensures { MatchResult result
        (λ read. IsOfKind 3 read.0 × (text.now ≡ together (fields_of read.0) ++ read.1.now))
        (LacksBy fields_of (IsOfKind 3) text.now) }
{
    let (number, rest) = read_number(text)?;
    let (status, rest) = read_number(rest)?;
    let (written, rest) = read_text(rest)?;
    let verdict = Frame::Verdict {
        number,
        status,
        text: Bytes::from_slice(alloc, written)?,
    };
    Ok((verdict, rest))
}

// The frame whose body stands at the front.
fn read_body(alloc: Global, kind: u8, text: &[u8]) -> Result<(Frame, &[u8]), Fault>
    requires { IsKind kind }
    ensures { MatchResult result
        (λ read. IsOfKind kind read.0 × (text.now ≡ together (fields_of read.0) ++ read.1.now))
        (LacksBy fields_of (IsOfKind kind) text.now) }
{
    match kind {
        1 => read_hello(alloc, text),
        2 => read_job(alloc, text),
        3 => read_verdict(alloc, text),
        _ => Ok((Frame::Bye, text)),
    }
}

// Kind and body of a whole frame.
fn kind_and_body(bytes: &[u8]) -> (u8, &[u8])
    requires { IsWhole bytes.now }
    ensures { HasBody bytes.now result.0 result.1.now }
{
    (bytes[LENGTH], &bytes[LENGTH + 1..])
}

/// The frame that these bytes are; they are as many as its length says.
pub(crate) fn read_whole(alloc: Global, bytes: &[u8]) -> Result<Frame, FrameError>
    requires { IsWhole bytes.now }
    ensures { Computes blame_of result (IsWholeReading bytes.now) }
{
    let (kind, body) = kind_and_body(bytes);
    match read_body(alloc, kind, body) {
        Ok((frame, rest)) => {
            if !rest.is_empty() {
                drop(frame);
                return Err(refused_before(bytes, rest.len()));
            }
            Ok(frame)
        }
        Err(Fault::Stuck(stuck)) => Err(refused_before(bytes, stuck.left)),
        Err(Fault::OutOfMemory) => Err(FrameError::MEMORY),
    }
}

// The body is refused where so many bytes are left.
fn refused_before(bytes: &[u8], left: usize) -> FrameError
    requires { left ≤ length bytes.now }
    ensures at { result.at + left ≡ length bytes.now }
    ensures cause { result.cause ≡ BadBody }
{
    FrameError {
        at: (bytes.len() - left) as u64,
        cause: FrameCause::BadBody,
    }
}

// The length that the bytes begin with, and what stands behind it.
fn length_of(bytes: &[u8]) -> Option<(u32, &[u8])>
    ensures some { IfSome result (λ read. HasSize bytes.now read.0 read.1.now) }
    ensures none { IfNone result (length bytes.now < 4) }
{
    let [first, second, third, fourth, rest @ ..] = bytes else {
        return None;
    };
    Some((u32::from_be_bytes([*first, *second, *third, *fourth]), rest))
}

fn is_in_range(size: u32) -> bool
    ensures { IsTrue result ↔ IsInRange size }
{
    0 < size && size <= MOST
}

// Whether a kind stands at the front, where a byte does.
fn may_have_kind(rest: &[u8]) -> bool
    ensures { IsTrue result ↔ MayHaveKind rest.now }
{
    match rest {
        [] => true,
        [kind, ..] => 1 <= *kind && *kind <= 4,
    }
}

/// How many bytes stand behind the length of the frame that the bytes open; none where the length isn't whole.
///
/// # Errors
///
/// `BadLength` and `BadKind`.
pub(crate) fn opened(bytes: &[u8]) -> Result<Option<u32>, FrameError>
    ensures { MatchResult result (λ size. MatchOption size (length bytes.now < 4) (Opens bytes.now))
        (λ error. IsRefused bytes.now error.cause error.at) }
{
    let Some((size, rest)) = length_of(bytes) else {
        return Ok(None);
    };
    if !is_in_range(size) {
        return Err(FrameError {
            at: 0,
            cause: FrameCause::BadLength,
        });
    }
    if !may_have_kind(rest) {
        return Err(FrameError {
            at: LENGTH as u64,
            cause: FrameCause::BadKind,
        });
    }
    Ok(Some(size))
}

/// The frame at the front of the bytes and how many bytes it has, or none where more of them are needed. Bytes
/// behind the frame aren't looked at.
///
/// # Errors
///
/// `BadLength` at 0 where the length is 0 or above 16,777,216; `BadKind` at 4 where the kind stands there and no
/// frame has it; `BadBody` where so many bytes as the length says stand there and aren't a frame's, at the first
/// field that doesn't fit or says what it may not, or at the first byte left over. `OutOfMemory` says nothing of the
/// bytes.
pub fn read_frame(alloc: Global, bytes: &[u8]) -> Result<Option<(Frame, usize)>, FrameError>
    ensures { Computes blame_of result (IsReading bytes.now) }
{
    let Some(size) = opened(bytes)? else {
        return Ok(None);
    };
    let used = LENGTH + size as usize;
    if bytes.len() < used {
        return Ok(None);
    }
    let frame = read_whole(alloc, &bytes[..used])?;
    Ok(Some((frame, used)))
}
