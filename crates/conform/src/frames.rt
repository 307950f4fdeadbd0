// Cases of frames.
ghost use Rattle.partition_frames.specs.Frame.{IsFrame};

use case_texts::{Fault, number_of, push_after, refused, say, word};
use partition_frames::{Frame, FrameCause, FrameError, FrameReader, read_frame, write_frame};
use std::alloc::Global;

/// Bytes: the number of those that the frame at their front has, and the frame, written; `more` where more are needed.
pub(crate) fn frame_case(alloc: Global, out: &mut String, texts: &[Vec<u8>]) -> Result<(), Fault> {
    let [bytes] = texts else {
        return Err(Fault::Form);
    };
    match read_frame(alloc, bytes.as_slice()) {
        Ok(None) => say(out, "more"),
        Ok(Some((frame, used))) => {
            write!(out, "ok {used}")?;
            push_frame(alloc, out, &frame)
        }
        Err(error) => push_refusal(out, &error),
    }
}

/// How many bytes a piece has, and bytes: the answers of a reader after each piece, a frame as it is written and a dot
/// where more bytes are needed.
pub(crate) fn frames_case(alloc: Global, out: &mut String, texts: &[Vec<u8>]) -> Result<(), Fault> {
    let [size, bytes] = texts else {
        return Err(Fault::Form);
    };
    let size = number_of(word(size.as_slice())?)? as usize;
    if size == 0 {
        return Err(Fault::Form);
    }
    let mut reader = FrameReader::begin(alloc)?;
    say(out, "ok")?;
    for piece in bytes.as_slice().chunks(size) {
        if reader.push(piece) < piece.len() {
            return Err(Fault::Form);
        }
        if !push_given(alloc, out, &mut reader, piece.len())? {
            return Ok(());
        }
    }
    Ok(())
}

// The frames that the reader gives out after a piece of so many bytes; whether it goes on.
fn push_given(
    alloc: Global,
    out: &mut String,
    reader: &mut FrameReader,
    size: usize,
) -> Result<bool, Fault> {
    for _ in 0..=size {
        match reader.next(alloc) {
            Ok(Some(frame)) => push_frame(alloc, out, &frame)?,
            Ok(None) => {
                say(out, ".")?;
                return Ok(true);
            }
            Err(error) => {
                say(out, " ")?;
                push_refusal(out, &error)?;
                return Ok(false);
            }
        }
    }
    Ok(true)
}

#[tactic(auto, using(crate::proofs::ReadFrames::frames_have_folders))]
fn push_frame(alloc: Global, out: &mut String, frame: &Frame) -> Result<(), Fault>
    requires { IsFrame frame.now }
{
    let bytes = write_frame(alloc, frame)?;
    push_after(alloc, out, " ", bytes.as_slice())
}

fn push_refusal(out: &mut String, error: &FrameError) -> Result<(), Fault> {
    match error.cause {
        FrameCause::BadLength => refused(out, error.at, "BadLength"),
        FrameCause::BadKind => refused(out, error.at, "BadKind"),
        FrameCause::BadBody => refused(out, error.at, "BadBody"),
        FrameCause::OutOfMemory => Err(Fault::Memory),
    }
}
