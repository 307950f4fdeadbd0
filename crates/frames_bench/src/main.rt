//! The program `frames_bench`: a stream of verdicts with short texts, pushed into a reader piece by piece and given out
//! again. It prints how many bytes were pushed and how many frames came.
//!
//! Its words are how often a block of 10,000 frames is pushed, how many bytes a text has, and how many bytes a piece.
//! Without words it is one block of texts of 16 bytes in pieces of 1,000.
#![tactic(auto)]

use mx_base::Bytes;
use partition_frames::{Frame, FrameReader, write_frame};
use std::alloc::{AllocError, Global};
use std::{env, io};

// How many frames a block has.
const FRAMES: u32 = 10_000;

// What came of pushing.
#[derive(Clone, Copy)]
struct Tally {
    bytes: u64,
    frames: u64,
}

// A frame with a text of so many bytes, at most 1,000.
fn verdict_of(alloc: Global, length: usize) -> Result<Bytes, AllocError> {
    let text = vec![in alloc; b'x'; length.min(1_000)]?;
    write_frame(
        alloc,
        &Frame::Verdict {
            number: 1,
            status: 0,
            text: Bytes::from_vec(text),
        },
    )
}

fn block_of(alloc: Global, length: usize) -> Result<Vec<u8>, AllocError> {
    let frame = verdict_of(alloc, length)?;
    let mut block = Vec::new(alloc);
    for _frame in 0..FRAMES {
        block.extend_from_slice(frame.as_slice())?;
    }
    Ok(block)
}

// Pushes a piece, and takes all frames out. Where no further frame comes, more bytes are needed.
fn feed(alloc: Global, reader: &mut FrameReader, piece: &[u8], tally: Tally) -> Tally {
    let taken = reader.push(piece) as u64;
    let mut frames = tally.frames;
    for _frame in 0..=piece.len() {
        match reader.next(alloc) {
            Ok(Some(_)) => frames = frames.saturating_add(1),
            Ok(None) | Err(_) => break,
        }
    }
    Tally {
        bytes: tally.bytes.saturating_add(taken),
        frames,
    }
}

fn pushed(alloc: Global, block: &[u8], piece: usize, times: u64) -> Result<Tally, AllocError> {
    let mut reader = FrameReader::begin(alloc)?;
    let mut tally = Tally {
        bytes: 0,
        frames: 0,
    };
    for _time in 0..times {
        for piece in block.chunks(piece.max(1)) {
            tally = feed(alloc, &mut reader, piece, tally);
        }
    }
    Ok(tally)
}

// The number that a word says, or this one where it says none.
fn number_of(word: Option<String>, default: u64) -> u64 {
    word.and_then(|word| word.parse().ok()).unwrap_or(default)
}

fn main(rt: HostRuntime) -> io::Result<()> {
    let mut words = env::args(&rt)?.skip(1);
    let times = number_of(words.next(), 1);
    let length = number_of(words.next(), 16) as usize;
    let piece = number_of(words.next(), 1_000) as usize;
    let block = block_of(rt.alloc(), length)?;
    let tally = pushed(rt.alloc(), block.as_slice(), piece, times)?;
    let bytes = tally.bytes;
    let frames = tally.frames;
    println!(rt; "{bytes} bytes, {frames} frames")
}
