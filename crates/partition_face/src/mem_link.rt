// A link in memory.
ghost use Rattle.std.specs.Prelude.{◌≡◌, ◌≤◌, Some, length};
ghost use Rattle.partition_face.specs.Links.{link_of, no_talk};

use crate::link::Link;
use mx_base::{Bytes, Failed, FaultPlan, Faults, ListOf};
use std::alloc::Global;

/// A link to a peer whose bytes are given: in which pieces they come, and whether the peer closes behind them. It
/// keeps what is sent. It fails at the calls of a list, numbered from 1, where a peer that doesn't close has nothing
/// more to say, and where memory is wanting.
#[derive(Drop)]
pub struct MemLink {
    coming: Coming,
    closes: bool,
    sent: Vec<u8>,
    came: Vec<u8>,
    closed: bool,
    plan: FaultPlan,
}

impl MemLink {
    ghost use Rattle.partition_face.specs.MemLinks.{talk_of};

    /// A link over which nothing was said yet.
    pub fn new(alloc: Global, coming: ListOf<Bytes>, closes: bool, failing: Vec<u64>) -> MemLink
        ensures { ⟦<MemLink as Link>⟧.known result ≡ link_of (Some no_talk) 0 }
    {
        MemLink {
            coming: Coming {
                pieces: coming,
                whole: 0,
                part: 0,
            },
            closes,
            sent: Vec::new(alloc),
            came: Vec::new(alloc),
            closed: false,
            plan: FaultPlan::new(failing),
        }
    }

    /// The bytes that were sent.
    pub fn sent(&self) -> &[u8]
        ensures { result.now ≡ (talk_of self.now).sent }
    {
        self.sent.as_slice()
    }
}

impl Link for MemLink {
    ghost use Rattle.std.specs.Prelude.{Some};
    ghost use Rattle.partition_face.specs.Links.{link_of};
    ghost use Rattle.partition_face.specs.MemLinks.{talk_of};

    ghost known = { λ link. link_of (Some (talk_of link)) link.plan };

    fn send(&mut self, piece: &[u8]) -> Result<(), Failed> {
        if self.plan.fails() {
            return Err(Failed);
        }
        if self.sent.extend_from_slice(piece).is_err() {
            self.plan.raise();
            return Err(Failed);
        }
        Ok(())
    }

    fn receive(&mut self, room: &mut [u8]) -> Result<usize, Failed> {
        if self.plan.fails() {
            return Err(Failed);
        }
        let count = self.coming.fill(room);
        if count == 0 && !room.is_empty() && self.closes {
            self.closed = true;
            return Ok(0);
        }
        let nothing = count == 0 && !room.is_empty();
        if nothing || self.came.extend_from_slice(&room[..count]).is_err() {
            self.plan.raise();
            return Err(Failed);
        }
        Ok(count)
    }
}

// Pieces that come one after another.
#[derive(Drop)]
struct Coming {
    pieces: ListOf<Bytes>,
    // How many came whole, and how many bytes of the next.
    whole: usize,
    part: usize,
}

impl Coming {
    // Writes what comes of the next piece to the beginning of a room, and answers how much; 0 where nothing more comes.
    fn fill(&mut self, room: &mut [u8]) -> usize
        ensures { result ≤ length room.new }
    {
        for place in self.whole..self.pieces.as_slice().len() {
            let piece = self.pieces.as_slice()[place].as_slice();
            let left = piece.get(self.part..).unwrap_or(&[]);
            if !left.is_empty() {
                let count = left.len().min(room.len());
                room[..count].copy_from_slice(&left[..count]);
                self.part = self.part.saturating_add(count);
                return count;
            }
            self.whole = place + 1;
            self.part = 0;
        }
        0
    }
}
