// Sets of places.
ghost use Rattle.std.specs.Prelude.{◌≡◌, ◌<◌, ◌+◌, ◌≤◌, ◌*◌, ℕ, false, true, length, replicate, slice_set, slice_get, Some, IfNone, IfOk, IfSome};
ghost use Rattle.partition_core.specs.PlaceSets.{AreBlocksOf, IsFirstOf, IsFirstIn};

use std::alloc::{AllocError, Global};
use std::marker::Model;

/// How many flags a block has.
const BLOCK: usize = 64;

/// A set of the places below a number. Its first place is found by looking at one flag for each block,
/// and at the flags of one block. Contracts see the list of flags that say of each place whether it is in
/// the set.
#[derive(Drop)]
pub(crate) struct PlaceSet {
    flags: Vec<bool>,
    // For each block of flags, whether one of them is true.
    blocks: Vec<bool>,
}

impl Model for PlaceSet {
    ghost use Rattle.std.specs.Prelude.{List, Bool};

    ghost Value = { List Bool };

    ghost use Rattle.partition_core.specs.PlaceSets.{AreBlocksOf};

    ghost view = { λ set. set.flags.items };

    ghost invariant = { λ set. AreBlocksOf set.flags.items set.blocks.items };
}

impl PlaceSet {
    /// The empty set of places below a number.
    pub(crate) fn empty(alloc: Global, count: usize) -> Result<PlaceSet, AllocError>
        ensures { IfOk result (λ set. set ≡ replicate count false) }
    {
        Ok(PlaceSet {
            flags: vec![in alloc; false; count]?,
            blocks: vec![in alloc; false; count / BLOCK + 1]?,
        })
    }

    /// Puts a place into the set, or takes it out.
    pub(crate) fn put(&mut self, place: usize, is_in: bool)
        requires { place < length self.old }
        ensures { self.new ≡ slice_set self.old place is_in }
    {
        self.flags[place] = is_in;
        let block = place / BLOCK;
        self.blocks[block] = first_in(self.flags.as_slice(), block).is_some();
    }

    /// The first place that is in the set.
    pub(crate) fn first(&self) -> Option<usize>
        ensures none { IfNone result ((place : ℕ) → slice_get self.now place ≡ Some true → ⊥) }
        ensures first { IfSome result (IsFirstOf self.now) }
    {
        first_of(self.flags.as_slice(), self.blocks.as_slice())
    }
}

/// The first flag that is true.
fn first_of(flags: &[bool], blocks: &[bool]) -> Option<usize>
    requires { AreBlocksOf flags.now blocks.now }
    ensures none { IfNone result ((place : ℕ) → slice_get flags.now place ≡ Some true → ⊥) }
    ensures first { IfSome result (IsFirstOf flags.now) }
{
    for block in 0..blocks.len() {
        if let Some(place) = first_lit(flags, blocks, block) {
            return Some(place);
        }
    }
    None
}

/// The first flag of a block that is true, of which the block is asked first.
fn first_lit(flags: &[bool], blocks: &[bool], block: usize) -> Option<usize>
    requires blocks { AreBlocksOf flags.now blocks.now }
    requires within { block < length blocks.now }
    ensures none { IfNone result ((place : ℕ) → 64 * block ≤ place → place < 64 * block + 64
        → slice_get flags.now place ≡ Some true → ⊥) }
    ensures first { IfSome result (IsFirstIn flags.now block) }
{
    if blocks[block] {
        first_in(flags, block)
    } else {
        None
    }
}

/// The first flag of a block that is true.
fn first_in(flags: &[bool], block: usize) -> Option<usize>
    requires { 64 * block ≤ length flags.now }
    ensures none { IfNone result ((place : ℕ) → 64 * block ≤ place → place < 64 * block + 64
        → slice_get flags.now place ≡ Some true → ⊥) }
    ensures first { IfSome result (IsFirstIn flags.now block) }
{
    let from = BLOCK * block;
    for at in 0..BLOCK {
        if from + at >= flags.len() {
            return None;
        }
        if flags[from + at] {
            return Some(from + at);
        }
    }
    None
}
