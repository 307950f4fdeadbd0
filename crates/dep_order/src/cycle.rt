// The cycle list of a listing that can't go on.
ghost use Rattle.std.specs.Prelude.{◌≡◌, ◌≢◌, ℕ, ◌<◌, length, Some, IfOk, IfNone, IfSome, slice_index};
ghost use Rattle.dep_order.specs.Listing.{IsLeft};
ghost use Rattle.dep_order.specs.Cycle.{IsFirstLeft, IsCycleAfter, first_need_left};
ghost use Rattle.dep_order.specs.Pending.{HasStopped};

use crate::graph::Graph;
use crate::listing::Listing;
use std::alloc::{AllocError, Global};

/// The first place that waits for a need.
pub(crate) fn first_waiting(listing: &Listing) -> Option<usize>
    ensures none { IfNone result ((place : ℕ) → slice_index listing.now.pending.items place ≡ 0) }
    ensures waits { IfSome result (λ first. 0 < slice_index listing.now.pending.items first) }
    ensures first { IfSome result (λ first.
        (place : ℕ) → place < first → slice_index listing.now.pending.items place ≡ 0) }
{
    listing.pending.iter().position(|count| *count != 0)
}

/// The cycle to which the way over the first needs that aren't listed leads from there.
pub(crate) fn cycle_after(
    alloc: Global,
    graph: &Graph,
    listing: &Listing,
    start: usize,
) -> Result<Vec<usize>, AllocError>
    requires stopped { HasStopped graph.now listing.now.listed.items listing.now.pending.items }
    requires start { IsFirstLeft graph.now listing.now.listed.items start }
    ensures { IfOk result (λ cycle. IsCycleAfter graph.now listing.now.listed.items cycle.items) }
{
    let mut walk = Vec::new(alloc);
    let mut is_met = vec![in alloc; false; graph.needs().len()]?;
    let mut place = start;
    while !is_met[place] {
        is_met[place] = true;
        walk.push(place)?;
        place = need_left_at(graph, listing, place);
    }
    let from = position_of(&walk, place).unwrap();
    walk.split_off(from)
}

/// Where a place stands.
fn position_of(places: &[usize], place: usize) -> Option<usize>
    ensures none { IfNone result ((k : ℕ) → k < length places.now → slice_index places.now k ≢ place) }
    ensures within { IfSome result (λ at. at < length places.now) }
    ensures is { IfSome result (λ at. slice_index places.now at ≡ place) }
{
    places.iter().position(|other| *other == place)
}

/// The first need of a place that isn't listed, where the place isn't listed either.
fn need_left_at(graph: &Graph, listing: &Listing, place: usize) -> usize
    requires stopped { HasStopped graph.now listing.now.listed.items listing.now.pending.items }
    requires left { IsLeft graph.now listing.now.listed.items place }
    ensures first { first_need_left graph.now listing.now.listed.items place ≡ Some result }
    ensures left { IsLeft graph.now listing.now.listed.items result }
{
    for need in graph.needs_at(place) {
        if listing.pending[*need] != 0 {
            return *need;
        }
    }
    unreachable!()
}
