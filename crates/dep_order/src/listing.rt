// Listing places as long as one is ready.
ghost use Rattle.std.specs.Prelude.{◌≡◌, ◌↔◌, [], ◌∷◌, map, ℕ, ◌+◌, ◌<◌, ◌≤◌, length, sum, IsTrue, IsFalse, IfNone, IfSome, IfOk, OnOk, slice_index};
ghost use Rattle.std.specs.Ordering.{nat_cmp};
ghost use Rattle.std.specs.BTreeSet.{contains, btree_set_len};
ghost use Rattle.dep_order.specs.Pending.{times, HasStopped, Releases, TakesFirst};

use crate::dependents::dependents_of;
use crate::graph::Graph;
use std::alloc::{AllocError, Global};
use std::collections::BTreeSet;

/// The places that are listed, and for each place how many of its needs aren't.
#[derive(Drop)]
pub(crate) struct Listing {
    pub listed: Vec<usize>,
    pub pending: Vec<usize>,
}

/// Lists at each turn the first place that is ready, until none is.
pub(crate) fn listing_of(alloc: Global, graph: &Graph) -> Result<Listing, AllocError>
    ensures { IfOk result (λ listing. HasStopped graph.now listing.listed.items listing.pending.items) }
{
    let dependents = dependents_of(alloc, graph)?;
    let mut pending = counts_of_needs(alloc, graph)?;
    let mut ready = places_without_pending(alloc, &pending)?;
    let mut listed = Vec::new(alloc);
    while let Some(place) = first_of(&mut ready) {
        listed.push(place)?;
        release(dependents[place].as_slice(), &mut pending, &mut ready)?;
    }
    Ok(Listing { listed, pending })
}

/// How many needs each place has.
fn counts_of_needs(alloc: Global, graph: &Graph) -> Result<Vec<usize>, AllocError>
    ensures { IfOk result (λ pending. pending.items ≡ map length graph.now) }
{
    graph
        .needs()
        .iter()
        .map(|needs| needs.as_slice().len())
        .collect(alloc)
}

/// The places that wait for nothing.
fn places_without_pending(alloc: Global, pending: &[usize]) -> Result<BTreeSet<usize>, AllocError>
    ensures { IfOk result (λ ready.
        (place : ℕ) → IsTrue (contains nat_cmp ready place)
        ↔ ((place < length pending.now) × (slice_index pending.now place ≡ 0))) }
{
    let mut ready = BTreeSet::new(alloc);
    for (place, count) in pending.iter().enumerate() {
        if *count == 0 {
            ready.insert(place)?;
        }
    }
    Ok(ready)
}

/// Takes the first place out of the set.
fn first_of(places: &mut BTreeSet<usize>) -> Option<usize>
    ensures none { IfNone result ((place : ℕ) → IsFalse (contains nat_cmp places.old place)) }
    ensures first { IfSome result (λ first.
        TakesFirst first (contains nat_cmp places.old) (contains nat_cmp places.new)) }
    ensures len { IfSome result (λ _. btree_set_len places.new < btree_set_len places.old) }
{
    places.pop_first()
}

/// Counts one need less for each of the places, as often as it stands there.
fn release(
    places: &[usize],
    pending: &mut Vec<usize>,
    ready: &mut BTreeSet<usize>,
) -> Result<(), AllocError>
    requires { (place : ℕ) → times place places.now ≤ slice_index pending.old.items place }
    ensures releases { OnOk result (Releases places.now pending.old.items pending.new.items
        (contains nat_cmp ready.old) (contains nat_cmp ready.new)) }
    ensures work { OnOk result (sum pending.new.items + btree_set_len ready.new
        ≤ sum pending.old.items + btree_set_len ready.old) }
{
    for place in places {
        release_one(*place, pending, ready)?;
    }
    Ok(())
}

/// Counts one need less for a place, which is ready once none is left.
fn release_one(
    place: usize,
    pending: &mut Vec<usize>,
    ready: &mut BTreeSet<usize>,
) -> Result<(), AllocError>
    requires { 0 < slice_index pending.old.items place }
    ensures releases { OnOk result (Releases (place ∷ []) pending.old.items pending.new.items
        (contains nat_cmp ready.old) (contains nat_cmp ready.new)) }
    ensures work { OnOk result (sum pending.new.items + btree_set_len ready.new
        ≤ sum pending.old.items + btree_set_len ready.old) }
{
    pending[place] -= 1;
    if pending[place] == 0 {
        ready.insert(place)?;
    }
    Ok(())
}
