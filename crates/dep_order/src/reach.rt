// What is reached in a graph.
ghost use Rattle.std.specs.Prelude.{◌≡◌, ℕ, ◌<◌, ◌↔◌, [], ◌∷◌, length, nat_eq, IfOk, OnOk};
ghost use Rattle.std.specs.List.{All, Contains, IsDistinct};
ghost use Rattle.std.specs.Ordering.{nat_cmp};
ghost use Rattle.std.specs.BTreeSet.{contains};
ghost use Rattle.dep_order.specs.Listing.{is_listed, IsOrderOf};
ghost use Rattle.dep_order.specs.Reach.{Reaches, AreReachedFrom, IsClosureOf};
ghost use Rattle.dep_order.specs.Search.{Adds, AreRanks};

use crate::graph::Graph;
use crate::ranks::{in_order, increasing, ranks_of};
use std::alloc::{AllocError, Global};
use std::collections::BTreeSet;

/// All places that are reached from these, in increasing order.
pub fn reached(alloc: Global, graph: &Graph, starts: &[usize]) -> Result<Vec<usize>, AllocError>
    requires { All (λ start. start < length graph.now) starts.now }
    ensures { IfOk result (λ places. AreReachedFrom graph.now starts.now places.items) }
{
    let mut met = BTreeSet::new(alloc);
    let mut queue = Vec::new(alloc);
    add_all(&mut met, &mut queue, starts)?;
    let mut at = 0;
    while at < queue.len() {
        let place = queue[at];
        add_all(&mut met, &mut queue, graph.needs_at(place))?;
        at += 1;
    }
    increasing(alloc, met)
}

/// Queues those places that weren't met.
fn add_all(
    met: &mut BTreeSet<usize>,
    queue: &mut Vec<usize>,
    places: &[usize],
) -> Result<(), AllocError>
    requires same { (q : ℕ) → contains nat_cmp met.old q ≡ is_listed queue.old.items q }
    requires apart { IsDistinct nat_eq queue.old.items }
    ensures same { OnOk result ((q : ℕ) → contains nat_cmp met.new q ≡ is_listed queue.new.items q) }
    ensures apart { OnOk result (IsDistinct nat_eq queue.new.items) }
    ensures adds { OnOk result (Adds places.now queue.old.items queue.new.items) }
{
    for place in places {
        add(met, queue, *place)?;
    }
    Ok(())
}

fn add(met: &mut BTreeSet<usize>, queue: &mut Vec<usize>, place: usize) -> Result<(), AllocError>
    requires same { (q : ℕ) → contains nat_cmp met.old q ≡ is_listed queue.old.items q }
    requires apart { IsDistinct nat_eq queue.old.items }
    ensures same { OnOk result ((q : ℕ) → contains nat_cmp met.new q ≡ is_listed queue.new.items q) }
    ensures apart { OnOk result (IsDistinct nat_eq queue.new.items) }
    ensures adds { OnOk result (Adds (place ∷ []) queue.old.items queue.new.items) }
{
    if met.insert(place)? {
        queue.push(place)?;
    }
    Ok(())
}

/// All that a place needs, directly or through others, in the graph's order.
pub fn closure(
    alloc: Global,
    graph: &Graph,
    order: &[usize],
    place: usize,
) -> Result<Vec<usize>, AllocError>
    requires order { IsOrderOf graph.now order.now }
    requires place { place < length graph.now }
    ensures in_order { IfOk result (λ reached. IsClosureOf graph.now order.now place reached.items) }
    ensures reached { IfOk result (λ reached.
        (other : ℕ) → Contains reached.items other ↔ Reaches graph.now place other) }
{
    let ranks = ranks_of(alloc, graph, order)?;
    closure_by(alloc, graph, order, &ranks, place)
}

/// A closure, where the ranks in the order are known.
pub(crate) fn closure_by(
    alloc: Global,
    graph: &Graph,
    order: &[usize],
    ranks: &[usize],
    place: usize,
) -> Result<Vec<usize>, AllocError>
    requires order { IsOrderOf graph.now order.now }
    requires long { length ranks.now ≡ length graph.now }
    requires ranks { AreRanks order.now ranks.now }
    requires place { place < length graph.now }
    ensures in_order { IfOk result (λ reached. IsClosureOf graph.now order.now place reached.items) }
    ensures reached { IfOk result (λ reached.
        (other : ℕ) → Contains reached.items other ↔ Reaches graph.now place other) }
{
    let places = reached(alloc, graph, graph.needs_at(place))?;
    in_order(alloc, order, ranks, &places)
}
