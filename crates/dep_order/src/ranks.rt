// Where places stand in an order.
ghost use Rattle.std.specs.Prelude.{◌≡◌, ℕ, ◌<◌, length, filter, map, slice_index, IfOk};
ghost use Rattle.std.specs.List.{All};
ghost use Rattle.std.specs.Ordering.{nat_cmp};
ghost use Rattle.std.specs.BTreeSet.{contains};
ghost use Rattle.dep_order.specs.Listing.{is_listed, IsOrderOf};
ghost use Rattle.dep_order.specs.Search.{AreNumbers, AreRanks};

use crate::graph::Graph;
use std::alloc::{AllocError, Global};
use std::collections::BTreeSet;

/// Where each place of the graph stands in its order.
pub(crate) fn ranks_of(
    alloc: Global,
    graph: &Graph,
    order: &[usize],
) -> Result<Vec<usize>, AllocError>
    requires { IsOrderOf graph.now order.now }
    ensures long { IfOk result (λ ranks. length ranks.items ≡ length graph.now) }
    ensures ranks { IfOk result (λ ranks. AreRanks order.now ranks.items) }
{
    let mut ranks = vec![in alloc; 0; graph.needs().len()]?;
    for (rank, place) in order.iter().enumerate() {
        ranks[*place] = rank;
    }
    Ok(ranks)
}

/// These places, as the order has them.
pub(crate) fn in_order(
    alloc: Global,
    order: &[usize],
    ranks: &[usize],
    places: &[usize],
) -> Result<Vec<usize>, AllocError>
    requires ranks { AreRanks order.now ranks.now }
    requires within { All (λ place. place < length ranks.now) places.now }
    ensures { IfOk result (λ sorted. sorted.items ≡ filter (is_listed places.now) order.now) }
{
    let numbers = increasing(alloc, ranks_among(alloc, ranks, places)?)?;
    let mut sorted = Vec::with_capacity(alloc, places.len())?;
    for rank in &numbers {
        sorted.push(place_at(order, *rank))?;
    }
    Ok(sorted)
}

fn place_at(order: &[usize], rank: usize) -> usize
    requires { rank < length order.now }
    ensures { result ≡ slice_index order.now rank }
{
    order[rank]
}

/// The ranks of these places.
fn ranks_among(
    alloc: Global,
    ranks: &[usize],
    places: &[usize],
) -> Result<BTreeSet<usize>, AllocError>
    requires { All (λ place. place < length ranks.now) places.now }
    ensures { IfOk result (λ set. (rank : ℕ) →
        contains nat_cmp set rank ≡ is_listed (map (λ place. slice_index ranks.now place) places.now) rank) }
{
    let mut set = BTreeSet::new(alloc);
    for place in places {
        set.insert(ranks[*place])?;
    }
    Ok(set)
}

/// The numbers of a set, in increasing order.
pub(crate) fn increasing(alloc: Global, numbers: BTreeSet<usize>) -> Result<Vec<usize>, AllocError>
    ensures { IfOk result (λ list. AreNumbers list.items (contains nat_cmp numbers)) }
{
    numbers.into_iter().collect(alloc)
}
