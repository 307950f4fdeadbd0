// The order of a graph.
ghost use Rattle.std.specs.Prelude.{ℕ, List, IfOk, IsErrOf};
ghost use Rattle.dep_order.specs.Listing.{IsOrderOf};
ghost use Rattle.dep_order.specs.Cycle.{IsCycleOf};

use crate::cycle::{cycle_after, first_waiting};
use crate::graph::{Graph, Places};
use crate::listing::listing_of;
use std::alloc::{AllocError, Global};

/// Why a graph has no order.
#[derive(Drop)]
pub enum OrderError {
    /// A cycle of places, each of which needs the next one, and the last one the first.
    Cycle(Places),
    OutOfMemory,
}

impl From<AllocError> for OrderError {
    ghost use Rattle.std.specs.Prelude.{◌≡◌};
    ghost use Rattle.dep_order.specs.declared.ordering.OrderError.TheVariants.{OutOfMemory};

    ghost from_gives = { λ _ e. e ≡ OutOfMemory };

    fn from(_: AllocError) -> OrderError {
        OrderError::OutOfMemory
    }
}

/// All places of the graph, at each turn the first one, not yet listed, whose direct needs are
/// all listed. `Cycle` comes exactly where that doesn't list all of them.
pub fn order(alloc: Global, graph: &Graph) -> Result<Vec<usize>, OrderError>
    ensures ok { IfOk result (λ order. IsOrderOf graph.now order.items) }
    ensures cycle { (cycle : List ℕ) → IsErrOf result (OrderError.Cycle cycle) → IsCycleOf graph.now cycle }
{
    let listing = listing_of(alloc, graph)?;
    match first_waiting(&listing) {
        None => Ok(listing.listed),
        Some(start) => Err(OrderError::Cycle(Places::from_vec(cycle_after(
            alloc, graph, &listing, start,
        )?))),
    }
}
