// A graph in its order.
ghost use Rattle.std.specs.Prelude.{◌≡◌, ℕ, ◌<◌, ◌↔◌, length, position, nat_eq, Some, IfOk};
ghost use Rattle.std.specs.List.{Contains};
ghost use Rattle.dep_order.specs.Listing.{IsOrderOf};
ghost use Rattle.dep_order.specs.Reach.{Reaches, IsClosureOf};

use crate::graph::Graph;
use crate::ranks::ranks_of;
use crate::reach::closure_by;
use std::alloc::{AllocError, Global};
use std::marker::Model;

/// A graph with its order, and where each place stands in it.
#[derive(Drop)]
pub struct Ordered {
    graph: Graph,
    order: Vec<usize>,
    ranks: Vec<usize>,
}

impl Model for Ordered {
    ghost use Rattle.std.specs.Prelude.{◌≡◌, length};
    ghost use Rattle.dep_order.specs.Listing.{IsOrderOf};
    ghost use Rattle.dep_order.specs.Ordered.{OrderedGraph};
    ghost use Rattle.dep_order.specs.Search.{AreRanks};

    ghost Value = { OrderedGraph };

    ghost view = { λ ordered. record { graph = ordered.graph; order = ordered.order.items } };

    ghost invariant = { λ ordered. IsOrderOf ordered.graph ordered.order.items
        × (length ordered.ranks.items ≡ length ordered.graph) × AreRanks ordered.order.items ordered.ranks.items };
}

impl Ordered {
    /// The graph with this order.
    pub fn of(alloc: Global, graph: Graph, order: Vec<usize>) -> Result<Ordered, AllocError>
        requires { IsOrderOf graph order.items }
        ensures graph { IfOk result (λ ordered. ordered.graph ≡ graph) }
        ensures order { IfOk result (λ ordered. ordered.order ≡ order.items) }
    {
        let ranks = ranks_of(alloc, &graph, &order)?;
        Ok(Ordered {
            graph,
            order,
            ranks,
        })
    }

    /// The places of the graph in its order.
    pub fn order(&self) -> &[usize]
        ensures order { result.now ≡ self.now.order }
        ensures is { IsOrderOf self.now.graph self.now.order }
    {
        self.order.as_slice()
    }

    /// Where a place stands in the order.
    pub fn rank(&self, place: usize) -> usize
        requires { place < length self.now.graph }
        ensures { position (nat_eq place) self.now.order ≡ Some result }
    {
        self.ranks[place]
    }

    /// All that a place needs, directly or through others, in the graph's order.
    pub fn closure(&self, alloc: Global, place: usize) -> Result<Vec<usize>, AllocError>
        requires { place < length self.now.graph }
        ensures in_order { IfOk result (λ reached. IsClosureOf self.now.graph self.now.order place reached.items) }
        ensures reached { IfOk result (λ reached.
            (other : ℕ) → Contains reached.items other ↔ Reaches self.now.graph place other) }
    {
        closure_by(alloc, &self.graph, &self.order, &self.ranks, place)
    }
}
