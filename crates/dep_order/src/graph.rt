// Graphs of needs.
ghost use Rattle.std.specs.Prelude.{◌≡◌, ◌<◌, length};
ghost use Rattle.dep_order.specs.Graph.{needs_of, NeedsAreWithin};

use mx_base::ListOf;
use std::marker::Model;

/// Places of a graph, from 0 on.
pub type Places = ListOf<usize>;

/// For each place the places that it needs. Contracts see the list of these lists.
#[derive(Drop)]
pub struct Graph {
    needs: ListOf<Places>,
}

impl Model for Graph {
    ghost use Rattle.std.specs.Prelude.{ℕ, List};
    ghost use Rattle.std.specs.Coded.{coded_list, coded_ℕ};
    ghost use Rattle.dep_order.specs.Graph.{NeedsAreWithin};

    ghost Value = { List (List ℕ) };

    ghost coded = { coded_list (coded_list coded_ℕ) };

    ghost view = { λ graph. graph.needs };

    ghost invariant = { λ graph. NeedsAreWithin graph.needs };
}

impl Graph {
    /// The graph in which each place has these needs. A place may need itself, or another one twice.
    pub fn of(needs: Vec<Places>) -> Graph
        requires { NeedsAreWithin needs.items }
        ensures { result ≡ needs.items }
    {
        Graph {
            needs: ListOf::from_vec(needs),
        }
    }

    /// The needs of all places, each a place of the graph.
    pub fn needs(&self) -> &[Places]
        ensures needs { result.now ≡ self.now }
        ensures within { NeedsAreWithin self.now }
    {
        self.needs.as_slice()
    }

    /// The needs of one place.
    pub fn needs_at(&self, place: usize) -> &[usize]
        requires { place < length self.now }
        ensures needs { result.now ≡ needs_of self.now place }
        ensures within { NeedsAreWithin self.now }
    {
        self.needs()[place].as_slice()
    }
}
