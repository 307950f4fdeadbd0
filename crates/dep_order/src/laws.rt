// What holds of every graph. The functions do nothing: their contracts are the laws.
ghost use Rattle.std.specs.Prelude.{◌≡◌, ◌≢◌, ℕ, ◌<◌, ◌⊎◌, ◌↔◌, List, length, take, slice_index, Bool, IsTrue};
ghost use Rattle.std.specs.List.{All, AllPairs, Contains};
ghost use Rattle.dep_order.specs.Graph.{needs_of};
ghost use Rattle.dep_order.specs.Listing.{IsLeft, IsOrderOf, IsStuck};
ghost use Rattle.dep_order.specs.Cycle.{IsCycle, IsCycleAfter, IsCycleOf};
ghost use Rattle.dep_order.specs.Reach.{Reaches, AreReachedFrom, IsClosedFrom};

use crate::graph::Graph;

/// The order of a graph has each of its places once, and nothing else.
pub fn order_has_each_place_once(graph: &Graph)
    ensures once { (order : List ℕ) → IsOrderOf graph.now order →
        AllPairs (λ earlier later. earlier ≢ later) order }
    ensures each { (order : List ℕ) → IsOrderOf graph.now order →
        (place : ℕ) → Contains order place ↔ (place < length graph.now) }
{}

/// Before each place in the order stands all that it reaches.
pub fn needs_come_first(graph: &Graph)
    ensures { (order : List ℕ) → IsOrderOf graph.now order → (k : ℕ) → k < length order →
        (need : ℕ) → Reaches graph.now (slice_index order k) need → Contains (take k order) need }
{}

/// Where a listing can't go on, each place that is left needs a place that is left.
pub fn places_left_need_places_left(graph: &Graph)
    ensures { (listed : List ℕ) → IsStuck graph.now listed →
        (place : ℕ) → IsLeft graph.now listed place →
        (need : ℕ) × Contains (needs_of graph.now place) need × IsLeft graph.now listed need }
{
    let _needs = graph.needs();
}

/// The cycle list is a cycle of the graph, and none of its places is listed.
pub fn cycle_list_is_a_cycle(graph: &Graph)
    ensures cycle { (cycle : List ℕ) → IsCycleOf graph.now cycle → IsCycle graph.now cycle }
    ensures left { (listed cycle : List ℕ) → IsCycleAfter graph.now listed cycle →
        All (IsLeft graph.now listed) cycle }
{
    let _needs = graph.needs();
}

/// A graph has one order at most, and none where a listing can't go on.
pub fn order_is_the_only_one(graph: &Graph)
    ensures one { (order other : List ℕ) → IsOrderOf graph.now order → IsOrderOf graph.now other →
        order ≡ other }
    ensures none { (order listed : List ℕ) → IsOrderOf graph.now order → IsStuck graph.now listed → ⊥ }
{}

/// A graph has one cycle list at most, and none where it has an order.
pub fn cycle_list_is_the_only_one(graph: &Graph)
    ensures one { (cycle other : List ℕ) → IsCycleOf graph.now cycle → IsCycleOf graph.now other →
        cycle ≡ other }
    ensures none { (order cycle : List ℕ) → IsOrderOf graph.now order → IsCycleOf graph.now cycle → ⊥ }
{}

/// Each graph has its order or its cycle list.
pub fn each_graph_has_an_order_or_a_cycle(graph: &Graph)
    ensures { ((order : List ℕ) × IsOrderOf graph.now order)
        ⊎ ((cycle : List ℕ) × IsCycleOf graph.now cycle) }
{
    let _needs = graph.needs();
}

/// What is reached from a place is the least set that is closed from it: it is closed, it is
/// within each closed set, and what is in all of them is reached.
pub fn reach_is_the_least_closed_set(graph: &Graph)
    ensures direct { (from : ℕ) → All (Reaches graph.now from) (needs_of graph.now from) }
    ensures further { (from through : ℕ) → Reaches graph.now from through →
        All (Reaches graph.now from) (needs_of graph.now through) }
    ensures least { (from need : ℕ) → Reaches graph.now from need →
        (set : ℕ → Bool) → IsClosedFrom graph.now from set → IsTrue (set need) }
    ensures every { (from need : ℕ) → ((set : ℕ → Bool) → IsClosedFrom graph.now from set → IsTrue (set need)) →
        Reaches graph.now from need }
{}

/// What is reached from some places of the graph is a list.
pub fn each_reach_is_a_list(graph: &Graph)
    ensures { (starts : List ℕ) → All (λ start. start < length graph.now) starts →
        (places : List ℕ) × AreReachedFrom graph.now starts places }
{
    let _needs = graph.needs();
}
