//! The order in which the places of a graph come, each after all that it needs, and the cycle
//! that stands against it.
#![tactic(auto)]

mod cycle;
mod dependents;
mod graph;
mod laws;
mod listing;
mod ordered;
mod ordering;
mod ranks;
mod reach;

pub use graph::{Graph, Places};
pub use laws::{
    cycle_list_is_a_cycle, cycle_list_is_the_only_one, each_graph_has_an_order_or_a_cycle,
    each_reach_is_a_list, needs_come_first, order_has_each_place_once, order_is_the_only_one,
    places_left_need_places_left, reach_is_the_least_closed_set,
};
pub use ordered::Ordered;
pub use ordering::{OrderError, order};
pub use reach::{closure, reached};
