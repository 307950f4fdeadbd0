//! The preferred valid pick of a registry for wants.
//!
//! A search goes down the tree of picks and back. What the tree is, and which of two picks is preferred, stands in
//! `specs/` apart from any search. A layer above may rely on `pick` alone, and on the laws over the tree.
#![tactic(auto)]

mod error;
mod fitting;
mod laws;
mod search;
mod walk;

pub use error::PickError;
pub use laws::{first_is_best, one_best, one_outcome, one_tree, some_tree, valid_are_nodes};
pub use search::{MOST_NODES, pick, pick_within};
