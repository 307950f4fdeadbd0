//! The command that brings a build tree up to date: what is kept stays, what is stale is compiled by partitions.
//!
//! Data flows one way: the plan of the project's files, what of the tree is kept for it, the events of the build, and
//! last the report. The call knows no words; the layer above hands in a store, a maker of partitions and a sink.
#![tactic(auto)]

mod building;
mod compiling;
mod ended;
mod folders;
mod made;
mod settling;
mod tidying;

pub use compiling::{build_planned, build_tree, compile};
pub use ended::{Compiled, Ended};
pub use made::died_text;
pub use settling::status_by;
