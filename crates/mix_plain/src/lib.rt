//! The plain commands: those that need no partition.
//!
//! Each comes to an answer, a status and a text, without a sink. Listing and telling what is stale only read;
//! cleaning empties builds; compiling one after another begins from an empty environment and is what every other way
//! of compiling is measured by.
#![tactic(auto)]

mod cleaning;
mod compile;
mod fill;
mod listing;
mod telling;

pub use cleaning::clean;
pub use compile::compile_in_turn;
pub use listing::deps;
pub use telling::stale;
