//! A board on which several partitions build one plan: the event core and the folders, passed from post to post.
#![tactic(auto)]

mod board;
mod closed;
mod gathering;
mod house;
mod lease;
mod memo;
mod refused;
mod state;
mod take;
mod taking;

pub use board::Board;
pub use closed::Closed;
pub use lease::Lease;
pub use refused::BoardRefused;
pub use state::{BoardOpening, BoardState, Post};
pub use take::{Front, Take};
