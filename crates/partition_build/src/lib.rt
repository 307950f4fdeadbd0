//! A build by several partitions, each at a post of one board and in a thread of its own.
//!
//! Every number of partitions, in whatever order their events fall, gives each job the fate of compiling job after job.
#![tactic(auto)]

mod building;
mod built;
mod ending;
mod handing;
mod laws;
mod posting;
mod seating;
mod serving;

pub use building::build;
pub use built::Built;
pub use laws::counts_add_up;
