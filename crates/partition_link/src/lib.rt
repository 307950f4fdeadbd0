//! Partitions that compile in another process, which is reached over a link.
//!
//! `receive_frame` hears one frame over a link. A `LinkPartition` sends the frame of a job and waits for the verdict on
//! it; it dies where the link fails, the peer closes, or other bytes come.
#![tactic(auto)]

mod asking;
mod hearing;
mod laws;
mod partition;

pub use hearing::{HearFault, receive_frame};
pub use laws::planned_jobs_are_sent;
pub use partition::LinkPartition;
