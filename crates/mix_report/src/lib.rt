//! What is told of a build: the report of what became of each job, and the trace of its events.
//!
//! Both take a plan and give a text. The layer above may rely on each of its bytes.
#![tactic(auto)]

mod app;
mod reporting;
mod tracing;

pub use reporting::report;
pub use tracing::trace;
