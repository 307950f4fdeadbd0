//! The events of a build by several partitions, and what holds after any legal history of them.
#![tactic(auto)]

mod agenda;
mod dependents;
mod event;
mod event_core;
mod laws;
mod lot;
mod outlook;
mod place_set;
mod refusal;
mod table;

pub use event::{BackCause, Event, Illegal, IllegalCause, Next, Standing};
pub use event_core::Core;
pub use laws::{back_once, bounded, confluence, few_starts, refused_exactly};
pub use staleness::Kept;
