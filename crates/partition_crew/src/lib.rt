//! Partitions at work: one on one place, and one on all places of a plan.
//!
//! Whatever stands in a place's folder, it is emptied before the run, and a mark is written last, beside files that the
//! run left. So what a stop leaves is no mark, or one that tells what it was made from.
#![tactic(auto)]

mod advancing;
mod building;
mod compiling;
mod meant;
mod one;
mod worked;
mod working;

pub use building::build_one;
pub use meant::Meant;
pub use one::{BuildFault, One};
pub use worked::Worked;
pub use working::work;
