//! Whether what was built before still stands for what is to be built now.
//!
//! A mark says what a dependency was made from. It describes an input where the options text, the listing
//! of the sources, and the apps and the output digests of the needs are equal. Listings and digests are
//! compared, never the bytes of files.
#![tactic(auto)]

mod kept;
mod laws;
mod matching;
mod report;
mod why;

pub use kept::Kept;
pub use laws::{lists_no_match, matches_what_it_describes};
pub use matching::{matches_job, matches_need, matches_now, same_rows};
pub use report::stale_report;
pub use why::Why;
