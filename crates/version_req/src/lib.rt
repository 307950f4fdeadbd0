//! Requirements on versions, as `>= 1.2.0 and < 2.0.0 or == 3.0.0`: how they are spelled, and which
//! versions they take.
//!
//! It stands on `semver` for versions and their precedence. A layer above may rely on this: `parse`
//! answers exactly what is spelled, and else how far a requirement goes; `matches` is the meaning.
#![tactic(auto)]

mod error;
mod identifiers;
mod matching;
mod operator;
mod parse;
mod requirement;
mod scan;
mod scanned;
mod version;

pub use error::ReqError;
pub use matching::{compare, matches};
pub use operator::Operator;
pub use requirement::{
    Comparison, Requirement, each_is_read_or_refused, one_refusal, one_requirement,
};
pub use version::version_in;
