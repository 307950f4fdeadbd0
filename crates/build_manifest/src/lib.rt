//! What a mark says, byte for byte.
//!
//! A mark stands beside the outputs of a built dependency and says what they were made from. Each mark
//! has one text, and no mark's text is the beginning of another's. A layer above may rely on this: a
//! `Mark` keeps to what its text can say, `write_mark` gives that text, and `mark_of` gives the mark of
//! what was built.
#![tactic(auto)]

mod description;
mod diagnostics;
mod digits;
mod error;
mod fields;
mod laws;
mod making;
mod mark;
mod names;
mod needs;
mod parsing;
mod paths;
mod rows;
mod writing;

pub use description::Description;
pub use error::MarkError;
pub use laws::{no_mark_begins_another, one_mark, upgrade_of_an_outcome};
pub use making::{mark_of, upgrade};
pub use mark::{Digests, Mark, MarkFormat, Need, NeedDigests};
pub use parsing::read_mark;
pub use writing::write_mark;
