//! What the marks of a build tree may be trusted for.
//!
//! A tree is honest for the inputs that were compiled so far where each folder whose mark reads holds the files of
//! one of them, and that one's mark. From such a tree what is kept, and still matches, is what compiling would give.
#![tactic(auto)]

mod laws;

pub use laws::{
    honest_for_more, honest_is_kept, kept_is_the_outcome, marking_is_honest, one_kept,
    unread_is_honest,
};
