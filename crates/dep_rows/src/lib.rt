//! The rows of a project: its own declarations and those of its dependencies, in one list, and
//! which of them win.
//!
//! It stands on the declarations of `dep_options`. A layer above may rely on this: `rows` answers
//! the one list of rows that the root and the children of its winners make, and otherwise the first
//! fault that is met or the limit.
#![tactic(auto)]

mod children;
mod decls;
mod error;
mod laws;
mod list;
mod list_children;
mod listing;
mod queue;
mod row;
mod tally;

pub use children::Children;
pub use error::RowsError;
pub use laws::{one_list, one_outcome, some_outcome};
pub use list::Rows;
pub use list_children::{ListAnswer, ListAnswers, ListChildren, ListFault};
pub use queue::rows;
pub use row::{Places, Row, RowList};
pub use tally::Tally;
