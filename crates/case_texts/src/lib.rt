//! The texts of test cases: how a line's fields are written, the values that they name, and how answers are shown.
//!
//! Programs that ask the libraries one case a line stand on it. It promises nothing to others.
#![tactic(auto)]

mod fields;
mod graphs;
mod lines;
mod names;
mod refusals;
mod shown;
mod stores;

pub use fields::{Fault, number_of, word};
pub use graphs::graph_of;
pub use lines::{Cases, told};
pub use names::{app_name, folder, version};
pub use refusals::{refused_decls, refused_project, refused_settings, refused_term, rule_name};
pub use shown::{push_after, refused, say};
pub use stores::{calls_of, contents_of, store_of};
