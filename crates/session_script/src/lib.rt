//! Scripts of edits and compiles: what a text says of them, all of it told before anything is done.
//!
//! `Elements.antt` says what an element of a script means, and `Says.antt` what a text does. `read_script` answers
//! the edits, or the first refusal. It stands on the terms of `elixir_terms` and the names and paths of `mx_base`.
#![tactic(auto)]

mod build_choice;
mod edit;
mod elements;
mod error;
mod fields;
mod reader;
mod source_path;

pub use build_choice::BuildChoice;
pub use edit::Edit;
pub use error::ScriptError;
pub use reader::read_script;
pub use source_path::SourcePath;
