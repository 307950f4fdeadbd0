//! What is kept of a build tree, and what is cleared from it.
//!
//! Before a build each job's folder is read, to find what of it still stands, and folders that no job has are emptied.
//! After it older marks are written again.
//! Each call hands back every folder that it was handed out, and after each of them an honest tree is honest.
#![tactic(auto)]

mod clearing;
mod fault;
mod kept;
mod laws;
mod rewriting;

pub use clearing::{clean, clear_apart, clear_app, empty};
pub use fault::KeptFault;
pub use kept::read_kept;
pub use laws::{clearing_is_honest, rewriting_is_honest};
pub use rewriting::{rewrite, rewrite_mark};
