//! The unit compiler as a program of its own, whole: `unitc_run` takes the words that a build adds to a compiler's own,
//! compiles the unit files of a folder over a store, and tells a sink what the compiler says.
//!
//! `specs/` says it without the program: `Words.antt` which words there are, `Reading.antt` what a task is compiled
//! from, `Compile.antt` what it comes to, and `Ends.antt` how a call ends.
#![tactic(auto)]

mod call;
mod compile;
mod fill;
mod laws;
mod needs;
mod sources;
mod words;

pub use call::unitc_run;
pub use laws::{other_words_are_refused, statuses_have_causes, tasks_are_compiled};
pub use words::Task;
