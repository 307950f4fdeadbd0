//! A project of any size from a number: its dependencies need one another as a stream of numbers says, and each has
//! one unit file.
//!
//! `specs/` says it without the program: `Stream.antt` the numbers, `Dependency.antt` which of them make a dependency,
//! `Texts.antt` the files and the line that is told of a project.
#![tactic(auto)]

mod dependency;
mod laws;
mod line;
mod project;
mod stream;
mod texts;

pub use laws::needs_come_before;
pub use line::{Told, gen_line};
pub use project::{Generated, project_files};
