//! How each dependency is compiled: by which compiler, or by which words of a program, and the run of that program.
//!
//! `command` answers what the settings of `project_file` and the declaration say. `drive` runs the program of a job over
//! a spawner, with the words and the variables that belong to the job.
#![tactic(auto)]

mod commands;
mod driving;

pub use commands::command;
pub use driving::drive;
