//! The words of the command line: which lists of words are which command.
//!
//! `specs/Table.antt` has the table of the commands, `specs/Meaning.antt` what the words of each are, as a property of the
//! whole list. `read_words` answers the command that the words mean, or the place at which they are refused.
#![tactic(auto)]

mod apps;
mod build_choice;
mod command;
mod error;
mod help;
mod laws;
mod named;
mod number;
mod option;
mod read;
mod reader;
mod settings;
mod sofar;
mod verb;

pub use build_choice::BuildChoice;
pub use command::Command;
pub use error::WordsError;
pub use help::help_text;
pub use laws::{one_command, one_place, refused_means_nothing};
pub use named::has_build_name;
pub use number::read_count;
pub use read::read_words;
