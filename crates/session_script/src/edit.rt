// What the elements of a script ask for.

use crate::build_choice::BuildChoice;
use crate::source_path::SourcePath;
use mx_base::{Bytes, Names};

/// What an element of a script asks for.
#[derive(Drop)]
pub enum Edit {
    /// A file of the project is written.
    Put { path: SourcePath, bytes: Bytes },
    /// A file of the project is removed.
    Remove { path: SourcePath },
    /// The builds of these apps are emptied, of all apps where none is named.
    Clean { build: BuildChoice, apps: Names },
    /// A build tree is brought up to date, by 1 to 64 partitions.
    Compile { build: BuildChoice, partitions: u32 },
}
