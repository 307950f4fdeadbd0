// What the program can be asked for.

use crate::build_choice::BuildChoice;
use mx_base::Names;

/// What the program can be asked for.
#[derive(Drop)]
pub enum Command {
    /// The names of the commands.
    Help,
    /// Lists the dependencies.
    Deps {
        build: BuildChoice,
    },
    /// Lists what would be compiled again.
    Stale {
        build: BuildChoice,
    },
    /// Compiles the dependencies.
    Compile {
        build: BuildChoice,
        /// By so many partitions, from 1 to 64, where the words say so.
        partitions: Option<u32>,
        /// One after another, without what an earlier build left.
        plain: bool,
        /// Tells each event.
        trace: bool,
    },
    /// Removes what was built of these apps, or of all where none is named.
    Clean {
        build: BuildChoice,
        apps: Names,
    },
}
