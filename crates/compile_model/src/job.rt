// What is to be compiled.
ghost use Rattle.std.specs.Prelude.{◌≡◌};
ghost use Rattle.mx_base.specs.Listing.{rows_of};

use crate::how::How;
use mx_base::{AppName, Bytes, Files, ListOf, Listing, Names, RelPath, Text, Variables};

/// Places of jobs in a plan, from 0.
pub type Places = ListOf<u32>;

/// Where the sources of a dependency come from.
#[derive(Drop)]
pub enum Origin {
    /// A folder of the project.
    Path,
    /// A package of the registry.
    Hex { package: AppName },
}

/// A dependency that is to be compiled.
#[derive(Drop)]
pub struct Job {
    pub app: AppName,
    pub version: Text,
    pub origin: Origin,
    /// All that its declaration says of how it is compiled, as a text.
    pub options: Bytes,
    pub how: How,
    /// Variables for a program that compiles it.
    pub system_env: Variables,
    /// Its folder.
    pub dir: RelPath,
    /// The source files, with their paths below its folder.
    pub sources: Files,
    /// The listing of the source files.
    pub rows: Listing,
    /// The jobs that have to be built before.
    pub needs: Places,
    /// The apps of these jobs.
    pub need_apps: Names,
    pub ghost listed: { rows ≡ rows_of sources },
}

/// Jobs, in the order in which they are compiled.
pub type Jobs = ListOf<Job>;

/// What is compiled for an environment.
#[derive(Drop)]
pub struct Plan {
    pub env: AppName,
    pub jobs: Jobs,
}
