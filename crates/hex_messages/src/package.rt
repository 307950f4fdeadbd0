// What a registry says of a package.

use mx_base::{Bytes, ListOf, Text};

/// A list of releases, in the order of the message.
pub type Releases = ListOf<Release>;

/// A list of dependencies, in the order of the message.
pub type Dependencies = ListOf<Dependency>;

/// What a registry says of a package: the message `Package` of the Hex registry, version 2.
#[derive(Drop)]
pub struct Package {
    pub releases: Releases,
    /// Its name in the registry, which need not be an app's.
    pub name: Text,
    /// The repository that it is of, as `hexpm`.
    pub repository: Text,
}

/// A release of a package.
#[derive(Drop)]
pub struct Release {
    /// Its version as it was sent, which need not be one by SemVer.
    pub version: Text,
    /// The SHA-256 of what its archive holds, as the registry tells it: 32 bytes of an honest one, and bytes of
    /// any kind and length here.
    pub inner_checksum: Bytes,
    pub dependencies: Dependencies,
    /// Why the release was retired, where it was.
    pub retired: Option<Retired>,
    /// The SHA-256 of the archive as it is fetched, likewise.
    pub outer_checksum: Option<Bytes>,
}

/// What a release depends on.
#[derive(Drop)]
pub struct Dependency {
    /// The name of the package in its repository.
    pub package: Text,
    /// Which versions it takes, as it was sent.
    pub requirement: Text,
    /// Whether it holds only where another dependency asks for the package too.
    pub optional: bool,
    /// The app of the package. Where it is unset, the app has the package's name.
    pub app: Option<Text>,
    /// The repository of the package. Where it is unset, that of the depending package.
    pub repository: Option<Text>,
}

/// That a release was retired.
#[derive(Drop)]
pub struct Retired {
    pub reason: Reason,
    /// What the package's owner said to it.
    pub message: Option<Text>,
}

/// Why a release was retired.
#[derive(Clone, Copy)]
pub enum Reason {
    Other,
    Invalid,
    Security,
    Deprecated,
    Renamed,
}
