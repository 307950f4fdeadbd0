// What stands for an app in a lock.

use elixir_terms::Term;
use mx_base::{AppName, Bytes, ListOf, Names, Text};

/// What stands for an app.
#[derive(Drop)]
pub enum Entry {
    /// A release of a package of the registry.
    Hex(HexEntry),
    /// Something else, which is kept as it is: no tuple with `:hex` first.
    Other(Term),
}

/// A release of a package of the registry.
#[derive(Drop)]
pub struct HexEntry {
    /// The package.
    pub name: AppName,
    /// Its version, as it was written.
    pub version: Text,
    /// The checksum of its files, which may be empty.
    pub inner: Bytes,
    /// The build tools that it can be compiled by.
    pub managers: Names,
    /// What it needs.
    pub deps: LockDeps,
    /// The registry, `hexpm`.
    pub repo: Text,
    /// The checksum of the package as it was sent, which may be empty.
    pub outer: Bytes,
}

/// What a release needs, in its order.
pub type LockDeps = ListOf<LockDep>;

/// A dependency of a release.
#[derive(Drop)]
pub struct LockDep {
    pub app: AppName,
    /// The versions that it takes, as it was written.
    pub requirement: Text,
    pub package: AppName,
    pub optional: bool,
}
