// What is wanted of a registry.
ghost use Rattle.std.specs.Prelude.{◌≡◌};
ghost use Rattle.hex_registry.specs.Shelves.{is_among};

use crate::offer::Demand;
use crate::unmet::is_among;
use mx_base::{AppName, ListOf, Names, Text};
use version_req::Requirement;

/// A package that is wanted.
#[derive(Drop)]
pub struct Want {
    pub app: AppName,
    pub package: AppName,
    /// Which versions are taken; none stands for `>= 0.0.0`.
    pub requirement: Option<Requirement>,
    /// Whether it holds only where something else asks for the package.
    pub optional: bool,
}

/// Wants in the order in which they were stated.
pub type WantList = ListOf<Want>;

/// A package and the text of its version in a lock.
pub type Locked = (AppName, Text);

/// What a lock has, each package once.
pub type LockedList = ListOf<Locked>;

/// What is wanted of a registry, and what dependencies of releases say in vain.
#[derive(Drop)]
pub struct Wants {
    pub wants: WantList,
    /// Apps that come from elsewhere: dependencies of releases on them are set aside.
    pub pinned: Names,
    /// Apps on which only wants may state requirements.
    pub overridden: Names,
    pub locked: LockedList,
}

impl Wants {
    /// Whether a demand is set aside, since its app comes from elsewhere.
    pub fn sets_aside(&self, demand: &Demand) -> bool
        ensures { result ≡ is_among demand.now.app self.now.pinned }
    {
        is_among(&demand.app, &self.pinned)
    }
}
