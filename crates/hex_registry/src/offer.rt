// What releases offer, as far as picks depend on it: each text parsed.
ghost use Rattle.std.specs.Prelude.{◌≡◌, IfOk};
ghost use Rattle.hex_registry.specs.Offers.{SaysDemand, SaysDemands, SaysRequirement, SaysVersion, app_of, is_own, is_usable, name_of};
ghost use Rattle.hex_registry.specs.Shelves.{listed_demands};

use hex_messages::{Dependency, Release};
use mx_base::{AppName, ListOf, NameError, Text};
use semver::{Error, Version};
use std::alloc::{AllocError, Global};
use std::str;
use version_req::{ReqError, Requirement};

/// What a release asks of another package.
#[derive(Drop)]
pub struct Demand {
    pub app: AppName,
    pub package: AppName,
    pub requirement: Requirement,
    /// Whether it holds only where something else asks for the package.
    pub optional: bool,
}

/// The demands of a release in the order of its dependencies.
pub type Demands = ListOf<Demand>;

/// What a release offers.
#[derive(Drop)]
pub struct Offer {
    pub version: Version,
    pub retired: bool,
    /// What it asks for, and none where it isn't usable.
    pub demands: Option<Demands>,
}

impl Offer {
    /// What it asks for, which is nothing where it isn't usable.
    pub fn demands(&self) -> &[Demand]
        ensures { result.now ≡ listed_demands self.now.demands }
    {
        match &self.demands {
            Some(demands) => demands.as_slice(),
            None => &[],
        }
    }

    /// Whether the release can be picked.
    pub fn is_usable(&self) -> bool
        ensures { result ≡ is_usable self.now }
    {
        self.demands.is_some()
    }
}

/// The offers of a package in the order of its releases.
pub type Offers = ListOf<Offer>;

/// The version that a text spells, if it spells one.
pub(crate) fn version_of(alloc: Global, text: &Text) -> Result<Option<Version>, AllocError>
    ensures { IfOk result (SaysVersion text.now) }
{
    let Ok(text) = str::from_utf8(text.as_slice()) else {
        return Ok(None);
    };
    match Version::parse(alloc, text) {
        Ok(version) => Ok(Some(version)),
        Err(error) => {
            if error == Error::from(AllocError) {
                Err(AllocError)
            } else {
                Ok(None)
            }
        }
    }
}

/// What a release of a repository asks for, where it is usable.
#[tactic(auto, using(crate::proofs::OfferLemmas::no_demands, crate::proofs::OfferLemmas::zip_next))]
pub(crate) fn demands_of(
    alloc: Global,
    repository: &Text,
    release: &Release,
) -> Result<Option<Demands>, AllocError>
    ensures { IfOk result (SaysDemands repository.now release.now.dependencies) }
{
    let mut demands = Demands::new(alloc);
    for dependency in release.dependencies.as_slice() {
        match demand_of(alloc, repository, dependency)? {
            Some(demand) => demands.push(demand)?,
            None => return Ok(None),
        }
    }
    Ok(Some(demands))
}

// What a dependency asks for, where it can be read and is of the package's own repository.
#[tactic(auto, using(crate::proofs::OfferLemmas::no_requirement))]
fn demand_of(
    alloc: Global,
    repository: &Text,
    dependency: &Dependency,
) -> Result<Option<Demand>, AllocError>
    ensures { IfOk result (SaysDemand repository.now dependency.now) }
{
    if !is_own(repository, dependency) {
        return Ok(None);
    }
    let Some(package) = name_of(alloc, &dependency.package)? else {
        return Ok(None);
    };
    let Some(app) = name_of(alloc, app_of(dependency))? else {
        return Ok(None);
    };
    let Some(requirement) = requirement_of(alloc, &dependency.requirement)? else {
        return Ok(None);
    };
    Ok(Some(Demand {
        app,
        package,
        requirement,
        optional: dependency.optional,
    }))
}

fn is_own(repository: &Text, dependency: &Dependency) -> bool
    ensures { result ≡ is_own repository.now dependency.now }
{
    match &dependency.repository {
        Some(other) => other.as_slice() == repository.as_slice(),
        None => true,
    }
}

// The app of a dependency, which has the package's name where it is unset.
fn app_of(dependency: &Dependency) -> &Text
    ensures { result.now ≡ app_of dependency.now }
{
    match &dependency.app {
        Some(app) => app,
        None => &dependency.package,
    }
}

fn name_of(alloc: Global, text: &Text) -> Result<Option<AppName>, AllocError>
    ensures { IfOk result (λ found. found ≡ name_of text.now) }
{
    match AppName::of(alloc, text.as_slice()) {
        Ok(name) => Ok(Some(name)),
        Err(NameError::OutOfMemory) => Err(AllocError),
        Err(_) => Ok(None),
    }
}

fn requirement_of(alloc: Global, text: &Text) -> Result<Option<Requirement>, AllocError>
    ensures { IfOk result (SaysRequirement text.now) }
{
    match Requirement::parse(alloc, text.as_slice()) {
        Ok(requirement) => Ok(Some(requirement)),
        Err(ReqError::Refused { .. }) => Ok(None),
        Err(ReqError::OutOfMemory) => Err(AllocError),
    }
}
