// Cases of registries, of their picks, and of why a pick isn't valid.

use crate::messages::refused_message;
use crate::wanted::{two, wants_of};
use case_texts::{Fault, app_name, number_of, push_after, say, store_of, word};
use hex_pick::{PickError, pick, pick_within};
use hex_registry::{Breach, By, Pick, Registry, RegistryError, Wants, first_breach, is_valid_pick};
use mx_base::{AppName, Text};
use std::alloc::Global;

/// The calls of the store that fail, wants, packages with a space between two, and files: for each package the versions
/// of its candidates in their order, or that it wasn't read.
pub(crate) fn registry_case(
    alloc: Global,
    out: &mut String,
    texts: &[Vec<u8>],
) -> Result<(), Fault> {
    let [calls, wants, packages, files @ ..] = texts else {
        return Err(Fault::Form);
    };
    let wants = wants_of(alloc, wants.as_slice())?;
    match loaded(alloc, &wants, calls.as_slice(), files)? {
        Ok(registry) => push_registry(alloc, out, &registry, &wants, word(packages.as_slice())?),
        Err(error) => refused_registry(alloc, out, error),
    }
}

fn loaded(
    alloc: Global,
    wants: &Wants,
    calls: &[u8],
    files: &[Vec<u8>],
) -> Result<Result<Registry, RegistryError>, Fault> {
    let mut store = store_of(alloc, calls, b"", files)?;
    Ok(Registry::load(alloc, &mut store, wants))
}

fn push_registry(
    alloc: Global,
    out: &mut String,
    registry: &Registry,
    wants: &Wants,
    packages: &str,
) -> Result<(), Fault> {
    say(out, "ok")?;
    for package in packages.split(' ') {
        write!(out, " {package}:")?;
        push_candidates(
            alloc,
            out,
            registry,
            wants,
            &app_name(alloc, package.as_bytes())?,
        )?;
        say(out, ";")?;
    }
    Ok(())
}

fn push_candidates(
    alloc: Global,
    out: &mut String,
    registry: &Registry,
    wants: &Wants,
    name: &AppName,
) -> Result<(), Fault> {
    if registry.package(name).is_none() {
        return say(out, " unread");
    }
    for place in registry.candidates(alloc, name, locked_of(wants, name))? {
        say(out, " ")?;
        push_version(out, registry, name, place)?;
    }
    Ok(())
}

fn locked_of<'a>(wants: &'a Wants, name: &AppName) -> Option<&'a Text> {
    for (package, version) in wants.locked.as_slice() {
        if package == name {
            return Some(version);
        }
    }
    None
}

/// The version of a release, as its message has it.
fn push_version(
    out: &mut String,
    registry: &Registry,
    name: &AppName,
    place: u64,
) -> Result<(), Fault> {
    let package = registry.package(name).ok_or(Fault::Form)?;
    let release = package
        .releases
        .as_slice()
        .get(place as usize)
        .ok_or(Fault::Form)?;
    say(out, word(release.version.as_slice())?)
}

fn refused_registry(alloc: Global, out: &mut String, error: RegistryError) -> Result<(), Fault> {
    match error {
        RegistryError::Read => say(out, "refused - Read"),
        RegistryError::Wire { package, fault } => {
            refused_message(alloc, out, fault)?;
            say(out, " Wire ")?;
            say(out, package.as_str())
        }
        RegistryError::NoPackage(package) => {
            say(out, "refused - NoPackage ")?;
            say(out, package.as_str())
        }
        RegistryError::NameDiffers { asked, found } => {
            say(out, "refused - NameDiffers ")?;
            say(out, asked.as_str())?;
            push_after(alloc, out, " ", found.as_slice())
        }
        RegistryError::BadVersion { package, version } => {
            say(out, "refused - BadVersion ")?;
            say(out, package.as_str())?;
            push_after(alloc, out, " ", version.as_slice())
        }
        RegistryError::OutOfMemory => Err(Fault::Memory),
    }
}

/// How many nodes may come before the pick, or nothing for a million, wants, and files: the releases that are picked.
pub(crate) fn pick_case(alloc: Global, out: &mut String, texts: &[Vec<u8>]) -> Result<(), Fault> {
    let [limit, wants, files @ ..] = texts else {
        return Err(Fault::Form);
    };
    let wants = wants_of(alloc, wants.as_slice())?;
    let registry = match loaded(alloc, &wants, b"", files)? {
        Ok(registry) => registry,
        Err(error) => return refused_registry(alloc, out, error),
    };
    match picked(alloc, &registry, &wants, limit.as_slice())? {
        Ok(pick) => push_pick(alloc, out, &registry, &wants, &pick),
        Err(error) => refused_pick(out, &error),
    }
}

fn picked(
    alloc: Global,
    registry: &Registry,
    wants: &Wants,
    limit: &[u8],
) -> Result<Result<Pick, PickError>, Fault> {
    if limit.is_empty() {
        return Ok(pick(alloc, registry, wants));
    }
    let limit = number_of(word(limit)?)?;
    Ok(pick_within(alloc, registry, wants, u64::from(limit)))
}

fn push_pick(
    alloc: Global,
    out: &mut String,
    registry: &Registry,
    wants: &Wants,
    pick: &Pick,
) -> Result<(), Fault> {
    say(out, "ok")?;
    for (name, place) in pick.as_slice() {
        write!(out, " {} ", name.as_str())?;
        push_version(out, registry, name, *place)?;
    }
    let valid = is_valid_pick(alloc, registry, wants, pick)?;
    say(out, if valid { " valid" } else { " invalid" })
}

fn refused_pick(out: &mut String, error: &PickError) -> Result<(), Fault> {
    match error {
        PickError::NoPick { package } => {
            say(out, "refused - NoPick ")?;
            say(out, package.as_str())
        }
        PickError::TooManyNodes => say(out, "refused - TooManyNodes"),
        PickError::OutOfMemory => Err(Fault::Memory),
    }
}

/// Wants, packages and the places of their releases with a semicolon after each, and files: the first reason why that
/// pick isn't valid.
pub(crate) fn breach_case(alloc: Global, out: &mut String, texts: &[Vec<u8>]) -> Result<(), Fault> {
    let [wants, pick, files @ ..] = texts else {
        return Err(Fault::Form);
    };
    let wants = wants_of(alloc, wants.as_slice())?;
    let pick = pick_of(alloc, word(pick.as_slice())?)?;
    let registry = match loaded(alloc, &wants, b"", files)? {
        Ok(registry) => registry,
        Err(error) => return refused_registry(alloc, out, error),
    };
    let valid = is_valid_pick(alloc, &registry, &wants, &pick)?;
    say(out, if valid { "ok valid" } else { "ok invalid" })?;
    match first_breach(alloc, &registry, &wants, &pick)? {
        Some(breach) => push_breach(out, &breach),
        None => Ok(()),
    }
}

fn pick_of(alloc: Global, text: &str) -> Result<Pick, Fault> {
    let mut picks = Vec::new(alloc);
    for entry in text.split_terminator(';') {
        let (name, place) = two(entry)?;
        picks.push((
            app_name(alloc, name.as_bytes())?,
            u64::from(number_of(place)?),
        ))?;
    }
    Pick::of(picks).ok_or(Fault::Form)
}

fn push_breach(out: &mut String, breach: &Breach) -> Result<(), Fault> {
    match breach {
        Breach::NotPicked(package) => write!(out, " NotPicked {}", package.as_str())?,
        Breach::NotCandidate(package) => write!(out, " NotCandidate {}", package.as_str())?,
        Breach::Unmet { package, by } => {
            write!(out, " Unmet {}", package.as_str())?;
            match by {
                By::Want(index) => write!(out, " want {index}")?,
                By::Package(name) => write!(out, " package {}", name.as_str())?,
            }
        }
        Breach::Unreached(package) => write!(out, " Unreached {}", package.as_str())?,
    }
    Ok(())
}
