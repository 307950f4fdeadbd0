// What a case wants of a registry.

use case_texts::{Fault, app_name, word};
use hex_registry::{LockedList, Want, WantList, Wants};
use mx_base::{Names, Text};
use std::alloc::Global;
use version_req::Requirement;

/// Words with a semicolon after each: `need` or `may`, then a package, its app and a requirement or nothing; `pin` or
/// `over` and an app; `lock`, a package and a version.
pub(crate) fn wants_of(alloc: Global, text: &[u8]) -> Result<Wants, Fault> {
    let mut wants = Wants {
        wants: WantList::new(alloc),
        pinned: Names::new(alloc),
        overridden: Names::new(alloc),
        locked: LockedList::new(alloc),
    };
    for entry in word(text)?.split_terminator(';') {
        let (kind, rest) = two(entry)?;
        match kind {
            "need" => wants.wants.push(want_of(alloc, rest, false)?)?,
            "may" => wants.wants.push(want_of(alloc, rest, true)?)?,
            "pin" => wants.pinned.push(app_name(alloc, rest.as_bytes())?)?,
            "over" => wants.overridden.push(app_name(alloc, rest.as_bytes())?)?,
            "lock" => push_locked(alloc, &mut wants.locked, rest)?,
            _ => return Err(Fault::Form),
        }
    }
    Ok(wants)
}

/// What stands before the first space, and behind it.
pub(crate) fn two(text: &str) -> Result<(&str, &str), Fault> {
    text.split_once(' ').ok_or(Fault::Form)
}

fn want_of(alloc: Global, text: &str, optional: bool) -> Result<Want, Fault> {
    let (package, rest) = two(text)?;
    let (app, requirement) = two(rest)?;
    Ok(Want {
        app: app_name(alloc, app.as_bytes())?,
        package: app_name(alloc, package.as_bytes())?,
        requirement: requirement_of(alloc, requirement)?,
        optional,
    })
}

fn requirement_of(alloc: Global, text: &str) -> Result<Option<Requirement>, Fault> {
    if text.is_empty() {
        return Ok(None);
    }
    match Requirement::parse(alloc, text.as_bytes()) {
        Ok(requirement) => Ok(Some(requirement)),
        Err(_) => Err(Fault::Form),
    }
}

fn push_locked(alloc: Global, locked: &mut LockedList, text: &str) -> Result<(), Fault> {
    let (package, version) = two(text)?;
    let name = app_name(alloc, package.as_bytes())?;
    locked.push((name, Text::from_slice(alloc, version.as_bytes())?))?;
    Ok(())
}
