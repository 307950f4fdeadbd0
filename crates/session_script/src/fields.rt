// What the fields of an element name.
ghost use Rattle.std.specs.Prelude.{◌≡◌, IfOk};
ghost use Rattle.term_values.specs.Apps.{app_of};
ghost use Rattle.term_values.specs.Views.{all_of};
ghost use Rattle.session_script.specs.Elements.{build_of, count_in, count_of, host_build, if_named, names_of, path_in, path_of};

use crate::build_choice::BuildChoice;
use crate::source_path::SourcePath;
use elixir_terms::Term;
use mx_base::{AppName, HOST, NameError, Names, PathError, RelPath, build_name};
use std::alloc::{AllocError, Global};
use term_values::{app_named, app_of};

/// The most partitions that a compile may ask for.
const MOST_PARTITIONS: i128 = 64;

/// A string that names a path from the root, outside of the builds.
pub(crate) fn path_of(alloc: Global, term: &Term) -> Result<Option<SourcePath>, AllocError>
    ensures { IfOk result (λ found. found ≡ path_of term.now) }
{
    match term.as_string() {
        Some(text) => path_in(alloc, text.as_slice()),
        None => Ok(None),
    }
}

fn path_in(alloc: Global, text: &[u8]) -> Result<Option<SourcePath>, AllocError>
    ensures { IfOk result (λ found. found ≡ path_in text.now) }
{
    match RelPath::join(alloc, &RelPath::root(alloc), text) {
        Ok(path) => {
            if path.is_in_build() {
                Ok(None)
            } else {
                Ok(Some(SourcePath::new(path)))
            }
        }
        Err(PathError::OutOfMemory) => Err(AllocError),
        Err(_) => Ok(None),
    }
}

/// The build of an environment for the machine at hand.
pub(crate) fn host_build(alloc: Global, env: &Term) -> Result<Option<BuildChoice>, AllocError>
    ensures { IfOk result (λ found. found ≡ host_build env.now) }
{
    let Some(env) = app_of(alloc, env)? else {
        return Ok(None);
    };
    match app_named(alloc, HOST.as_bytes())? {
        Some(target) => if_named(alloc, env, target),
        None => Ok(None),
    }
}

/// The build of an environment for a target.
pub(crate) fn build_of(
    alloc: Global,
    env: &Term,
    target: &Term,
) -> Result<Option<BuildChoice>, AllocError>
    ensures { IfOk result (λ found. found ≡ build_of env.now target.now) }
{
    let Some(env) = app_of(alloc, env)? else {
        return Ok(None);
    };
    match app_of(alloc, target)? {
        Some(target) => if_named(alloc, env, target),
        None => Ok(None),
    }
}

// Both, where they have the name of a build.
fn if_named(alloc: Global, env: AppName, target: AppName) -> Result<Option<BuildChoice>, AllocError>
    ensures { IfOk result (λ found. found ≡ if_named (record { env = env; target = target })) }
{
    match build_name(alloc, &env, &target) {
        Ok(_) => Ok(Some(BuildChoice::new(env, target))),
        Err(NameError::OutOfMemory) => Err(AllocError),
        Err(_) => Ok(None),
    }
}

/// A list of atoms that are names of apps.
pub(crate) fn names_of(alloc: Global, term: &Term) -> Result<Option<Names>, AllocError>
    ensures { IfOk result (λ found. found ≡ names_of term.now) }
{
    match term.as_list() {
        Some(items) => names_in(alloc, items),
        None => Ok(None),
    }
}

// Each name, where all are names.
fn names_in(alloc: Global, items: &[Term]) -> Result<Option<Names>, AllocError>
    ensures { IfOk result (λ found. found ≡ all_of app_of items.now) }
{
    let mut names = Names::new(alloc);
    for item in items {
        match app_of(alloc, item)? {
            Some(name) => names.push(name)?,
            None => return Ok(None),
        }
    }
    Ok(Some(names))
}

/// A number from 1 to 64.
pub(crate) fn count_of(term: &Term) -> Option<u32>
    ensures { result ≡ count_of term.now }
{
    match term {
        Term::Int(number) => count_in(*number),
        _ => None,
    }
}

fn count_in(number: i128) -> Option<u32>
    ensures { result ≡ count_in number }
{
    if 1 <= number && number <= MOST_PARTITIONS {
        Some(number as u32)
    } else {
        None
    }
}
