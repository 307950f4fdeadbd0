// What the term of a manifest says.
ghost use Rattle.std.specs.Prelude.{◌≡◌, IfOk, option_map, option_and_then, codes};
ghost use Rattle.std.specs.Option.{option_copied};
ghost use Rattle.dep_options.specs.Options.{first_of};
ghost use Rattle.term_values.specs.Apps.{app_of};
ghost use Rattle.term_values.specs.Views.{named};
ghost use Rattle.mx_base.specs.Blame.{Computes};
ghost use Rattle.project_file.specs.Entries.{stated_in};
ghost use Rattle.project_file.specs.Blame.{project_blame};
ghost use Rattle.project_file.specs.Manifest.{version_of, deps_in, stated_by, stated_of, IsProject};

use crate::entries::{entries, first};
use crate::error::ProjectError;
use crate::project::{Decls, Project};
use dep_options::decls;
use mx_base::{AppName, RelPath, Text};
use std::alloc::{AllocError, Global};
use term_values::{Term, app_of};
use version_req::version_in;

/// What a manifest states, where its declarations were not read yet.
#[derive(Drop)]
pub(crate) struct Header<'a> {
    pub(crate) app: AppName,
    pub(crate) version: Text,
    pub(crate) deps: Option<&'a Term>,
}

/// What the term of a manifest in a folder says.
pub(crate) fn project_in(alloc: Global, dir: &RelPath, term: &Term) -> Result<Project, ProjectError>
    ensures { Computes project_blame result (IsProject dir.now term.now) }
{
    let Some(header) = stated(alloc, term)? else {
        return Err(ProjectError::Shape);
    };
    let Header { app, version, deps } = header;
    let Some(deps) = deps else {
        return Ok(Project {
            app,
            version,
            decls: Decls::new(alloc),
        });
    };
    let decls = decls(alloc, dir, deps)?;
    Ok(Project {
        app,
        version,
        decls: Decls::from_vec(decls),
    })
}

// What a manifest states, where the term is one.
fn stated(alloc: Global, term: &Term) -> Result<Option<Header<'_>>, AllocError>
    ensures { IfOk result (λ found. option_map stated_in found ≡ stated_of term.now) }
{
    match entries(alloc, term)? {
        Some(entries) => stated_by(alloc, &entries),
        None => Ok(None),
    }
}

// What these entries state.
fn stated_by<'a>(
    alloc: Global,
    entries: &[(&'a Text, &'a Term)],
) -> Result<Option<Header<'a>>, AllocError>
    ensures { IfOk result (λ found. option_map stated_in found ≡ stated_by (named entries.now)) }
{
    let Some(app) = app_in(alloc, entries)? else {
        return Ok(None);
    };
    let Some(version) = stated_version(alloc, entries)? else {
        return Ok(None);
    };
    match deps_in(entries) {
        Some(deps) => Ok(Some(Header { app, version, deps })),
        None => Ok(None),
    }
}

fn app_in(alloc: Global, entries: &[(&Text, &Term)]) -> Result<Option<AppName>, AllocError>
    ensures { IfOk result (λ found. found ≡ option_and_then app_of
        (first_of (codes "app") (named entries.now))) }
{
    match first(entries, b"app") {
        Some(term) => app_of(alloc, term),
        None => Ok(None),
    }
}

fn stated_version(alloc: Global, entries: &[(&Text, &Term)]) -> Result<Option<Text>, AllocError>
    ensures { IfOk result (λ found. found ≡ option_and_then version_of
        (first_of (codes "version") (named entries.now))) }
{
    match first(entries, b"version") {
        Some(term) => version_of(alloc, term),
        None => Ok(None),
    }
}

// The list of declarations, where one is written.
fn deps_in<'a>(entries: &[(&'a Text, &'a Term)]) -> Option<Option<&'a Term>>
    ensures { option_map (λ deps. option_copied deps) result
        ≡ deps_in (first_of (codes "deps") (named entries.now)) }
{
    match first(entries, b"deps") {
        Some(term) => match term.as_list() {
            Some(_) => Some(Some(term)),
            None => None,
        },
        None => Some(None),
    }
}

// A string that is a version.
fn version_of(alloc: Global, term: &Term) -> Result<Option<Text>, AllocError>
    ensures { IfOk result (λ found. found ≡ version_of term.now) }
{
    match term.as_string() {
        Some(text) => version_in(alloc, text.as_slice()),
        None => Ok(None),
    }
}
