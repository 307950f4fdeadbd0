// The releases of a lock, in terms.
ghost use Rattle.std.specs.Prelude.{◌≡◌, IfOk};
ghost use Rattle.std.specs.Option.{option_copied};
ghost use Rattle.mix_lock.specs.Terms.{is_hexpm, is_tag, is_hex, release_by, build_by, outer_of, joined, hex_entry, with_rest, hex_of};

use crate::deps::deps_of;
use crate::entry::{HexEntry, LockDeps};
use crate::scalars::{HEXPM, bytes_of, is_hexpm, names_of, version_of};
use elixir_terms::Term;
use mx_base::{AppName, Bytes, Names, Text};
use std::alloc::{AllocError, Global};
use term_values::app_of;

// A release and the checksum of its files.
#[derive(Drop)]
struct Release {
    name: AppName,
    version: Text,
    inner: Bytes,
}

// By what a release can be compiled, and what it needs.
#[derive(Drop)]
struct Build {
    managers: Names,
    deps: LockDeps,
}

/// Whether the term is a tuple with `:hex` first.
pub(crate) fn is_hex(term: &Term) -> bool
    ensures { result ≡ is_hex term.now }
{
    match term.as_tuple() {
        Some([tag, ..]) => is_tag(tag),
        _ => false,
    }
}

fn is_tag(term: &Term) -> bool
    ensures { result ≡ is_tag term.now }
{
    match term.as_atom() {
        Some(name) => name.as_slice() == b"hex".as_slice(),
        None => false,
    }
}

/// The release that a tuple says, whose requirements were not read yet. The last element may be left out.
#[tactic(auto, unfolding(crate::specs::Terms::hex_of))]
pub(crate) fn hex_of(alloc: Global, term: &Term) -> Result<Option<HexEntry>, AllocError>
    ensures { IfOk result (λ found. found ≡ hex_of term.now) }
{
    match term.as_tuple() {
        Some([_, name, version, inner, rest @ ..]) => {
            match release_by(alloc, name, version, inner)? {
                Some(release) => with_rest(alloc, release, rest),
                None => Ok(None),
            }
        }
        _ => Ok(None),
    }
}

#[tactic(auto, unfolding(crate::specs::Terms::release_by))]
fn release_by(
    alloc: Global,
    name: &Term,
    version: &Term,
    inner: &Term,
) -> Result<Option<Release>, AllocError>
    ensures { IfOk result (λ found. found ≡ release_by name.now version.now inner.now) }
{
    let Some(name) = app_of(alloc, name)? else {
        return Ok(None);
    };
    let Some(version) = version_of(alloc, version)? else {
        return Ok(None);
    };
    match bytes_of(alloc, inner)? {
        Some(inner) => Ok(Some(Release {
            name,
            version,
            inner,
        })),
        None => Ok(None),
    }
}

// With what follows the release in the tuple.
#[tactic(auto, unfolding(crate::specs::Terms::with_rest))]
fn with_rest(alloc: Global, release: Release, rest: &[Term]) -> Result<Option<HexEntry>, AllocError>
    ensures { IfOk result (λ found. found ≡ with_rest release rest.now) }
{
    match rest {
        [managers, deps, repo] => hex_entry(alloc, release, managers, deps, repo, None),
        [managers, deps, repo, outer] => {
            hex_entry(alloc, release, managers, deps, repo, Some(outer))
        }
        _ => Ok(None),
    }
}

fn hex_entry(
    alloc: Global,
    release: Release,
    managers: &Term,
    deps: &Term,
    repo: &Term,
    outer: Option<&Term>,
) -> Result<Option<HexEntry>, AllocError>
    ensures { IfOk result (λ found. found ≡ hex_entry release (build_by managers.now deps.now)
        (is_hexpm repo.now) (outer_of (option_copied outer.entry))) }
{
    if !is_hexpm(repo) {
        return Ok(None);
    }
    let Some(build) = build_by(alloc, managers, deps)? else {
        return Ok(None);
    };
    match outer_of(alloc, outer)? {
        Some(outer) => Ok(Some(joined(alloc, release, build, outer)?)),
        None => Ok(None),
    }
}

fn joined(
    alloc: Global,
    release: Release,
    build: Build,
    outer: Bytes,
) -> Result<HexEntry, AllocError>
    ensures { IfOk result (λ entry. entry ≡ joined release build outer) }
{
    let repo = Text::from_slice(alloc, HEXPM)?;
    Ok(HexEntry {
        name: release.name,
        version: release.version,
        inner: release.inner,
        managers: build.managers,
        deps: build.deps,
        repo,
        outer,
    })
}

#[tactic(auto, unfolding(crate::specs::Terms::build_by))]
fn build_by(alloc: Global, managers: &Term, deps: &Term) -> Result<Option<Build>, AllocError>
    ensures { IfOk result (λ found. found ≡ build_by managers.now deps.now) }
{
    let Some(managers) = names_of(alloc, managers)? else {
        return Ok(None);
    };
    match deps_of(alloc, deps)? {
        Some(deps) => Ok(Some(Build { managers, deps })),
        None => Ok(None),
    }
}

// The checksum that is written, or none.
fn outer_of(alloc: Global, outer: Option<&Term>) -> Result<Option<Bytes>, AllocError>
    ensures { IfOk result (λ found. found ≡ outer_of (option_copied outer.entry)) }
{
    match outer {
        Some(outer) => bytes_of(alloc, outer),
        None => Ok(Some(Bytes::new(alloc))),
    }
}
