// The dependencies of a release.
ghost use Rattle.std.specs.Prelude.{◌≡◌, codes, IfOk, option_and_then};
ghost use Rattle.std.specs.Option.{option_copied};
ghost use Rattle.term_values.specs.Views.{all_of, named};
ghost use Rattle.term_values.specs.Apps.{app_of};
ghost use Rattle.mix_lock.specs.Terms.{under, says_hexpm, truth_of, three, link_in, link_of, dep_by, dep_of, deps_of};

use crate::entry::{LockDep, LockDeps};
use crate::scalars::{is_hexpm, truth_of};
use elixir_terms::Term;
use mx_base::{AppName, Text};
use std::alloc::{AllocError, Global};
use term_values::app_of;

// What the options of a dependency say.
#[derive(Drop)]
struct Link {
    package: AppName,
    optional: bool,
}

// The options of a dependency, in their order.
type Options<'a> = &'a [(&'a Text, &'a Term)];

/// A list of dependencies, whose requirements were not read yet.
pub(crate) fn deps_of(alloc: Global, term: &Term) -> Result<Option<LockDeps>, AllocError>
    ensures { IfOk result (λ found. found ≡ deps_of term.now) }
{
    match term.as_list() {
        Some(items) => deps_in(alloc, items),
        None => Ok(None),
    }
}

fn deps_in(alloc: Global, items: &[Term]) -> Result<Option<LockDeps>, AllocError>
    ensures { IfOk result (λ found. found ≡ all_of dep_of items.now) }
{
    let mut deps = LockDeps::new(alloc);
    for item in items {
        match dep_of(alloc, item)? {
            Some(dep) => deps.push(dep)?,
            None => return Ok(None),
        }
    }
    Ok(Some(deps))
}

// A tuple `{app, requirement, options}`.
#[tactic(auto, unfolding(crate::specs::Terms::dep_of))]
fn dep_of(alloc: Global, term: &Term) -> Result<Option<LockDep>, AllocError>
    ensures { IfOk result (λ found. found ≡ dep_of term.now) }
{
    match term.as_tuple() {
        Some([app, requirement, options]) => dep(alloc, app, requirement, options),
        _ => Ok(None),
    }
}

fn dep(
    alloc: Global,
    app: &Term,
    requirement: &Term,
    options: &Term,
) -> Result<Option<LockDep>, AllocError>
    ensures { IfOk result (λ found. found ≡ dep_by app.now requirement.now options.now) }
{
    let Some(app) = app_of(alloc, app)? else {
        return Ok(None);
    };
    let Some(requirement) = requirement.as_string() else {
        return Ok(None);
    };
    let Some(link) = link_of(alloc, options)? else {
        return Ok(None);
    };
    Ok(Some(LockDep {
        app,
        requirement: Text::from_slice(alloc, requirement.as_slice())?,
        package: link.package,
        optional: link.optional,
    }))
}

// `[hex: name, repo: "hexpm", optional: truth]`, the three in any order.
fn link_of(alloc: Global, term: &Term) -> Result<Option<Link>, AllocError>
    ensures { IfOk result (λ found. found ≡ link_of term.now) }
{
    match term.keywords(alloc)? {
        Some(options) => link_by(alloc, &options),
        None => Ok(None),
    }
}

fn link_by(alloc: Global, options: Options) -> Result<Option<Link>, AllocError>
    ensures { IfOk result (λ found. found ≡ three (named options.now)) }
{
    if options.len() == 3 {
        link_in(alloc, options)
    } else {
        Ok(None)
    }
}

fn link_in(alloc: Global, options: Options) -> Result<Option<Link>, AllocError>
    ensures { IfOk result (λ found. found ≡ link_in (named options.now)) }
{
    let Some(package) = package_in(alloc, options)? else {
        return Ok(None);
    };
    if !says_hexpm(options) {
        return Ok(None);
    }
    match optional_in(options) {
        Some(optional) => Ok(Some(Link { package, optional })),
        None => Ok(None),
    }
}

fn package_in(alloc: Global, options: Options) -> Result<Option<AppName>, AllocError>
    ensures { IfOk result (λ found. found
        ≡ option_and_then app_of (under (codes "hex") (named options.now))) }
{
    match under(options, b"hex") {
        Some(value) => app_of(alloc, value),
        None => Ok(None),
    }
}

fn says_hexpm(options: Options) -> bool
    ensures { result ≡ says_hexpm (under (codes "repo") (named options.now)) }
{
    match under(options, b"repo") {
        Some(value) => is_hexpm(value),
        None => false,
    }
}

fn optional_in(options: Options) -> Option<bool>
    ensures { result ≡ option_and_then truth_of (under (codes "optional") (named options.now)) }
{
    truth_of(under(options, b"optional")?)
}

// The value that stands first under a name.
#[tactic(auto, using(crate::proofs::OptionLemmas::named_rest))]
fn under<'a>(options: Options<'a>, name: &[u8]) -> Option<&'a Term>
    ensures { option_copied result ≡ under name.now (named options.now) }
{
    for (key, value) in options {
        if name == key.as_slice() {
            return Some(*value);
        }
    }
    None
}
