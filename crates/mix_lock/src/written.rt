// The terms that are written for releases.
ghost use Rattle.std.specs.Prelude.{◌≡◌, ◌++◌, map, IfOk, OnOk};
ghost use Rattle.term_values.specs.declared.term.Term.TheVariants.{Atom};
ghost use Rattle.mix_lock.specs.Text.{truth_term, keyword, options_term, dep_term, bytes_term, release_terms, build_terms, hex_term};

use crate::entry::{HexEntry, LockDep};
use crate::scalars::HEXPM;
use elixir_terms::{Term, Terms};
use hex::encode;
use mx_base::{AppName, Bytes, Text};
use sqlite_items::Items;
use std::alloc::{AllocError, Global};

/// `{:hex, name, version, inner, managers, deps, repo, outer}`.
pub(crate) fn hex_term(alloc: Global, entry: &HexEntry) -> Result<Term, AllocError>
    ensures { IfOk result (λ term. term ≡ hex_term entry.now) }
{
    let mut parts = Terms::new(alloc);
    push_release(alloc, &mut parts, entry)?;
    push_build(alloc, &mut parts, entry)?;
    Ok(Term::Tuple(parts))
}

// The tag, and the release itself.
#[tactic(auto, using(crate::proofs::PushLemmas::four_pushed))]
fn push_release(alloc: Global, parts: &mut Terms, entry: &HexEntry) -> Result<(), AllocError>
    ensures { OnOk result (parts.new ≡ parts.old ++ release_terms entry.now) }
{
    parts.push(atom(alloc, b"hex")?)?;
    parts.push(name_term(alloc, &entry.name)?)?;
    parts.push(string(alloc, entry.version.as_slice())?)?;
    parts.push(bytes_term(alloc, entry.inner.as_slice())?)
}

// What follows the release.
#[tactic(auto, using(crate::proofs::PushLemmas::four_pushed))]
fn push_build(alloc: Global, parts: &mut Terms, entry: &HexEntry) -> Result<(), AllocError>
    ensures { OnOk result (parts.new ≡ parts.old ++ build_terms entry.now) }
{
    parts.push(names_term(alloc, entry.managers.as_slice())?)?;
    parts.push(deps_term(alloc, entry.deps.as_slice())?)?;
    parts.push(string(alloc, entry.repo.as_slice())?)?;
    parts.push(bytes_term(alloc, entry.outer.as_slice())?)
}

fn atom(alloc: Global, name: &[u8]) -> Result<Term, AllocError>
    ensures { IfOk result (λ term. term ≡ Term.Atom name.now) }
{
    Ok(Term::Atom(Text::from_slice(alloc, name)?))
}

fn name_term(alloc: Global, name: &AppName) -> Result<Term, AllocError>
    ensures { IfOk result (λ term. term ≡ Term.Atom name.now) }
{
    atom(alloc, name.as_str().as_bytes())
}

fn string(alloc: Global, bytes: &[u8]) -> Result<Term, AllocError>
    ensures { IfOk result (λ term. term ≡ Term.Str bytes.now) }
{
    Ok(Term::Str(Bytes::from_slice(alloc, bytes)?))
}

// A string of hexadecimal digits.
fn bytes_term(alloc: Global, bytes: &[u8]) -> Result<Term, AllocError>
    ensures { IfOk result (λ term. term ≡ bytes_term bytes.now) }
{
    string(alloc, encode(alloc, bytes)?.as_bytes())
}

fn names_term(alloc: Global, names: &[AppName]) -> Result<Term, AllocError>
    ensures { IfOk result (λ term. term ≡ Term.List (map Atom names.now)) }
{
    let mut terms = Terms::new(alloc);
    for name in names {
        terms.push(name_term(alloc, name)?)?;
    }
    Ok(Term::List(terms))
}

fn deps_term(alloc: Global, deps: &[LockDep]) -> Result<Term, AllocError>
    ensures { IfOk result (λ term. term ≡ Term.List (map dep_term deps.now)) }
{
    let mut terms = Terms::new(alloc);
    for dep in deps {
        terms.push(dep_term(alloc, dep)?)?;
    }
    Ok(Term::List(terms))
}

// `{app, requirement, options}`.
#[tactic(auto, unfolding(crate::specs::Text::dep_term))]
fn dep_term(alloc: Global, dep: &LockDep) -> Result<Term, AllocError>
    ensures { IfOk result (λ term. term ≡ dep_term dep.now) }
{
    let parts = [
        name_term(alloc, &dep.app)?,
        string(alloc, dep.requirement.as_slice())?,
        options_term(alloc, dep)?,
    ];
    Ok(Term::Tuple(Items::from_vec(Vec::from_array(alloc, parts)?)))
}

// `[hex: name, repo: "hexpm", optional: truth]`.
fn options_term(alloc: Global, dep: &LockDep) -> Result<Term, AllocError>
    ensures { IfOk result (λ term. term ≡ options_term dep.now) }
{
    let package = name_term(alloc, &dep.package)?;
    let repo = string(alloc, HEXPM)?;
    let optional = truth_term(alloc, dep.optional)?;
    let parts = [
        keyword(alloc, b"hex", package)?,
        keyword(alloc, b"repo", repo)?,
        keyword(alloc, b"optional", optional)?,
    ];
    Ok(Term::List(Items::from_vec(Vec::from_array(alloc, parts)?)))
}

fn truth_term(alloc: Global, truth: bool) -> Result<Term, AllocError>
    ensures { IfOk result (λ term. term ≡ truth_term truth) }
{
    if truth {
        atom(alloc, b"true")
    } else {
        atom(alloc, b"false")
    }
}

fn keyword(alloc: Global, name: &[u8], value: Term) -> Result<Term, AllocError>
    ensures { IfOk result (λ term. term ≡ keyword name.now value) }
{
    let parts = [atom(alloc, name)?, value];
    Ok(Term::Tuple(Items::from_vec(Vec::from_array(alloc, parts)?)))
}
