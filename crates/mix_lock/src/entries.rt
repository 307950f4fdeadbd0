// The entries of a map, in the order in which they stand.
ghost use Rattle.std.specs.Prelude.{◌≡◌, ◌↔◌, IsTrue, IfOk, reverse};
ghost use Rattle.mx_base.specs.Blame.{Answers, AnswersBy};
ghost use Rattle.mx_base.specs.Blame.Blame.{Input};
ghost use Rattle.version_req.specs.Grammar.{IsSpelled};
ghost use Rattle.mix_lock.specs.Blame.{lock_blame};
ghost use Rattle.mix_lock.specs.Says.{AreRead, IsEntry, IsPair, AreEntries, key_name};

use crate::entry::{Entry, LockDep};
use crate::error::LockError;
use crate::release::{hex_of, is_hex};
use elixir_terms::{Pairs, Term};
use mx_base::{AppName, Text, copy_text};
use std::alloc::{AllocError, Global};
use term_values::app_of;
use version_req::{ReqError, Requirement};

/// The apps and their entries, or the first key that is refused.
pub(crate) fn entries_of(alloc: Global, pairs: Pairs) -> Result<Vec<(AppName, Entry)>, LockError>
    ensures { AnswersBy (λ entries. entries.items) lock_blame result (AreEntries pairs) }
{
    let mut rest = reversed(alloc, pairs)?;
    let mut entries = Vec::new(alloc);
    while let Some((key, value)) = rest.pop() {
        entries.push(pair_of(alloc, &key, value)?)?;
    }
    Ok(entries)
}

// The pairs from the last to the first.
fn reversed(alloc: Global, mut pairs: Pairs) -> Result<Vec<(Term, Term)>, AllocError>
    ensures { IfOk result (λ rest. rest.items ≡ reverse pairs) }
{
    let mut rest = Vec::new(alloc);
    while let Some(pair) = pairs.pop() {
        rest.push(pair)?;
    }
    Ok(rest)
}

// The app that a key names and its entry, or why the key is refused.
fn pair_of(alloc: Global, key: &Term, value: Term) -> Result<(AppName, Entry), LockError>
    ensures { Answers lock_blame result (IsPair key.now value) }
{
    let Some(app) = app_of(alloc, key)? else {
        return Err(refused(alloc, key));
    };
    match entry_of(alloc, value)? {
        Some(entry) => Ok((app, entry)),
        None => Err(refused(alloc, key)),
    }
}

// The refusal of a key, or want of memory.
fn refused(alloc: Global, key: &Term) -> LockError
    ensures { lock_blame result ≡ Input → result ≡ LockError.Shape (key_name key.now) }
{
    match key_name(alloc, key) {
        Ok(name) => LockError::Shape(name),
        Err(_) => LockError::OutOfMemory,
    }
}

// The entry that a value is, where it is one.
fn entry_of(alloc: Global, value: Term) -> Result<Option<Entry>, AllocError>
    ensures { IfOk result (IsEntry value) }
{
    if !is_hex(&value) {
        return Ok(Some(Entry::Other(value)));
    }
    let Some(entry) = hex_of(alloc, &value)? else {
        return Ok(None);
    };
    if are_read(alloc, entry.deps.as_slice())? {
        Ok(Some(Entry::Hex(entry)))
    } else {
        Ok(None)
    }
}

// Whether each requirement is one.
fn are_read(alloc: Global, deps: &[LockDep]) -> Result<bool, AllocError>
    ensures { IfOk result (λ are. IsTrue are ↔ AreRead deps.now) }
{
    let mut rest = deps;
    while let [dep, after @ ..] = rest {
        if !is_read(alloc, dep)? {
            return Ok(false);
        }
        rest = after;
    }
    Ok(true)
}

fn is_read(alloc: Global, dep: &LockDep) -> Result<bool, AllocError>
    ensures { IfOk result (λ is. IsTrue is ↔ IsSpelled dep.now.requirement) }
{
    match Requirement::parse(alloc, dep.requirement.as_slice()) {
        Ok(_) => Ok(true),
        Err(ReqError::Refused { .. }) => Ok(false),
        Err(ReqError::OutOfMemory) => Err(AllocError),
    }
}

// The text of a key, where it is an atom.
fn key_name(alloc: Global, key: &Term) -> Result<Text, AllocError>
    ensures { IfOk result (λ name. name ≡ key_name key.now) }
{
    match key.as_atom() {
        Some(name) => copy_text(name),
        None => Ok(Text::from_vec(Vec::new(alloc))),
    }
}
