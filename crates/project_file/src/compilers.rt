// What the term of the settings says.
ghost use Rattle.std.specs.Prelude.{◌≡◌, IfOk, option_and_then, bytes_eq, is_some};
ghost use Rattle.std.specs.List.{list_all};
ghost use Rattle.term_values.specs.Views.{atom_of, all_of, named};
ghost use Rattle.project_file.specs.Compilers.{unit_in, program_in, how_of, is_manager, is_compiler, how_by, settings_in, compilers_of, is_setting, first_setting, settings_by, settings_of, no_settings};
ghost use Rattle.project_file.specs.Entries.{word_of};

use crate::entries::{entries, first};
use crate::settings::Settings;
use compile_model::{How, Texts};
use mx_base::Text;
use std::alloc::{AllocError, Global};
use term_values::Term;

/// The settings that the term is.
pub(crate) fn settings_of(alloc: Global, term: &Term) -> Result<Option<Settings>, AllocError>
    ensures { IfOk result (λ found. found ≡ settings_of term.now) }
{
    match entries(alloc, term)? {
        Some(entries) => settings_by(alloc, &entries),
        None => Ok(None),
    }
}

/// What stands without a file of settings: all managers have the built-in compiler.
pub(crate) fn no_settings() -> Settings
    ensures { result ≡ no_settings }
{
    Settings {
        mix: How::Unit,
        rebar3: How::Unit,
        make: How::Unit,
    }
}

// The settings that these entries are: each is `compilers` with such a list, and the first counts.
fn settings_by(alloc: Global, entries: &[(&Text, &Term)]) -> Result<Option<Settings>, AllocError>
    ensures { IfOk result (λ found. found ≡ settings_by (named entries.now)) }
{
    if are_settings(alloc, entries)? {
        first_setting(alloc, entries)
    } else {
        Ok(None)
    }
}

#[tactic(auto, using(crate::proofs::EntryLemmas::named_rest))]
fn are_settings(alloc: Global, entries: &[(&Text, &Term)]) -> Result<bool, AllocError>
    ensures { IfOk result (λ are. are ≡ list_all is_setting (named entries.now)) }
{
    for (name, value) in entries {
        if !is_setting(alloc, *name, *value)? {
            return Ok(false);
        }
    }
    Ok(true)
}

fn is_setting(alloc: Global, name: &Text, value: &Term) -> Result<bool, AllocError>
    ensures { IfOk result (λ is. is ≡ is_setting (name.now, value.now)) }
{
    if name.as_slice() == b"compilers".as_slice() {
        Ok(compilers_of(alloc, value)?.is_some())
    } else {
        Ok(false)
    }
}

fn first_setting(alloc: Global, entries: &[(&Text, &Term)]) -> Result<Option<Settings>, AllocError>
    ensures { IfOk result (λ found. found ≡ first_setting (named entries.now)) }
{
    match entries {
        [] => Ok(Some(no_settings())),
        [(_, value), ..] => compilers_of(alloc, *value),
    }
}

// A keyword list of managers and how they compile.
fn compilers_of(alloc: Global, term: &Term) -> Result<Option<Settings>, AllocError>
    ensures { IfOk result (λ found. found ≡ compilers_of term.now) }
{
    match term.keywords(alloc)? {
        Some(entries) => settings_in(alloc, &entries),
        None => Ok(None),
    }
}

fn settings_in(alloc: Global, entries: &[(&Text, &Term)]) -> Result<Option<Settings>, AllocError>
    ensures { IfOk result (λ found. found ≡ settings_in (named entries.now)) }
{
    if !are_compilers(alloc, entries)? {
        return Ok(None);
    }
    Ok(Some(Settings {
        mix: how_by(alloc, entries, b"mix")?,
        rebar3: how_by(alloc, entries, b"rebar3")?,
        make: how_by(alloc, entries, b"make")?,
    }))
}

#[tactic(auto, using(crate::proofs::EntryLemmas::named_rest))]
fn are_compilers(alloc: Global, entries: &[(&Text, &Term)]) -> Result<bool, AllocError>
    ensures { IfOk result (λ are. are ≡ list_all is_compiler (named entries.now)) }
{
    for (name, value) in entries {
        if !is_compiler(alloc, *name, *value)? {
            return Ok(false);
        }
    }
    Ok(true)
}

fn is_compiler(alloc: Global, name: &Text, value: &Term) -> Result<bool, AllocError>
    ensures { IfOk result (λ is. is ≡ is_compiler (name.now, value.now)) }
{
    if is_manager(name.as_slice()) {
        Ok(how_of(alloc, value)?.is_some())
    } else {
        Ok(false)
    }
}

fn is_manager(name: &[u8]) -> bool
    ensures { result ≡ is_manager name.now }
{
    name == b"mix".as_slice() || name == b"rebar3".as_slice() || name == b"make".as_slice()
}

// How a manager compiles, as the first entry of its name says.
fn how_by(alloc: Global, entries: &[(&Text, &Term)], name: &[u8]) -> Result<How, AllocError>
    ensures { IfOk result (λ how. how ≡ how_by (named entries.now) name.now) }
{
    let Some(term) = first(entries, name) else {
        return Ok(How::Unit);
    };
    match how_of(alloc, term)? {
        Some(how) => Ok(how),
        None => Ok(How::Unit),
    }
}

// `:unit`, or the words of a program.
fn how_of(alloc: Global, term: &Term) -> Result<Option<How>, AllocError>
    ensures { IfOk result (λ found. found ≡ how_of term.now) }
{
    if let Some(how) = unit(term) {
        return Ok(Some(how));
    }
    match term.as_list() {
        Some(items) => program(alloc, items),
        None => Ok(None),
    }
}

fn unit(term: &Term) -> Option<How>
    ensures { result ≡ option_and_then unit_in (atom_of term.now) }
{
    let name = term.as_atom()?;
    if name.as_slice() == b"unit".as_slice() {
        Some(How::Unit)
    } else {
        None
    }
}

fn program(alloc: Global, items: &[Term]) -> Result<Option<How>, AllocError>
    ensures { IfOk result (λ found. found ≡ option_and_then program_in (all_of word_of items.now)) }
{
    let Some(words) = words(alloc, items)? else {
        return Ok(None);
    };
    if words.as_slice().is_empty() {
        Ok(None)
    } else {
        Ok(Some(How::Program(words)))
    }
}

// Each of them, where all are words.
fn words(alloc: Global, items: &[Term]) -> Result<Option<Texts>, AllocError>
    ensures { IfOk result (λ found. found ≡ all_of word_of items.now) }
{
    let mut words = Texts::new(alloc);
    for item in items {
        match word_of(alloc, item)? {
            Some(word) => words.push(word)?,
            None => return Ok(None),
        }
    }
    Ok(Some(words))
}

// A string that isn't empty.
fn word_of(alloc: Global, term: &Term) -> Result<Option<Text>, AllocError>
    ensures { IfOk result (λ found. found ≡ word_of term.now) }
{
    let Some(word) = term.as_string() else {
        return Ok(None);
    };
    if word.as_slice().is_empty() {
        Ok(None)
    } else {
        Ok(Some(Text::from_slice(alloc, word.as_slice())?))
    }
}
