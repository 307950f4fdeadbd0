// What the values of options say.
ghost use Rattle.std.specs.Prelude.{◌≡◌, not, ◌==◌, IfOk};
ghost use Rattle.std.specs.List.{list_any};
ghost use Rattle.term_values.specs.Apps.{app_of};
ghost use Rattle.term_values.specs.Views.{all_of};
ghost use Rattle.dep_options.specs.Options.{truth_of, names_of, compile_of, folder_of, package_of, manager_of, variable_of, tuple_variable_of, variables_of};

use crate::decl::{CompileBy, Manager};
use crate::kept_apart::is_dep_folder;
use crate::word::is_word;
use mx_base::{AppName, ListOf, Names, PathError, RelPath, Text, Variable, Variables};
use std::alloc::{AllocError, Global};
use term_values::{Term, app_named, app_of};

// An atom or a string that is the name of an app.
pub(crate) fn package_of(alloc: Global, term: &Term) -> Result<Option<AppName>, AllocError>
    ensures { IfOk result (λ found. found ≡ package_of term.now) }
{
    if let Some(name) = app_of(alloc, term)? {
        return Ok(Some(name));
    }
    match term.as_string() {
        Some(text) => app_named(alloc, text.as_slice()),
        None => Ok(None),
    }
}

// A name by itself, or a list of names.
pub(crate) fn names_of(alloc: Global, term: &Term) -> Result<Option<Names>, AllocError>
    ensures { IfOk result (λ found. found ≡ names_of term.now) }
{
    if let Some(name) = app_of(alloc, term)? {
        let mut names = ListOf::new(alloc);
        names.push(name)?;
        return Ok(Some(names));
    }
    match term.as_list() {
        Some(terms) => apps_of(alloc, terms),
        None => Ok(None),
    }
}

// Each of them, where all are names of apps.
fn apps_of(alloc: Global, terms: &[Term]) -> Result<Option<Names>, AllocError>
    ensures { IfOk result (λ found. found ≡ all_of app_of terms.now) }
{
    let mut names = ListOf::new(alloc);
    for term in terms {
        match app_of(alloc, term)? {
            Some(name) => names.push(name)?,
            None => return Ok(None),
        }
    }
    Ok(Some(names))
}

// An atom `true` or `false`.
pub(crate) fn truth_of(term: &Term) -> Option<bool>
    ensures { result ≡ truth_of term.now }
{
    let name = term.as_atom()?.as_slice();
    if is_word(name, b"true") {
        Some(true)
    } else if is_word(name, b"false") {
        Some(false)
    } else {
        None
    }
}

// `false`, or a command.
pub(crate) fn compile_of(alloc: Global, term: &Term) -> Result<Option<CompileBy>, AllocError>
    ensures { IfOk result (λ found. found ≡ compile_of term.now) }
{
    if let Some(false) = truth_of(term) {
        return Ok(Some(CompileBy::Nothing));
    }
    match term.as_string() {
        Some(text) if has_word(text.as_slice()) => {
            let command = Text::from_slice(alloc, text.as_slice())?;
            Ok(Some(CompileBy::Command(command)))
        }
        _ => Ok(None),
    }
}

// Whether a byte is no space.
fn has_word(text: &[u8]) -> bool
    ensures { result ≡ list_any (λ byte. not (byte == 32)) text.now }
{
    text.iter().any(|byte| *byte != b' ')
}

// A text that leads from the base to a folder of the project.
pub(crate) fn folder_of(
    alloc: Global,
    base: &RelPath,
    term: &Term,
) -> Result<Option<RelPath>, AllocError>
    ensures { IfOk result (λ found. found ≡ folder_of base.now term.now) }
{
    let Some(text) = term.as_string() else {
        return Ok(None);
    };
    match RelPath::join(alloc, base, text.as_slice()) {
        Ok(dir) if is_dep_folder(&dir) => Ok(Some(dir)),
        Ok(_) => Ok(None),
        Err(PathError::OutOfMemory) => Err(AllocError),
        Err(_) => Ok(None),
    }
}

// The atom of a manager.
pub(crate) fn manager_of(term: &Term) -> Option<Manager>
    ensures { result ≡ manager_of term.now }
{
    let name = term.as_atom()?.as_slice();
    if is_word(name, b"mix") {
        Some(Manager::Mix)
    } else if is_word(name, b"rebar3") {
        Some(Manager::Rebar3)
    } else if is_word(name, b"make") {
        Some(Manager::Make)
    } else {
        None
    }
}

// A list of tuples of two strings, or a map of strings to strings.
pub(crate) fn variables_of(alloc: Global, term: &Term) -> Result<Option<Variables>, AllocError>
    ensures { IfOk result (λ found. found ≡ variables_of term.now) }
{
    match term {
        Term::List(items) => tuple_variables(alloc, items.as_slice()),
        Term::Map(pairs) => pair_variables(alloc, pairs.as_slice()),
        _ => Ok(None),
    }
}

fn tuple_variables(alloc: Global, items: &[Term]) -> Result<Option<Variables>, AllocError>
    ensures { IfOk result (λ found. found ≡ all_of tuple_variable_of items.now) }
{
    let mut variables = ListOf::new(alloc);
    for item in items {
        match tuple_variable(alloc, item)? {
            Some(variable) => variables.push(variable)?,
            None => return Ok(None),
        }
    }
    Ok(Some(variables))
}

fn pair_variables(alloc: Global, pairs: &[(Term, Term)]) -> Result<Option<Variables>, AllocError>
    ensures { IfOk result (λ found. found ≡ all_of variable_of pairs.now) }
{
    let mut variables = ListOf::new(alloc);
    for (name, value) in pairs {
        match variable_of(alloc, name, value)? {
            Some(variable) => variables.push(variable)?,
            None => return Ok(None),
        }
    }
    Ok(Some(variables))
}

// A tuple of two strings.
fn tuple_variable(alloc: Global, item: &Term) -> Result<Option<Variable>, AllocError>
    ensures { IfOk result (λ found. found ≡ tuple_variable_of item.now) }
{
    match item.as_pair() {
        Some((name, value)) => variable_of(alloc, name, value),
        None => Ok(None),
    }
}

// The variable of two strings.
fn variable_of(alloc: Global, name: &Term, value: &Term) -> Result<Option<Variable>, AllocError>
    ensures { IfOk result (λ found. found ≡ variable_of (name.now, value.now)) }
{
    let (Some(name), Some(value)) = (name.as_string(), value.as_string()) else {
        return Ok(None);
    };
    Ok(Some(Variable {
        name: Text::from_slice(alloc, name.as_slice())?,
        value: Text::from_slice(alloc, value.as_slice())?,
    }))
}
