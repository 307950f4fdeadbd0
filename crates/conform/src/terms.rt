// Cases of terms, names, paths, versions and requirements.

use case_texts::{Fault, app_name, folder, push_after, refused, refused_term, say, version, word};
use elixir_terms::{Feature, Term, TermCause, TermError, print, read};
use mx_base::{AppName, NameError, PathError, RelPath, build_name};
use semver::Version;
use std::alloc::Global;
use std::cmp::Ordering;
use version_req::{ReqError, Requirement, compare, matches};

/// A text: what its term is printed as.
pub(crate) fn term_case(alloc: Global, out: &mut String, texts: &[Vec<u8>]) -> Result<(), Fault> {
    let [text] = texts else {
        return Err(Fault::Form);
    };
    push_read(alloc, out, text.as_slice())
}

fn push_read(alloc: Global, out: &mut String, text: &[u8]) -> Result<(), Fault> {
    match read(alloc, text) {
        Ok(term) => push_printed(alloc, out, &term),
        Err(error) => refused_term(out, error),
    }
}

fn push_printed(alloc: Global, out: &mut String, term: &Term) -> Result<(), Fault> {
    let printed = print(alloc, term)?;
    push_after(alloc, out, "ok ", printed.as_slice())
}

/// A text: what is printed of the term that is read back from its printing.
pub(crate) fn print_case(alloc: Global, out: &mut String, texts: &[Vec<u8>]) -> Result<(), Fault> {
    let [text] = texts else {
        return Err(Fault::Form);
    };
    match read(alloc, text.as_slice()) {
        Ok(term) => push_printed_again(alloc, out, &term),
        Err(error) => refused_term(out, error),
    }
}

fn push_printed_again(alloc: Global, out: &mut String, term: &Term) -> Result<(), Fault> {
    let printed = print(alloc, term)?;
    push_read(alloc, out, printed.as_slice())
}

/// A text: the name of an app that it is.
pub(crate) fn name_case(alloc: Global, out: &mut String, texts: &[Vec<u8>]) -> Result<(), Fault> {
    let [text] = texts else {
        return Err(Fault::Form);
    };
    match AppName::of(alloc, text.as_slice()) {
        Ok(name) => push_after(alloc, out, "ok ", name.as_str().as_bytes()),
        Err(NameError::Empty) => say(out, "refused - Empty"),
        Err(NameError::TooLong) => say(out, "refused - TooLong"),
        Err(NameError::BadByte { at }) => refused(out, at, "BadByte"),
        Err(NameError::OutOfMemory) => Err(Fault::Memory),
    }
}

/// An environment and a target: the name of their build.
pub(crate) fn build_case(alloc: Global, out: &mut String, texts: &[Vec<u8>]) -> Result<(), Fault> {
    let [env, target] = texts else {
        return Err(Fault::Form);
    };
    let env = app_name(alloc, env.as_slice())?;
    let target = app_name(alloc, target.as_slice())?;
    match build_name(alloc, &env, &target) {
        Ok(name) => push_after(alloc, out, "ok ", name.as_str().as_bytes()),
        Err(NameError::OutOfMemory) => Err(Fault::Memory),
        Err(_) => say(out, "refused - TooLong"),
    }
}

/// A folder and a text: the path to which they join.
pub(crate) fn join_case(alloc: Global, out: &mut String, texts: &[Vec<u8>]) -> Result<(), Fault> {
    let [base, text] = texts else {
        return Err(Fault::Form);
    };
    let base = folder(alloc, base.as_slice())?;
    push_joined(alloc, out, &RelPath::join(alloc, &base, text.as_slice()))
}

fn push_joined(
    alloc: Global,
    out: &mut String,
    answer: &Result<RelPath, PathError>,
) -> Result<(), Fault> {
    match answer {
        Ok(path) => push_after(alloc, out, "ok ", path.as_str().as_bytes()),
        Err(PathError::BadByte { at }) => refused(out, *at, "BadByte"),
        Err(PathError::AboveRoot) => say(out, "refused - AboveRoot"),
        Err(PathError::Empty) => say(out, "refused - Empty"),
        Err(PathError::OutOfMemory) => Err(Fault::Memory),
    }
}

/// Two versions: how the first stands to the second.
pub(crate) fn version_case(
    alloc: Global,
    out: &mut String,
    texts: &[Vec<u8>],
) -> Result<(), Fault> {
    let [left, right] = texts else {
        return Err(Fault::Form);
    };
    let left = version(alloc, left.as_slice())?;
    let right = version(alloc, right.as_slice())?;
    match compare(&left, &right) {
        Ordering::Less => say(out, "ok less"),
        Ordering::Equal => say(out, "ok equal"),
        Ordering::Greater => say(out, "ok greater"),
    }
}

/// A text: whether it is a requirement.
pub(crate) fn requirement_case(
    alloc: Global,
    out: &mut String,
    texts: &[Vec<u8>],
) -> Result<(), Fault> {
    let [text] = texts else {
        return Err(Fault::Form);
    };
    match Requirement::parse(alloc, text.as_slice()) {
        Ok(_) => say(out, "ok"),
        Err(ReqError::Refused { at }) => refused(out, at, "Refused"),
        Err(ReqError::OutOfMemory) => Err(Fault::Memory),
    }
}

/// A requirement and a version: whether it takes it with pre-releases allowed, and without.
pub(crate) fn match_case(alloc: Global, out: &mut String, texts: &[Vec<u8>]) -> Result<(), Fault> {
    let [text, version_text] = texts else {
        return Err(Fault::Form);
    };
    let version = version(alloc, version_text.as_slice())?;
    let Ok(requirement) = Requirement::parse(alloc, text.as_slice()) else {
        return Err(Fault::Form);
    };
    let allowed = matches(&requirement, &version, true);
    let other = matches(&requirement, &version, false);
    say(out, if allowed { "ok yes" } else { "ok no" })?;
    say(out, if other { " yes" } else { " no" })
}
