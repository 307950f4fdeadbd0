// Cases of rows, of what can't live together, and of what an environment reaches.

use case_texts::{Fault, app_name, calls_of, folder, refused, rule_name, say, version, word};
use converger::{ConvergeError, Converged, Divergence, Rule, Versions, converge, for_env};
use dep_options::{Decl, decls};
use dep_rows::{ListAnswer, ListAnswers, ListChildren, ListFault, Rows, RowsError, rows};
use elixir_terms::read;
use mx_base::{AppName, FaultPlan, HOST, ListOf};
use semver::Version;
use std::alloc::Global;

/// More rows are shown by their number.
const MOST_SHOWN: usize = 100;

/// The calls that fail, the root's declarations, and for some apps the app and its declarations: the rows.
pub(crate) fn rows_case(alloc: Global, out: &mut String, texts: &[Vec<u8>]) -> Result<(), Fault> {
    let [calls, root, apps @ ..] = texts else {
        return Err(Fault::Form);
    };
    let mut children = children_of(alloc, calls.as_slice(), apps)?;
    let root = declared(alloc, root.as_slice())?;
    push_listing(out, &rows(alloc, root.as_slice(), &mut children))
}

fn push_listing(
    out: &mut String,
    answer: &Result<Rows, RowsError<ListFault>>,
) -> Result<(), Fault> {
    match answer {
        Ok(rows) => {
            say(out, "ok")?;
            push_rows(out, rows)
        }
        Err(RowsError::Children(ListFault::Refused(reason))) => {
            refused(out, u64::from(*reason), "Refused")
        }
        Err(RowsError::Children(ListFault::Failed)) => say(out, "refused - Failed"),
        Err(RowsError::TooManyRows) => say(out, "refused - TooManyRows"),
        Err(_) => Err(Fault::Memory),
    }
}

/// Each row as its app, the place of the row whose child it is, and its place there, with a star where it wins.
fn push_rows(out: &mut String, found: &Rows) -> Result<(), Fault> {
    if found.rows().len() > MOST_SHOWN {
        let count = found.rows().len();
        write!(out, " {count} rows")?;
        return Ok(());
    }
    for (place, row) in found.rows().iter().enumerate() {
        say(out, " ")?;
        say(out, row.app.as_str())?;
        match row.by {
            Some(by) => write!(out, "/{by}/")?,
            None => out.push_str("/-/")?,
        }
        let index = row.index;
        write!(out, "{index}")?;
        if found.winner_of(&row.app) == Some(place as u32) {
            say(out, "*")?;
        }
    }
    Ok(())
}

/// What a text declares in the root.
fn declared(alloc: Global, text: &[u8]) -> Result<Vec<Decl>, Fault> {
    let Ok(term) = read(alloc, text) else {
        return Err(Fault::Form);
    };
    match decls(alloc, &folder(alloc, b"")?, &term) {
        Ok(decls) => Ok(decls),
        Err(_) => Err(Fault::Form),
    }
}

/// Apps, and for each its declarations or, for `!`, that they aren't known, for reason 7.
fn children_of(
    alloc: Global,
    calls: &[u8],
    apps: &[Vec<u8>],
) -> Result<ListChildren<FaultPlan>, Fault> {
    let mut answers = ListAnswers::new(alloc);
    for two in apps.chunks(2) {
        let [app, text] = two else {
            return Err(Fault::Form);
        };
        let app = app_name(alloc, app.as_slice())?;
        let children = match text.as_slice() {
            b"!" => Err(7),
            text => Ok(ListOf::from_vec(declared(alloc, text)?)),
        };
        answers.push(ListAnswer { app, children })?;
    }
    Ok(ListChildren::new(answers, FaultPlan::new(calls_of(alloc, calls)?)))
}

/// The rows of a root and of its apps' declarations.
fn told_rows(alloc: Global, root: &[u8], apps: &[Vec<u8>]) -> Result<Rows, Fault> {
    let mut children = children_of(alloc, b"", apps)?;
    let root = declared(alloc, root)?;
    match rows(alloc, root.as_slice(), &mut children) {
        Ok(rows) => Ok(rows),
        Err(_) => Err(Fault::Form),
    }
}

/// The versions of the winners with a space between two, `-` for one that isn't known, the root's declarations, and for
/// some apps the app and its declarations: whether they live together, and else each divergence.
pub(crate) fn converge_case(
    alloc: Global,
    out: &mut String,
    texts: &[Vec<u8>],
) -> Result<(), Fault> {
    let [versions, root, apps @ ..] = texts else {
        return Err(Fault::Form);
    };
    let versions = versions_of(alloc, word(versions.as_slice())?)?;
    let rows = told_rows(alloc, root.as_slice(), apps)?;
    if versions.as_slice().len() != rows.winners().len() {
        return Err(Fault::Form);
    }
    push_converged(out, &converge(alloc, rows, versions))
}

fn push_converged(
    out: &mut String,
    answer: &Result<Converged, ConvergeError>,
) -> Result<(), Fault> {
    match answer {
        Ok(_) => say(out, "ok"),
        Err(ConvergeError::Diverged(list)) => push_divergences(out, list.as_slice()),
        Err(ConvergeError::NoVersion { app }) => {
            say(out, "refused - NoVersion ")?;
            say(out, app.as_str())
        }
        Err(ConvergeError::OutOfMemory) => Err(Fault::Memory),
    }
}

fn push_divergences(out: &mut String, list: &[Divergence]) -> Result<(), Fault> {
    say(out, "refused - Diverged")?;
    for divergence in list {
        let rule = rule_name(divergence.rule);
        let winner = divergence.winner;
        let other = divergence.other;
        write!(out, " {rule}:{winner}:{other}")?;
    }
    Ok(())
}

fn versions_of(alloc: Global, text: &str) -> Result<Versions, Fault> {
    let mut versions = Versions::new(alloc);
    for one in text.split_whitespace() {
        if one == "-" {
            versions.push(None)?;
        } else {
            versions.push(Some(version(alloc, one.as_bytes())?))?;
        }
    }
    Ok(versions)
}

/// An environment, the root's declarations, and for some apps the app and its declarations: the winners' places that the
/// environment reaches for the target `host`, where each winner has the version 1.0.0.
pub(crate) fn reach_case(alloc: Global, out: &mut String, texts: &[Vec<u8>]) -> Result<(), Fault> {
    let [env, apps @ ..] = texts else {
        return Err(Fault::Form);
    };
    let env = app_name(alloc, env.as_slice())?;
    let target = app_name(alloc, HOST.as_bytes())?;
    push_reach(alloc, out, &env, &target, apps)
}

/// The same for a target, which stands behind the environment.
pub(crate) fn reach_for_case(
    alloc: Global,
    out: &mut String,
    texts: &[Vec<u8>],
) -> Result<(), Fault> {
    let [env, target, apps @ ..] = texts else {
        return Err(Fault::Form);
    };
    let env = app_name(alloc, env.as_slice())?;
    let target = app_name(alloc, target.as_slice())?;
    push_reach(alloc, out, &env, &target, apps)
}

fn push_reach(
    alloc: Global,
    out: &mut String,
    env: &AppName,
    target: &AppName,
    texts: &[Vec<u8>],
) -> Result<(), Fault> {
    let [root, apps @ ..] = texts else {
        return Err(Fault::Form);
    };
    let rows = told_rows(alloc, root.as_slice(), apps)?;
    let versions = same_versions(alloc, rows.winners().len())?;
    if versions.as_slice().len() != rows.winners().len() {
        return Err(Fault::Form);
    }
    match converge(alloc, rows, versions) {
        Ok(converged) => push_reached(alloc, out, &converged, env, target),
        Err(_) => Err(Fault::Form),
    }
}

fn same_versions(alloc: Global, count: usize) -> Result<Versions, Fault> {
    let mut versions = Versions::new(alloc);
    for _ in 0..count {
        versions.push(Some(Version::new(1, 0, 0)))?;
    }
    Ok(versions)
}

fn push_reached(
    alloc: Global,
    out: &mut String,
    converged: &Converged,
    env: &AppName,
    target: &AppName,
) -> Result<(), Fault> {
    say(out, "ok")?;
    for place in for_env(alloc, converged, env, target)? {
        write!(out, " {place}")?;
    }
    Ok(())
}
