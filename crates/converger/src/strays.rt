// Rows that are reached in an environment or for a target that their winner isn't for.
ghost use Rattle.std.specs.Prelude.{◌≡◌, ℕ, ◌<◌, ◌≤◌, ◌↔◌, ◌⊎◌, ◌||◌, List, [], length, IsTrue, IsFalse, IfOk, OnOk, bytes_eq, slice_set, true};
ghost use Rattle.std.specs.List.{AllPairs, Contains, list_any};
ghost use Rattle.std.specs.Ordering.{is_eq};
ghost use Rattle.std.specs.BTreeSet.{contains_by};
ghost use Rattle.mx_base.specs.Order.{text_cmp};
ghost use Rattle.dep_order.specs.Reach.{AreReachedFrom};
ghost use Rattle.dep_rows.specs.Rows.{most_rows};
ghost use Rattle.converger.specs.Reach.{links_of, starts_of};
ghost use Rattle.converger.specs.Strays.{is_marked, is_named, is_stray_beside, only_of, targets_of, AreNamed, IsStray, IsStrayFor, IsStraySomewhere, IsUnnamed};

use crate::reach::{admits, is_for, reach};
use crate::web::{Web, web_of};
use dep_rows::{Row, Rows};
use mx_base::{AppName, Names};
use std::alloc::{AllocError, Global};
use std::collections::BTreeSet;

/// Marks the rows that are reached in some environment and for some target of which their winner, in the root, isn't for
/// both. An environment that the root doesn't name is like any other of these, and a target that no row names too; they go
/// by no name.
pub(crate) fn strays(alloc: Global, rows: &Rows) -> Result<Vec<bool>, AllocError>
    ensures few { IfOk result (λ _. length rows.now.rows ≤ most_rows) }
    ensures long { IfOk result (λ strays. length strays.items ≡ length rows.now.rows) }
    ensures marks { IfOk result (λ strays. (other : ℕ) →
        IsTrue (is_marked strays.items other) ↔ IsStraySomewhere rows.now.rows other) }
{
    let list = rows.rows();
    let envs = environments(alloc, list)?;
    let targets = targets(alloc, list)?;
    let mut strays = vec![in alloc; false; list.len()]?;
    add_for_target(alloc, rows, "", &envs, &mut strays)?;
    for target in &targets {
        add_for_target(alloc, rows, target, &envs, &mut strays)?;
    }
    Ok(strays)
}

/// Marks those for one target, where these are the environments that the root names.
fn add_for_target(
    alloc: Global,
    rows: &Rows,
    target: &str,
    envs: &[&str],
    strays: &mut Vec<bool>,
) -> Result<(), AllocError>
    requires long { length strays.old.items ≡ length rows.now.rows }
    requires named { AreNamed only_of rows.now.rows (λ env.
        list_any (λ name. is_eq (text_cmp env name.now)) envs.now) }
    requires unnamed { IsUnnamed only_of rows.now.rows [] }
    ensures long { length strays.new.items ≡ length strays.old.items }
    ensures marks { OnOk result ((other : ℕ) → IsTrue (is_marked strays.new.items other)
        ↔ (IsTrue (is_marked strays.old.items other)
        ⊎ IsStrayFor rows.now.rows target.now other)) }
{
    let web = web_of(alloc, rows, target)?;
    add_strays(alloc, &web, "", strays)?;
    for env in envs {
        add_strays(alloc, &web, env, strays)?;
    }
    Ok(())
}

/// Marks those in one environment.
fn add_strays(
    alloc: Global,
    web: &Web<'_>,
    env: &str,
    strays: &mut Vec<bool>,
) -> Result<(), AllocError>
    requires { length strays.old.items ≡ length web.now.rows.now.rows }
    ensures long { length strays.new.items ≡ length strays.old.items }
    ensures marks { OnOk result ((other : ℕ) → IsTrue (is_marked strays.new.items other)
        ↔ (IsTrue (is_marked strays.old.items other)
        ⊎ IsStray web.now.rows.now.rows env.now web.now.target.now other)) }
{
    let reached = reach(alloc, web, env)?;
    for other in 0..web.rows.rows().len() {
        if is_stray(web, &reached, env, other) {
            mark(strays, other);
        }
    }
    Ok(())
}

fn mark(marks: &mut Vec<bool>, place: usize)
    requires { place < length marks.old.items }
    ensures { marks.new.items ≡ slice_set marks.old.items place true }
{
    marks[place] = true;
}

fn is_stray(web: &Web<'_>, reached: &[usize], env: &str, other: usize) -> bool
    requires reached { AreReachedFrom (links_of web.now.rows.now.rows web.now.target.now)
        (starts_of web.now.rows.now.rows env.now web.now.target.now) reached.now }
    requires other { other < length web.now.rows.now.rows }
    ensures { IsTrue result ↔ IsStray web.now.rows.now.rows env.now web.now.target.now other }
{
    let list = web.rows.rows();
    let row = &list[other];
    let Some(place) = web.rows.winner_of(&row.app) else {
        return false;
    };
    let Some(by) = row.by else {
        return false;
    };
    let is_reached = has_place(reached, by as usize);
    is_stray_beside(&list[place as usize], row, is_reached, env, web.target)
}

/// Whether a place is among these.
fn has_place(places: &[usize], place: usize) -> bool
    requires { AllPairs (λ earlier later. earlier < later) places.now }
    ensures { IsTrue result ↔ Contains places.now place }
{
    match places.binary_search(&place) {
        Ok(_) => true,
        Err(_) => false,
    }
}

fn is_stray_beside(winner: &Row, row: &Row, is_reached: bool, env: &str, target: &str) -> bool
    ensures { result ≡ is_stray_beside winner.now row.now is_reached env.now target.now }
{
    row.required
        && admits(&row.decl.targets, target)
        && winner.by.is_none()
        && is_reached
        && !is_for(&winner.decl, env, target)
}

/// The environments that the root names, each once.
fn environments<'a>(alloc: Global, rows: &'a [Row]) -> Result<Vec<&'a str>, AllocError>
    ensures named { IfOk result (λ names. AreNamed only_of rows.now (λ env.
        list_any (λ name. is_eq (text_cmp env name.now)) names.items)) }
    ensures unnamed { IfOk result (λ _. IsUnnamed only_of rows.now []) }
{
    let mut names = BTreeSet::new(alloc);
    for row in rows {
        if row.by.is_none() {
            add_names(&mut names, &row.decl.only)?;
        }
    }
    listed(alloc, names)
}

/// The targets that rows name, each once.
fn targets<'a>(alloc: Global, rows: &'a [Row]) -> Result<Vec<&'a str>, AllocError>
    ensures named { IfOk result (λ names. AreNamed targets_of rows.now (λ target.
        list_any (λ name. is_eq (text_cmp target name.now)) names.items)) }
    ensures unnamed { IfOk result (λ _. IsUnnamed targets_of rows.now []) }
{
    let mut names = BTreeSet::new(alloc);
    for row in rows {
        add_names(&mut names, &row.decl.targets)?;
    }
    listed(alloc, names)
}

fn listed<'a>(alloc: Global, names: BTreeSet<&'a str>) -> Result<Vec<&'a str>, AllocError>
    ensures { IfOk result (λ listed. listed.items ≡ names.entry.keys) }
{
    names.into_iter().collect(alloc)
}

fn add_names<'a>(names: &mut BTreeSet<&'a str>, list: &'a Option<Names>) -> Result<(), AllocError>
    ensures names { OnOk result ((text : List ℕ) →
        contains_by (λ name. text_cmp text name.now) names.new
        ≡ (contains_by (λ name. text_cmp text name.now) names.old || is_named list.now text)) }
    ensures not_empty { OnOk result (IsFalse (is_named list.now [])) }
{
    if let Some(list) = list {
        add_all(names, list.as_slice())?;
    }
    Ok(())
}

fn add_all<'a>(names: &mut BTreeSet<&'a str>, list: &'a [AppName]) -> Result<(), AllocError>
    ensures names { OnOk result ((text : List ℕ) →
        contains_by (λ name. text_cmp text name.now) names.new
        ≡ (contains_by (λ name. text_cmp text name.now) names.old
        || list_any (bytes_eq text) list.now)) }
    ensures not_empty { OnOk result (IsFalse (list_any (bytes_eq []) list.now)) }
{
    for name in list {
        names.insert(name.as_str())?;
    }
    Ok(())
}
