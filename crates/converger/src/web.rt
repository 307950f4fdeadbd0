// Rows, and whom each winner brings in for a target.
ghost use Rattle.std.specs.Prelude.{◌≡◌, ◌==◌, ◌++◌, ◌<◌, ◌≤◌, [], ◌∷◌, ℕ, length, replicate, if◌then◌else◌, IfOk, OnOk, IfNone, IfSome, Some};
ghost use Rattle.dep_order.specs.Graph.{needs_of};
ghost use Rattle.dep_rows.specs.Rows.{most_rows};
ghost use Rattle.converger.specs.Reach.{is_asked_by, links_of, winners_among};

use crate::reach::admits;
use dep_order::{Graph, Places};
use dep_rows::{Row, Rows};
use std::alloc::{AllocError, Global};

/// Rows, and for each the winners that it brings in for a target.
#[derive(Drop)]
pub(crate) struct Web<'a> {
    pub(crate) rows: &'a Rows,
    pub(crate) target: &'a str,
    pub(crate) links: Graph,
    ghost linked: { links ≡ links_of rows.now.rows target.now },
}

pub(crate) fn web_of<'a>(
    alloc: Global,
    rows: &'a Rows,
    target: &'a str,
) -> Result<Web<'a>, AllocError>
    ensures rows { IfOk result (λ web. web.rows.now ≡ rows.now) }
    ensures target { IfOk result (λ web. web.target.now ≡ target.now) }
    ensures few { IfOk result (λ _. length rows.now.rows ≤ most_rows) }
{
    let links = links_of(alloc, rows, target)?;
    Ok(Web {
        rows,
        target,
        links,
    })
}

fn links_of(alloc: Global, rows: &Rows, target: &str) -> Result<Graph, AllocError>
    ensures links { IfOk result (λ links. links ≡ links_of rows.now.rows target.now) }
    ensures few { IfOk result (λ _. length rows.now.rows ≤ most_rows) }
{
    let list = rows.rows();
    let mut links = without_links(alloc, list.len())?;
    for row in list {
        add_link(&mut links, rows, row, target)?;
    }
    Ok(Graph::of(links))
}

fn without_links(alloc: Global, count: usize) -> Result<Vec<Places>, AllocError>
    ensures { IfOk result (λ links. links.items ≡ replicate count []) }
{
    let mut links = Vec::with_capacity(alloc, count)?;
    for _ in 0..count {
        links.push(Places::new(alloc))?;
    }
    Ok(links)
}

/// Adds the winner that a row brings in for the one that declares it.
#[tactic(auto, using(crate::proofs::Links::nothing_added))]
fn add_link(links: &mut Vec<Places>, rows: &Rows, row: &Row, target: &str) -> Result<(), AllocError>
    requires { IfSome row.now.by (λ by. by < length links.old.items) }
    ensures long { length links.new.items ≡ length links.old.items }
    ensures each { OnOk result ((place : ℕ) → needs_of links.new.items place
        ≡ needs_of links.old.items place ++ winners_among rows.now.rows (is_asked_by target.now place)
        (row.now ∷ [])) }
{
    match link_of(rows, row, target) {
        Some((by, winner)) => push_link(links, by, winner),
        None => Ok(()),
    }
}

/// The row that declares this one, and the winner that it brings in.
#[tactic(auto, using(crate::proofs::Links::not_required, crate::proofs::Links::not_meant, crate::proofs::Links::not_declared, crate::proofs::Links::no_winner, crate::proofs::Links::one_link))]
fn link_of(rows: &Rows, row: &Row, target: &str) -> Option<(usize, usize)>
    ensures none { IfNone result ((place : ℕ) →
        winners_among rows.now.rows (is_asked_by target.now place) (row.now ∷ []) ≡ []) }
    ensures by { IfSome result (λ link. row.now.by ≡ Some link.0) }
    ensures some { IfSome result (λ link. (place : ℕ) →
        winners_among rows.now.rows (is_asked_by target.now place) (row.now ∷ [])
        ≡ (if place == link.0 then link.1 ∷ [] else [])) }
{
    if !row.required {
        return None;
    }
    if !admits(&row.decl.targets, target) {
        return None;
    }
    let by = row.by?;
    let winner = rows.winner_of(&row.app)?;
    Some((by as usize, winner as usize))
}

fn push_link(links: &mut Vec<Places>, by: usize, winner: usize) -> Result<(), AllocError>
    requires { by < length links.old.items }
    ensures long { length links.new.items ≡ length links.old.items }
    ensures each { OnOk result ((place : ℕ) → needs_of links.new.items place
        ≡ needs_of links.old.items place ++ (if place == by then winner ∷ [] else [])) }
{
    links[by].push(winner)?;
    Ok(())
}
