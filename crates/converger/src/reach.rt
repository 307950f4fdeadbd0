// What an environment reaches for a target.
ghost use Rattle.std.specs.Prelude.{◌≡◌, ◌++◌, [], bytes_eq, IfOk, OnOk};
ghost use Rattle.std.specs.List.{cons_option, list_any};
ghost use Rattle.dep_order.specs.Reach.{AreReachedFrom};
ghost use Rattle.dep_rows.specs.Rows.{winner_of};
ghost use Rattle.converger.specs.Reach.{admits, is_for, is_wanted, links_of, starts_of};

use crate::web::Web;
use dep_options::Decl;
use dep_order::reached;
use dep_rows::{Row, Rows};
use mx_base::{AppName, Names};
use std::alloc::{AllocError, Global};

/// The places of the winners that are reached in the environment for the target of the web, in order.
pub(crate) fn reach(alloc: Global, web: &Web<'_>, env: &str) -> Result<Vec<usize>, AllocError>
    ensures { IfOk result (λ places.
        AreReachedFrom (links_of web.now.rows.now.rows web.now.target.now)
        (starts_of web.now.rows.now.rows env.now web.now.target.now) places.items) }
{
    let starts = starts_of(alloc, web.rows, env, web.target)?;
    reached(alloc, &web.links, &starts)
}

/// The winners that the root brings in.
fn starts_of(alloc: Global, rows: &Rows, env: &str, target: &str) -> Result<Vec<usize>, AllocError>
    ensures { IfOk result (λ starts. starts.items ≡ starts_of rows.now.rows env.now target.now) }
{
    let mut starts = Vec::new(alloc);
    for row in rows.rows() {
        if is_wanted(row, env, target) {
            add_winner(&mut starts, rows, row)?;
        }
    }
    Ok(starts)
}

/// Whether a row stands in the root and is for the environment and the target.
fn is_wanted(row: &Row, env: &str, target: &str) -> bool
    ensures { result ≡ is_wanted env.now target.now row.now }
{
    row.by.is_none() && is_for(&row.decl, env, target)
}

/// Whether a declaration is for the environment and for the target.
pub fn is_for(decl: &Decl, env: &str, target: &str) -> bool
    ensures { result ≡ is_for env.now target.now decl.now }
{
    admits(&decl.only, env) && admits(&decl.targets, target)
}

/// Adds the winner of the row's app, where it has one.
#[tactic(auto, using(crate::proofs::Links::nobody_added))]
fn add_winner(winners: &mut Vec<usize>, rows: &Rows, row: &Row) -> Result<(), AllocError>
    ensures { OnOk result (winners.new.items
        ≡ winners.old.items ++ cons_option (winner_of rows.now.rows row.now.app) []) }
{
    if let Some(winner) = rows.winner_of(&row.app) {
        winners.push(winner as usize)?;
    }
    Ok(())
}

/// Whether a list of environments or of targets has the name: where there is no list, each one.
pub fn admits(list: &Option<Names>, name: &str) -> bool
    ensures { result ≡ admits list.now name.now }
{
    match list {
        None => true,
        Some(names) => is_among(names.as_slice(), name),
    }
}

fn is_among(names: &[AppName], text: &str) -> bool
    ensures { result ≡ list_any (bytes_eq text.now) names.now }
{
    for name in names {
        if text == name.as_str() {
            return true;
        }
    }
    false
}
