// Graphs of a case.
ghost use Rattle.std.specs.Prelude.{◌<◌, IfOk};
ghost use Rattle.std.specs.List.{All};

use crate::fields::Fault;
use dep_order::{Graph, Places};
use std::alloc::{AllocError, Global};

/// The graph of a text: for each place its needs, joined by commas, and then a semicolon. A number behind a `+` counts
/// from the place itself. Numbers that are no place are left out.
pub fn graph_of(alloc: Global, text: &str) -> Result<Graph, Fault> {
    let rows: Vec<&str> = text.split_terminator(';').collect(alloc)?;
    let mut needs = Vec::new(alloc);
    for row in &rows {
        needs.push(needs_of(alloc, row, needs.len(), rows.len())?)?;
    }
    Ok(Graph::of(needs))
}

/// The needs of a place that a row names, those below the count.
fn needs_of(alloc: Global, row: &str, place: usize, count: usize) -> Result<Places, AllocError>
    ensures { IfOk result (λ needs. All (λ need. need < count) needs) }
{
    let mut needs = Places::new(alloc);
    for word in row.split(',') {
        let need = match word.strip_prefix('+') {
            Some(step) => place.saturating_add(step.parse::<usize>().unwrap_or(usize::MAX)),
            None => word.parse::<usize>().unwrap_or(usize::MAX),
        };
        if need < count {
            needs.push(need)?;
        }
    }
    Ok(needs)
}
