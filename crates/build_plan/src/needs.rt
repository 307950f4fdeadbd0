// What the apps that are reached need directly, for a target.
ghost use Rattle.std.specs.Prelude.{◌≡◌, ◌==◌, ◌<◌, ◌++◌, [], ◌∷◌, ℕ, length, replicate, IfOk, OnOk, IfNone, IfSome, IsFalse, slice_index, if◌then◌else◌, nat_eq, false};
ghost use Rattle.std.specs.List.{AllPairs};
ghost use Rattle.mx_base.specs.Blame.{AnswersBy, fails, is_outside};
ghost use Rattle.mx_base.specs.Blame.Blame.{Input};
ghost use Rattle.dep_order.specs.Graph.{needs_of};
ghost use Rattle.converger.specs.Reach.{admits};
ghost use Rattle.build_plan.specs.Blame.{blame_of};
ghost use Rattle.build_plan.specs.Needs.{apps_of, graph_of, is_child_at, node_of, needs_from};
ghost use Rattle.build_plan.specs.Stages.{OrdersGraph};

use crate::error::PlanError;
use converger::admits;
use dep_order::{Graph, OrderError, Ordered, Places, order};
use dep_rows::{Row, Rows};
use mx_base::{AppName, Names};
use std::alloc::{AllocError, Global};

/// The graph of these winners in its order.
pub(crate) fn ordered_of(
    alloc: Global,
    rows: &Rows,
    target: &AppName,
    places: &[u32],
) -> Result<Ordered, PlanError>
    requires { AllPairs (λ earlier later. earlier < later) places.now }
    ensures graph { IfOk result (λ ordered.
        ordered.graph ≡ graph_of rows.now.rows target.now places.now) }
    ensures answer { AnswersBy (λ ordered. ordered.order) blame_of result
        (OrdersGraph rows.now.rows target.now places.now) }
    ensures alone { IsFalse (fails blame_of result) }
{
    let graph = graph_of(alloc, rows, target, places)?;
    match order(alloc, &graph) {
        Ok(order) => Ok(Ordered::of(alloc, graph, order)?),
        Err(OrderError::Cycle(nodes)) => Err(cycle(alloc, rows.rows(), places, nodes.as_slice())),
        Err(OrderError::OutOfMemory) => Err(PlanError::OutOfMemory),
    }
}

/// The apps of a cycle, as a refusal.
fn cycle(alloc: Global, rows: &[Row], places: &[u32], nodes: &[usize]) -> PlanError
    ensures apps { blame_of result ≡ Input → result
        ≡ PlanError.Cycle (apps_of rows.now places.now nodes.now) }
    ensures alone { IsFalse (is_outside (blame_of result)) }
{
    match apps_of(alloc, rows, places, nodes) {
        Ok(apps) => PlanError::Cycle(apps),
        Err(_) => PlanError::OutOfMemory,
    }
}

/// For each of these winners which of them it needs directly.
fn graph_of(
    alloc: Global,
    rows: &Rows,
    target: &AppName,
    places: &[u32],
) -> Result<Graph, AllocError>
    requires { AllPairs (λ earlier later. earlier < later) places.now }
    ensures { IfOk result (λ graph. graph ≡ graph_of rows.now.rows target.now places.now) }
{
    let mut needs = without_needs(alloc, places.len())?;
    for row in rows.rows() {
        add_row(&mut needs, rows, target, places, row)?;
    }
    Ok(Graph::of(needs))
}

fn without_needs(alloc: Global, count: usize) -> Result<Vec<Places>, AllocError>
    ensures { IfOk result (λ needs. needs.items ≡ replicate count []) }
{
    let mut needs = Vec::with_capacity(alloc, count)?;
    for _ in 0..count {
        needs.push(Places::new(alloc))?;
    }
    Ok(needs)
}

/// Adds what a row says of the needs of the winner that declares it.
#[tactic(auto, using(crate::proofs::NeedLemmas::nothing_added))]
fn add_row(
    needs: &mut Vec<Places>,
    rows: &Rows,
    target: &AppName,
    places: &[u32],
    row: &Row,
) -> Result<(), AllocError>
    requires in_order { AllPairs (λ earlier later. earlier < later) places.now }
    requires long { length needs.old.items ≡ length places.now }
    ensures long { length needs.new.items ≡ length needs.old.items }
    ensures each { OnOk result ((node : ℕ) → node < length places.now →
        needs_of needs.new.items node ≡ needs_of needs.old.items node
        ++ needs_from rows.now.rows target.now places.now (row.now ∷ [])
        (slice_index places.now node)) }
{
    match need_of(rows, target, places, row) {
        Some((node, need)) => add_need(needs, node, need),
        None => Ok(()),
    }
}

fn add_need(needs: &mut Vec<Places>, node: usize, need: usize) -> Result<(), AllocError>
    requires { node < length needs.old.items }
    ensures long { length needs.new.items ≡ length needs.old.items }
    ensures each { OnOk result ((other : ℕ) → needs_of needs.new.items other
        ≡ needs_of needs.old.items other ++ (if other == node then need ∷ [] else [])) }
{
    needs[node].push(need)?;
    Ok(())
}

/// Which winner declares a row, and which one it needs by that.
#[tactic(auto, using(crate::proofs::NeedLemmas::not_meant, crate::proofs::NeedLemmas::no_child, crate::proofs::NeedLemmas::no_node, crate::proofs::NeedLemmas::one_need))]
fn need_of(rows: &Rows, target: &AppName, places: &[u32], row: &Row) -> Option<(usize, usize)>
    requires { AllPairs (λ earlier later. earlier < later) places.now }
    ensures none { IfNone result ((node : ℕ) → node < length places.now →
        needs_from rows.now.rows target.now places.now (row.now ∷ [])
        (slice_index places.now node) ≡ []) }
    ensures within { IfSome result (λ need. need.0 < length places.now) }
    ensures some { IfSome result (λ need. (node : ℕ) → node < length places.now →
        needs_from rows.now.rows target.now places.now (row.now ∷ [])
        (slice_index places.now node) ≡ (if node == need.0 then need.1 ∷ [] else [])) }
{
    if !is_meant(row, target) {
        return None;
    }
    let node = declarer(places, row)?;
    let need = node_of(rows, places, row)?;
    Some((node, need))
}

/// Whether a row is for the target.
fn is_meant(row: &Row, target: &AppName) -> bool
    ensures { result ≡ admits row.now.decl.targets target.now }
{
    admits(&row.decl.targets, target.as_str())
}

/// Which of these winners declares a row.
fn declarer(places: &[u32], row: &Row) -> Option<usize>
    requires { AllPairs (λ earlier later. earlier < later) places.now }
    ensures none { IfNone result ((node : ℕ) → node < length places.now
        → is_child_at (slice_index places.now node) row.now.by ≡ false) }
    ensures within { IfSome result (λ at. at < length places.now) }
    ensures some { IfSome result (λ at. (node : ℕ) → node < length places.now
        → is_child_at (slice_index places.now node) row.now.by ≡ nat_eq node at) }
{
    let by = row.by?;
    match places.binary_search(&by) {
        Ok(at) => Some(at),
        Err(_) => None,
    }
}

/// Which of the winners is that of a row's app.
fn node_of(rows: &Rows, places: &[u32], row: &Row) -> Option<usize>
    requires { AllPairs (λ earlier later. earlier < later) places.now }
    ensures { result ≡ node_of rows.now.rows places.now row.now.app }
{
    let winner = rows.winner_of(&row.app)?;
    match places.binary_search(&winner) {
        Ok(node) => Some(node),
        Err(_) => None,
    }
}

/// The apps of these nodes.
pub(crate) fn apps_of(
    alloc: Global,
    rows: &[Row],
    places: &[u32],
    nodes: &[usize],
) -> Result<Names, AllocError>
    ensures { IfOk result (λ apps. apps ≡ apps_of rows.now places.now nodes.now) }
{
    let mut apps = Names::new(alloc);
    for node in nodes {
        add_app(&mut apps, rows, places, *node)?;
    }
    Ok(apps)
}

fn add_app(apps: &mut Names, rows: &[Row], places: &[u32], node: usize) -> Result<(), AllocError>
    ensures { OnOk result (apps.new ≡ apps.old ++ apps_of rows.now places.now (node ∷ [])) }
{
    let Some(place) = places.get(node) else {
        return Ok(());
    };
    let Some(row) = rows.get(*place as usize) else {
        return Ok(());
    };
    apps.push(row.app.clone()?)?;
    Ok(())
}
