// All declarations of a project, and what is found in the folders of its dependencies.
ghost use Rattle.std.specs.Prelude.{◌≡◌, IfOk};
ghost use Rattle.std.specs.List.{All, AllZip};
ghost use Rattle.mx_base.specs.Blame.{AnswersBy, fails};
ghost use Rattle.tree_store.specs.Known.{Told, OnlyReads};
ghost use Rattle.build_plan.specs.Blame.{blame_of};
ghost use Rattle.build_plan.specs.Found.{AreFoundFor, IsFound, IsFoundAt};
ghost use Rattle.build_plan.specs.Kept.{AreKept, FindsAll};
ghost use Rattle.build_plan.specs.Stages.{ListsRows};

use crate::error::PlanError;
use crate::found::Found;
use crate::manifests::Manifests;
use dep_options::Decl;
use dep_rows::{Rows, Tally, rows};
use project_file::one_project;
use std::alloc::Global;
use std::collections::BTreeMap;
use tree_store::Store;

/// The declarations of a project, and what is found in the folders of the winners, in their order.
#[derive(Drop)]
pub(crate) struct Inventory {
    pub rows: Rows,
    pub found: Vec<Found>,
}

/// Reads what the dependencies of a root declare.
pub(crate) fn dependencies<S: Store>(
    alloc: Global,
    store: &mut S,
    root: &[Decl],
) -> Result<Inventory, PlanError>
    ensures answer { AnswersBy (λ all. all.rows) blame_of result
        (Told (S.known store.old) (λ files. ListsRows files root.now)) }
    ensures whole { IfOk result (λ all. AreFoundFor all.rows all.found.items) }
    ensures found { IfOk result (λ all. Told (S.known store.old) (λ files. All (IsFound files))
        all.found.items) }
    ensures reads { OnlyReads (S.known store.old) (S.known store.new) (fails blame_of result) }
{
    let mut found = BTreeMap::new(alloc);
    let mut manifests = Manifests {
        store,
        found: &mut found,
        tally: Tally::none(),
    };
    take_stock(alloc, &mut manifests, root)
}

/// Reads what the dependencies of a root declare, over manifests that are kept.
fn take_stock<S: Store>(
    alloc: Global,
    manifests: &mut Manifests<'_, S>,
    root: &[Decl],
) -> Result<Inventory, PlanError>
    requires { AreKept (S.known manifests.old.store.now).sources manifests.old.found.now }
    ensures answer { AnswersBy (λ all. all.rows) blame_of result
        (Told (S.known manifests.old.store.now) (λ files. ListsRows files root.now)) }
    ensures whole { IfOk result (λ all. AreFoundFor all.rows all.found.items) }
    ensures found { IfOk result (λ all. Told (S.known manifests.old.store.now)
        (λ files. All (IsFound files)) all.found.items) }
    ensures same_reference { manifests.new.store.ghost_name ≡ manifests.old.store.ghost_name }
    ensures reads { OnlyReads (S.known manifests.old.store.now) (S.known manifests.new.store.now)
        (fails blame_of result) }
{
    one_project();
    let rows = rows(alloc, root, manifests)?;
    let found = found_for(alloc, manifests, &rows)?;
    Ok(Inventory { rows, found })
}

/// What lies in the folders of the winners, in their order.
fn found_for<S: Store>(
    alloc: Global,
    manifests: &mut Manifests<'_, S>,
    rows: &Rows,
) -> Result<Vec<Found>, PlanError>
    requires { AreKept (S.known manifests.old.store.now).sources manifests.old.found.now }
    ensures answer { AnswersBy (λ all. all.items) blame_of result
        (Told (S.known manifests.old.store.now) (λ files. FindsAll files rows.now)) }
    ensures at { IfOk result (λ all. AllZip (IsFoundAt rows.now.rows) rows.now.winners all.items) }
    ensures same_reference { manifests.new.store.ghost_name ≡ manifests.old.store.ghost_name }
    ensures reads { OnlyReads (S.known manifests.old.store.now) (S.known manifests.new.store.now)
        (fails blame_of result) }
{
    let all = rows.rows();
    let mut found = Vec::new(alloc);
    for winner in rows.winners() {
        let row = &all[*winner as usize];
        found.push(manifests.take(alloc, &row.app, &row.decl)?)?;
    }
    Ok(found)
}
