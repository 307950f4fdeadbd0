// The settings and the manifest of the root.
ghost use Rattle.mx_base.specs.Blame.{Answers, fails};
ghost use Rattle.tree_store.specs.Known.{Told, OnlyReads};
ghost use Rattle.build_plan.specs.Blame.{blame_of};
ghost use Rattle.build_plan.specs.Stages.{HasRoot, SetsUp};

use crate::error::{PlanError, of_project, of_settings};
use mx_base::{MANIFEST, RelPath};
use project_file::{Project, Settings, load_project, load_settings};
use std::alloc::Global;
use tree_store::Store;

/// Reads the settings of a project.
pub(crate) fn settings<S: Store>(alloc: Global, store: &mut S) -> Result<Settings, PlanError>
    ensures answer { Answers blame_of result (Told (S.known store.old) SetsUp) }
    ensures reads { OnlyReads (S.known store.old) (S.known store.new) (fails blame_of result) }
{
    match load_settings(alloc, store) {
        Ok(settings) => Ok(settings),
        Err(fault) => Err(of_settings(fault)),
    }
}

/// Reads the manifest of the root.
pub(crate) fn root<S: Store>(alloc: Global, store: &mut S) -> Result<Project, PlanError>
    ensures answer { Answers blame_of result (Told (S.known store.old) HasRoot) }
    ensures reads { OnlyReads (S.known store.old) (S.known store.new) (fails blame_of result) }
{
    let dir = RelPath::root(alloc);
    let path = dir.child(alloc, MANIFEST)?;
    match load_project(alloc, store, &dir) {
        Ok(Some(root)) => Ok(root),
        Ok(None) => Err(PlanError::NoProject),
        Err(fault) => Err(of_project(path, fault)),
    }
}
