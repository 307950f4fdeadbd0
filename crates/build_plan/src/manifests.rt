// The manifests of dependencies, each of which is read once.
ghost use Rattle.std.specs.Prelude.{◌≡◌, List};
ghost use Rattle.mx_base.specs.declared.file.File.{File};
ghost use Rattle.mx_base.specs.Blame.{Answers, fails};
ghost use Rattle.tree_store.specs.Known.{OnlyReads};
ghost use Rattle.build_plan.specs.Blame.{blame_of};
ghost use Rattle.build_plan.specs.Dependencies.{AreChildren};
ghost use Rattle.build_plan.specs.Kept.{AreKept, Finds, IsFoundIn, MadeOver, made_over};
ghost use Rattle.build_plan.specs.ChildLaws.{children_once, fault_is_told};

use crate::error::PlanError;
use crate::found::{Found, find};
use dep_options::{Decl, DepSource};
use dep_rows::{Children, Tally};
use mx_base::{AppName, RelPath};
use std::alloc::{AllocError, Global};
use std::collections::BTreeMap;
use tree_store::Store;

/// The manifests of dependencies in a store, each of which is read once.
pub(crate) struct Manifests<'a, S> {
    pub store: &'a mut S,
    /// What was found, by folder.
    pub found: &'a mut BTreeMap<RelPath, Found>,
    /// The calls that gave declarations.
    pub tally: Tally,
}

impl<S: Store> Manifests<'_, S> {
    /// What lies in the folder of a winner. It isn't kept any more.
    pub(crate) fn take(
        &mut self,
        alloc: Global,
        app: &AppName,
        winner: &Decl,
    ) -> Result<Found, PlanError>
        requires { AreKept (S.known self.old.store.now).sources self.old.found.now }
        ensures answer { Answers blame_of result
            (Finds (S.known self.old.store.now).sources app.now winner.now) }
        ensures kept { AreKept (S.known self.old.store.now).sources self.new.found.now }
        ensures same_reference { self.new.store.ghost_name ≡ self.old.store.ghost_name }
        ensures reads { OnlyReads (S.known self.old.store.now) (S.known self.new.store.now)
            (fails blame_of result) }
        ensures tally { self.new.tally ≡ self.old.tally }
    {
        match &winner.source {
            DepSource::Hex { .. } => Err(PlanError::NotLocked(app.clone()?)),
            DepSource::Path { dir } => match self.found.remove(dir) {
                Some(found) => Ok(found),
                None => find(alloc, self.store, app, dir),
            },
        }
    }

    /// Keeps what was found in a folder.
    fn keep(&mut self, found: Found) -> Result<(), AllocError>
        requires kept { AreKept (S.known self.old.store.now).sources self.old.found.now }
        requires found { IsFoundIn (S.known self.old.store.now).sources found.dir found }
        ensures kept { AreKept (S.known self.old.store.now).sources self.new.found.now }
        ensures same_reference { self.new.store.ghost_name ≡ self.old.store.ghost_name }
        ensures store { self.new.store.now ≡ self.old.store.now }
        ensures tally { self.new.tally ≡ self.old.tally }
    {
        match found.dir.clone() {
            Ok(dir) => {
                self.found.insert(dir, found)?;
                Ok(())
            }
            Err(error) => {
                drop(found);
                Err(error)
            }
        }
    }
}

impl<S> Drop for Manifests<'_, S> {
    fn drop(self)
        ensures { self.exit.0.now ≡ self.entry.store.now }
    {
        let Manifests {
            store: _,
            found: _,
            tally: _,
        } = self;
    }
}

impl<S: Store> Children for Manifests<'_, S> {
    type Fault = PlanError;

    ghost Known = { List File };

    ghost children_of = { AreChildren };

    ghost meaning = { λ manifests. (S.known manifests.store.now).sources };

    ghost faults = { λ manifests. (S.known manifests.store.now).faults };

    ghost tally = { λ manifests. manifests.tally };

    ghost blame = { blame_of };

    ghost Basis = { MadeOver };

    ghost made_over = { λ manifests. made_over manifests.store.ghost_name (S.known manifests.store.now) };

    ghost stands = { λ manifests. AreKept (S.known manifests.store.now).sources manifests.found.now };

    ghost one = { λ manifests. children_once (S.known manifests.store.now).sources };

    ghost told = { λ manifests app winner error. fault_is_told (S.known manifests.store.now).sources app winner error };

    fn children(
        &mut self,
        alloc: Global,
        app: &AppName,
        winner: &Decl,
    ) -> Result<Vec<Decl>, PlanError> {
        let found = self.take(alloc, app, winner)?;
        let decls = found.declared(alloc, &winner.env)?;
        self.keep(found)?;
        self.tally = self.tally.with(decls.len())?;
        Ok(decls)
    }
}
