// A store in memory.
ghost use Rattle.std.specs.Prelude.{◌≡◌, [], Some, false, All, IsTrue, IsFalse, IfOk, OnOk, OnErr};
ghost use Rattle.std.specs.BTreeMap.{get, IsOrdered};
ghost use Rattle.mx_base.specs.Blame.{fails};
ghost use Rattle.mx_base.specs.Order.{AreInOrder, ArePathsInOrder};
ghost use Rattle.mx_base.specs.Path.{is_below};
ghost use Rattle.tree_store.specs.declared.key.BuildKey.{BuildKey};
ghost use Rattle.tree_store.specs.Blame.{blame_of};
ghost use Rattle.mx_base.specs.Layout.{is_in_build};
ghost use Rattle.tree_store.specs.Files.{outside_build, paths_below, put_file};
ghost use Rattle.tree_store.specs.Key.{key_cmp};
ghost use Rattle.tree_store.specs.Holding.{nothing};
ghost use Rattle.tree_store.specs.MemStore.{slot_of, apps_in, envs_in, inserted, keeps_any};
ghost use Rattle.tree_store.specs.Slot.{AreNamesInOrder, SetsSlot};
ghost use Rattle.tree_store.specs.Slot.Slot.{Here, Out};

use crate::contents::Contents;
use crate::holding::Holding;
use crate::key::BuildKey;
use crate::mem_folder::MemFolder;
use crate::store::{Store, StoreFault};
use mx_base::{AppName, Bytes, Faults, NoFaults, RelPath};
use std::alloc::{AllocError, Global};
use std::cmp::Ordering;
use std::collections::{BTreeMap, BTreeSet};

/// A project in memory. One plan says which of its own calls fail, and each folder begins another
/// plan from its first call.
#[derive(Drop)]
pub struct MemStore<P> {
    sources: Contents,
    // A build whose folder is out has nothing here.
    builds: BTreeMap<BuildKey, Option<Holding>>,
    plan: P,
    returned: P,
    folder_plan: P,
}

/// A project in memory of which no call fails.
pub type ConstStore = MemStore<NoFaults>;

impl<P: Faults + Drop + Send> MemStore<P> {
    /// A project of these files, those in `_build` left out, with no builds. `plan` says which calls
    /// of the store fail, `returned` counts the folders that come back with a fault, and each folder
    /// fails as `folder_plan` says, begun anew.
    pub fn new(
        alloc: Global,
        sources: Contents,
        plan: P,
        returned: P,
        folder_plan: P,
    ) -> MemStore<P>
        ensures sources { (⟦<MemStore<P> as Store>⟧.known result).sources ≡ Some (outside_build sources) }
        ensures builds { (key : BuildKey) → (⟦<MemStore<P> as Store>⟧.known result).slot key
            ≡ Here (Some nothing) }
        ensures faults { (⟦<MemStore<P> as Store>⟧.known result).faults ≡ P.count plan }
        ensures folder_faults { (⟦<MemStore<P> as Store>⟧.known result).returned ≡ P.count returned }
    {
        MemStore {
            sources,
            builds: BTreeMap::new(alloc),
            plan,
            returned,
            folder_plan,
        }
    }
}

impl<P: Faults + Drop + Send> Store for MemStore<P> {
    type F = MemFolder<P>;

    ghost known = { λ store. record {
      sources = Some (outside_build store.sources);
      slot = λ key. slot_of (get key_cmp store.builds key);
      faults = P.count store.plan;
      returned = P.count store.returned;
    } };

    #[tactic(auto, using(crate::proofs::FilesLemmas::bytes_outside))]
    fn get(&mut self, _alloc: Global, path: &RelPath) -> Result<Option<Bytes>, StoreFault> {
        if self.plan.fails() {
            return Err(StoreFault::Failed);
        }
        match self.sources.get(path) {
            Some(bytes) => Ok(Some(bytes.clone()?)),
            None => Ok(None),
        }
    }

    #[tactic(auto, using(crate::proofs::SourceLemmas::put_outside))]
    fn put(&mut self, alloc: Global, path: &RelPath, bytes: &[u8]) -> Result<(), StoreFault> {
        if self.plan.fails() {
            return Err(StoreFault::Failed);
        }
        Ok(put_source(alloc, &mut self.sources, path, bytes)?)
    }

    #[tactic(auto, using(crate::proofs::SourceLemmas::removed_outside))]
    fn remove(&mut self, _alloc: Global, path: &RelPath) -> Result<(), StoreFault> {
        if self.plan.fails() {
            return Err(StoreFault::Failed);
        }
        self.sources.remove(path);
        Ok(())
    }

    fn list(&mut self, alloc: Global, dir: &RelPath) -> Result<Vec<RelPath>, StoreFault> {
        if self.plan.fails() {
            return Err(StoreFault::Failed);
        }
        Ok(listed(alloc, &self.sources, dir)?)
    }

    fn environments(&mut self, alloc: Global) -> Result<Vec<AppName>, StoreFault> {
        if self.plan.fails() {
            return Err(StoreFault::Failed);
        }
        let envs = environments_of(alloc, &self.builds)?;
        Ok(in_order(alloc, envs)?)
    }

    fn apps(&mut self, alloc: Global, env: &AppName) -> Result<Vec<AppName>, StoreFault> {
        if self.plan.fails() {
            return Err(StoreFault::Failed);
        }
        Ok(apps_of(alloc, &self.builds, env)?)
    }

    fn folder(
        &mut self,
        alloc: Global,
        env: &AppName,
        app: &AppName,
    ) -> Result<MemFolder<P>, StoreFault> {
        if self.plan.fails() {
            return Err(StoreFault::Failed);
        }
        let key = BuildKey::of(env, app)?;
        let plan = self.folder_plan.restarted(alloc)?;
        let holding = lend(alloc, &mut self.builds, &key)?;
        Ok(MemFolder { key, holding, plan })
    }

    fn give_back(&mut self, folder: MemFolder<P>) {
        let MemFolder { key, holding, plan } = folder;
        self.returned.take_over(&plan);
        put_back(&mut self.builds, &key, holding);
    }
}

fn put_source(
    alloc: Global,
    sources: &mut Contents,
    path: &RelPath,
    bytes: &[u8],
) -> Result<(), AllocError>
    ensures ok { OnOk result (sources.new
        ≡ put_file (record { path = path.now; bytes = bytes.now }) sources.old) }
    ensures err { OnErr result (sources.new ≡ sources.old) }
    ensures in_order { OnOk result (AreInOrder sources.old) }
{
    let path = path.clone()?;
    let bytes = Bytes::from_slice(alloc, bytes)?;
    sources.put(path, bytes)
}

fn listed(alloc: Global, sources: &Contents, dir: &RelPath) -> Result<Vec<RelPath>, AllocError>
    ensures paths { IfOk result (λ paths. paths.items ≡ paths_below dir.now (outside_build sources.now)) }
    ensures in_order { IfOk result (λ paths. ArePathsInOrder paths.items) }
    ensures below { IfOk result (λ paths. All (λ path. IsTrue (is_below dir.now path)) paths.items) }
    ensures outside { IfOk result (λ paths. All (λ path. IsFalse (is_in_build path)) paths.items) }
{
    let mut paths = sources.below(alloc, dir)?;
    paths.retain(|path| !path.is_in_build());
    Ok(paths)
}

// What is kept at a build, whose folder is then out.
fn lend(
    alloc: Global,
    builds: &mut BTreeMap<BuildKey, Option<Holding>>,
    key: &BuildKey,
) -> Result<Holding, StoreFault>
    requires { slot_of (get key_cmp builds.old key.now) ≡ Out → ⊥ }
    ensures held { IfOk result (λ held. Here (Some held)
        ≡ slot_of (get key_cmp builds.old key.now)) }
    ensures out { OnOk result (SetsSlot key.now Out (λ q. slot_of (get key_cmp builds.old q))
        (λ q. slot_of (get key_cmp builds.new q))) }
    ensures err { OnErr result (builds.new.entries ≡ builds.old.entries) }
    ensures no_fault { fails blame_of result ≡ false }
{
    match builds.insert(key.clone()?, None)? {
        Some(Some(holding)) => Ok(holding),
        _ => Ok(Holding::new(alloc)),
    }
}

fn put_back(builds: &mut BTreeMap<BuildKey, Option<Holding>>, key: &BuildKey, holding: Holding)
    requires { slot_of (get key_cmp builds.old key.now) ≡ Out }
    ensures { SetsSlot key.now (Here (Some holding)) (λ q. slot_of (get key_cmp builds.old q))
        (λ q. slot_of (get key_cmp builds.new q)) }
{
    if let Some(slot) = builds.get_mut(key) {
        *slot = Some(holding);
    }
}

fn apps_of(
    alloc: Global,
    builds: &BTreeMap<BuildKey, Option<Holding>>,
    env: &AppName,
) -> Result<Vec<AppName>, AllocError>
    ensures apps { IfOk result (λ apps. apps.items ≡ apps_in env.now builds.now.entries) }
    ensures ordered { IfOk result (λ _. IsOrdered key_cmp builds.now) }
{
    let mut apps = Vec::new(alloc);
    for (key, slot) in builds {
        if key.env == *env && keeps_any(slot) {
            apps.push(key.app.clone()?)?;
        }
    }
    Ok(apps)
}

// The environments of which something is kept, each once.
fn environments_of(
    alloc: Global,
    builds: &BTreeMap<BuildKey, Option<Holding>>,
) -> Result<BTreeSet<AppName>, AllocError>
    ensures envs { IfOk result (λ envs. envs.keys ≡ inserted [] (envs_in builds.now.entries)) }
    ensures ordered { IfOk result (λ _. IsOrdered key_cmp builds.now) }
{
    let mut envs = BTreeSet::new(alloc);
    for (key, slot) in builds {
        if keeps_any(slot) {
            envs.insert(key.env.clone()?)?;
        }
    }
    Ok(envs)
}

fn in_order(alloc: Global, names: BTreeSet<AppName>) -> Result<Vec<AppName>, AllocError>
    ensures names { IfOk result (λ listed. listed.items ≡ names.keys) }
    ensures in_order { IfOk result (λ listed. AreNamesInOrder listed.items) }
{
    let listed = names.into_iter().collect(alloc)?;
    Ok(listed)
}

fn keeps_any(slot: &Option<Holding>) -> bool
    ensures { result ≡ keeps_any slot.now }
{
    match slot {
        Some(holding) => holding.has_any(),
        None => false,
    }
}
