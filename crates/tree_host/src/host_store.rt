// A project's folder in the real file system.
ghost use Rattle.std.specs.Prelude.{◌≡◌, IfOk, All, IsTrue, IsFalse};
ghost use Rattle.mx_base.specs.Order.{ArePathsInOrder};
ghost use Rattle.mx_base.specs.Path.{is_below};
ghost use Rattle.tree_store.specs.declared.key.BuildKey.{BuildKey};
ghost use Rattle.mx_base.specs.Layout.{is_in_build};
ghost use Rattle.tree_store.specs.Slot.Slot.{Here};

use crate::builds::{apps_in, builds_of, environments_in, mark_path, outputs_path};
use crate::counted::counted;
use crate::files::{host_path, is_link, read_file, remove_file, write_file};
use crate::host_folder::HostFolder;
use crate::walk::{Scope, files_below};
use mx_base::{AppName, Bytes, Count, RelPath};
use std::alloc::{AllocError, Global};
use std::collections::BTreeSet;
use std::fs::Files;
use std::io;
use std::path::{Path, PathBuf};
use tree_store::{BuildKey, Store, StoreFault};

/// A project's folder in the real file system, with the outputs of an app below `_build/ENV/lib/APP` and its mark
/// in `_build/ENV/marks/APP`. It tells no contents, and keeps which folders of builds are out.
///
/// `get` reads what the system reads at a path. In a listing no link to a folder is followed, neither
/// one that it meets nor one on the way to the listed folder; a link to a file is that file, and
/// what is neither a file nor a folder is passed over. A name that isn't UTF-8 or no part of a path,
/// as one with a control byte or a backslash, is a fault, since the file would be left out unseen.
#[derive(Drop)]
pub struct HostStore<R> {
    rt: R,
    root: PathBuf,
    out: BTreeSet<BuildKey>,
    faults: Count,
    returned: Count,
}

impl<R: Files + AllocGlobal + Clone + Drop + Send> HostStore<R> {
    /// The project in a folder, by the folder's path. The empty path is the current folder. The system
    /// isn't asked whether the folder is there.
    pub fn new(rt: R, alloc: Global, root: &str) -> Result<HostStore<R>, AllocError>
        ensures here { IfOk result (λ store. (key : BuildKey) → (⟦<HostStore<R> as Store>⟧.known store).slot key
            ≡ Here None) }
        ensures faults { IfOk result (λ store. (⟦<HostStore<R> as Store>⟧.known store).faults ≡ 0) }
        ensures folder_faults { IfOk result (λ store. (⟦<HostStore<R> as Store>⟧.known store).returned ≡ 0) }
    {
        let root = if root.is_empty() { "." } else { root };
        Ok(HostStore {
            rt,
            root: PathBuf::from_str(alloc, root)?,
            out: BTreeSet::new(alloc),
            faults: Count::new(),
            returned: Count::new(),
        })
    }
}

impl<R: Files + AllocGlobal + Clone + Drop + Send> Store for HostStore<R> {
    type F = HostFolder<R>;

    ghost use Rattle.std.specs.Prelude.{None};
    ghost use Rattle.std.specs.BTreeSet.{contains};
    ghost use Rattle.tree_store.specs.Key.{key_cmp};
    ghost use Rattle.tree_host.specs.HostStore.{slot_of};

    ghost known = { λ store. record {
      sources = None;
      slot = λ key. slot_of (contains key_cmp store.out key);
      faults = store.faults;
      returned = store.returned;
    } };

    fn get(&mut self, alloc: Global, path: &RelPath) -> Result<Option<Bytes>, StoreFault> {
        let path = host_path(alloc, self.root.as_path(), path)?;
        let bytes = read_file(&self.rt, path.as_path());
        counted(&mut self.faults, bytes)
    }

    /// It makes the folders that are missing. Where the path is that of a folder it is a fault.
    fn put(&mut self, alloc: Global, path: &RelPath, bytes: &[u8]) -> Result<(), StoreFault> {
        let path = host_path(alloc, self.root.as_path(), path)?;
        let written = write_file(&self.rt, path.as_path(), bytes);
        counted(&mut self.faults, written)
    }

    fn remove(&mut self, alloc: Global, path: &RelPath) -> Result<(), StoreFault> {
        let path = host_path(alloc, self.root.as_path(), path)?;
        let removed = remove_file(&self.rt, path.as_path());
        counted(&mut self.faults, removed)
    }

    /// A folder that is absent has no files.
    fn list(&mut self, alloc: Global, dir: &RelPath) -> Result<Vec<RelPath>, StoreFault> {
        let paths = listed(&self.rt, alloc, self.root.as_path(), dir);
        counted(&mut self.faults, paths)
    }

    /// A thing in the folder of builds whose name is no environment's, and a link, is passed over.
    fn environments(&mut self, alloc: Global) -> Result<Vec<AppName>, StoreFault> {
        let envs = environments_in(&self.rt, alloc, self.root.as_path());
        counted(&mut self.faults, envs)
    }

    /// A thing in a folder of builds or of marks whose name is no app's is passed over.
    fn apps(&mut self, alloc: Global, env: &AppName) -> Result<Vec<AppName>, StoreFault> {
        let folder = builds_of(alloc, self.root.as_path(), env)?;
        let apps = apps_in(&self.rt, alloc, folder.as_path());
        counted(&mut self.faults, apps)
    }

    /// The system isn't asked for anything.
    fn folder(
        &mut self,
        alloc: Global,
        env: &AppName,
        app: &AppName,
    ) -> Result<HostFolder<R>, StoreFault> {
        let rt = self.rt.clone()?;
        let dir = outputs_path(alloc, self.root.as_path(), env, app)?;
        let mark = mark_path(alloc, self.root.as_path(), env, app)?;
        let key = BuildKey::of(env, app)?;
        self.out.insert(key.clone()?)?;
        Ok(HostFolder {
            rt,
            key,
            dir,
            mark,
            faults: Count::new(),
        })
    }

    fn give_back(&mut self, folder: HostFolder<R>) {
        let HostFolder {
            rt: _,
            key,
            dir: _,
            mark: _,
            faults,
        } = folder;
        self.returned.take_over(&faults);
        self.out.remove(&key);
    }
}

fn listed<R: Files + AllocGlobal + Clone + Drop>(
    rt: &R,
    alloc: Global,
    root: Path<'_>,
    dir: &RelPath,
) -> io::Result<Vec<RelPath>>
    ensures in_order { IfOk result (λ paths. ArePathsInOrder paths.items) }
    ensures below { IfOk result (λ paths. All (λ path. IsTrue (is_below dir.now path)) paths.items) }
    ensures outside { IfOk result (λ paths. All (λ path. IsFalse (is_in_build path)) paths.items) }
{
    if leads_through_link(rt, alloc, root, dir)? {
        return Ok(Vec::new(alloc));
    }
    files_below(rt, root, dir, Scope::Sources)
}

// Whether a link stands on the way from the root to a folder.
fn leads_through_link<R: Files>(
    rt: &R,
    alloc: Global,
    root: Path<'_>,
    dir: &RelPath,
) -> io::Result<bool> {
    let mut path = PathBuf::from_str(alloc, root.as_str())?;
    for segment in dir.segments(alloc)? {
        path.push(segment)?;
        if is_link(rt, path.as_path())? {
            return Ok(true);
        }
    }
    Ok(false)
}
