// A folder of a build in the real file system.
ghost use Rattle.std.specs.Prelude.{◌≡◌, IfOk};
ghost use Rattle.mx_base.specs.Order.{paths_of};

use crate::counted::counted;
use crate::files::{Kind, host_path, kind_at, read_file, remove_file, remove_folder, write_file};
use crate::walk::{Scope, files_below};
use mx_base::{AppName, Bytes, Count, File, Files, RelPath};
use std::alloc::Global;
use std::path::{Path, PathBuf};
use std::{fs, io};
use tree_store::{BuildKey, Folder, StoreFault};

/// The folder of a build, which a `HostStore` hands out, with its mark beside the outputs. It tells nothing of
/// what it holds. A link to a folder is followed neither in listing nor in clearing, also where it stands in this
/// folder's own place.
#[derive(Drop)]
pub struct HostFolder<R> {
    pub(crate) rt: R,
    pub(crate) key: BuildKey,
    pub(crate) dir: PathBuf,
    pub(crate) mark: PathBuf,
    pub(crate) faults: Count,
}

impl<R: fs::Files + AllocGlobal + Clone + Drop> Folder for HostFolder<R> {
    ghost use Rattle.std.specs.Prelude.{None};

    ghost known = { λ folder. record {
      key = folder.key;
      held = None;
      moments = None;
      faults = folder.faults;
    } };

    ghost tells = { ⊥ };

    ghost told = { λ never _. absurd never };

    fn env(&self) -> &AppName {
        &self.key.env
    }

    fn app(&self) -> &AppName {
        &self.key.app
    }

    fn unmark(&mut self, _alloc: Global) -> Result<(), StoreFault> {
        let removed = remove_file(&self.rt, self.mark.as_path());
        counted(&mut self.faults, removed)
    }

    /// Its subfolders go too, and whatever else isn't a file.
    fn clear(&mut self, _alloc: Global) -> Result<(), StoreFault> {
        let removed = remove_folder(&self.rt, self.dir.as_path());
        counted(&mut self.faults, removed)
    }

    /// It makes the folders that are missing. Where the path is that of a folder it is a fault.
    fn put(&mut self, alloc: Global, path: &RelPath, bytes: &[u8]) -> Result<(), StoreFault> {
        let path = host_path(alloc, self.dir.as_path(), path)?;
        let written = write_file(&self.rt, path.as_path(), bytes);
        counted(&mut self.faults, written)
    }

    /// A folder that is absent has no files.
    fn files(&mut self, alloc: Global) -> Result<Files, StoreFault> {
        let files = read_files(&self.rt, alloc, self.dir.as_path());
        counted(&mut self.faults, files)
    }

    /// It makes the folders that are missing.
    fn mark(&mut self, _alloc: Global, bytes: &[u8]) -> Result<(), StoreFault> {
        let written = write_file(&self.rt, self.mark.as_path(), bytes);
        counted(&mut self.faults, written)
    }

    fn read_mark(&mut self, _alloc: Global) -> Result<Option<Bytes>, StoreFault> {
        let bytes = read_file(&self.rt, self.mark.as_path());
        counted(&mut self.faults, bytes)
    }
}

fn read_files<R: fs::Files + AllocGlobal + Clone + Drop>(
    rt: &R,
    alloc: Global,
    dir: Path<'_>,
) -> io::Result<Files> {
    match kind_at(rt, dir)? {
        Kind::Folder => {
            let paths = files_below(rt, dir, &RelPath::root(alloc), Scope::Everything)?;
            let files = read_each(rt, alloc, dir, paths)?;
            Ok(Files::from_vec(files))
        }
        _ => Ok(Files::new(alloc)),
    }
}

// A file that is gone since it was listed is a failure, since the build is ours alone.
fn read_each<R: fs::Files + AllocGlobal>(
    rt: &R,
    alloc: Global,
    dir: Path<'_>,
    paths: Vec<RelPath>,
) -> io::Result<Vec<File>>
    ensures { IfOk result (λ files. paths_of files.items ≡ paths.items) }
{
    let mut files = Vec::new(alloc);
    for path in paths {
        let bytes = fs::read(rt, host_path(alloc, dir, &path)?)?;
        files.push(File {
            path,
            bytes: Bytes::from_vec(bytes),
        })?;
    }
    Ok(files)
}
