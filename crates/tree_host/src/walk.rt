// The files below a folder of the real file system.
ghost use Rattle.std.specs.Prelude.{◌≡◌, All, IfOk, IfSome};
ghost use Rattle.std.specs.List.{list_any};
ghost use Rattle.mx_base.specs.Order.{ArePathsInOrder};
ghost use Rattle.mx_base.specs.Path.{is_segment, is_outside};
ghost use Rattle.tree_host.specs.Walk.{IsIn, LeadsBelow, shows};

use crate::files::{Kind, host_path, if_there, kind_at};
use mx_base::RelPath;
use std::alloc::{AllocError, Global};
use std::collections::BTreeSet;
use std::fs::{DirEntry, Files};
use std::io::ErrorKind;
use std::marker::Model;
use std::path::Path;
use std::{fs, io};

/// What a walk leaves out.
#[derive(Clone, Copy)]
pub(crate) enum Scope {
    /// Nothing.
    Everything,
    /// The folder of builds at the root.
    Sources,
}

impl Scope {
    fn shows(self, path: &RelPath) -> bool
        ensures { result ≡ shows self path.now }
    {
        match self {
            Scope::Everything => true,
            Scope::Sources => !path.is_in_build(),
        }
    }
}

/// A walk through a folder: what it has found, and where it has still to go. Contracts see the folder
/// and what is left out.
#[derive(Drop)]
struct Walk {
    dir: RelPath,
    scope: Scope,
    files: BTreeSet<RelPath>,
    folders: Vec<RelPath>,
}

impl Model for Walk {
    ghost use Rattle.std.specs.Prelude.{All};
    ghost use Rattle.tree_host.specs.Walk.{Area, IsIn, LeadsBelow};

    ghost Value = { Area };

    ghost view = { λ walk. record { dir = walk.dir; scope = walk.scope } };

    ghost invariant = { λ walk. All (IsIn (record { dir = walk.dir; scope = walk.scope })) walk.files.keys × All (LeadsBelow (record { dir = walk.dir; scope = walk.scope })) walk.folders.items };
}

impl Walk {
    fn new(alloc: Global, dir: &RelPath, scope: Scope) -> Result<Walk, AllocError>
        ensures { IfOk result (λ walk. walk ≡ record { dir = dir.now; scope = scope }) }
    {
        let mut folders = Vec::new(alloc);
        folders.push(dir.clone()?)?;
        Ok(Walk {
            dir: dir.clone()?,
            scope,
            files: BTreeSet::new(alloc),
            folders,
        })
    }

    fn next_folder(&mut self) -> Option<RelPath>
        ensures below { IfSome result (LeadsBelow self.old) }
        ensures same { self.new ≡ self.old }
    {
        self.folders.pop()
    }

    fn note(&mut self, path: RelPath, kind: Kind) -> Result<(), AllocError>
        requires { IsIn self.old path }
        ensures { self.new ≡ self.old }
    {
        match kind {
            Kind::File => {
                self.files.insert(path)?;
            }
            Kind::Folder => self.folders.push(path)?,
            Kind::Other => {}
        }
        Ok(())
    }

    fn meet<R: Files>(
        &mut self,
        rt: &R,
        alloc: Global,
        folder: &RelPath,
        entry: &DirEntry<R, Global>,
    ) -> io::Result<()>
        requires { LeadsBelow self.old folder.now }
        ensures { self.new ≡ self.old }
    {
        let name = entry.file_name();
        if !is_segment(name) {
            return Err(ErrorKind::InvalidFilename.into());
        }
        let path = folder.child(alloc, name)?;
        if self.scope.shows(&path) {
            let kind = kind_at(rt, entry.path())?;
            self.note(path, kind)?;
        }
        Ok(())
    }

    fn read_folder<R: Files + AllocGlobal + Clone + Drop>(
        &mut self,
        rt: &R,
        root: Path<'_>,
        folder: &RelPath,
    ) -> io::Result<()>
        requires { LeadsBelow self.old folder.now }
        ensures { self.new ≡ self.old }
    {
        let path = host_path(rt.alloc(), root, folder)?;
        let Some(entries) = if_there(fs::read_dir(rt, &path))? else {
            return Ok(());
        };
        for entry in entries {
            self.meet(rt, rt.alloc(), folder, &entry?)?;
        }
        Ok(())
    }

    fn has_found(&self) -> bool {
        !self.files.is_empty()
    }

    fn into_files(self, alloc: Global) -> Result<Vec<RelPath>, AllocError>
        ensures in_order { IfOk result (λ paths. ArePathsInOrder paths.items) }
        ensures found { IfOk result (λ paths. All (IsIn self) paths.items) }
    {
        let Walk {
            dir: _,
            scope: _,
            files,
            folders: _,
        } = self;
        let paths = files.into_iter().collect(alloc)?;
        Ok(paths)
    }
}

/// The paths of the files below a folder, in order.
pub(crate) fn files_below<R: Files + AllocGlobal + Clone + Drop>(
    rt: &R,
    root: Path<'_>,
    dir: &RelPath,
    scope: Scope,
) -> io::Result<Vec<RelPath>>
    ensures in_order { IfOk result (λ paths. ArePathsInOrder paths.items) }
    ensures found { IfOk result (λ paths. All (IsIn (record { dir = dir.now; scope = scope })) paths.items) }
{
    let mut walk = Walk::new(rt.alloc(), dir, scope)?;
    for _ in 0..u64::MAX {
        match walk.next_folder() {
            Some(folder) => walk.read_folder(rt, root, &folder)?,
            None => return Ok(walk.into_files(rt.alloc())?),
        }
    }
    Err(ErrorKind::TimedOut.into())
}

/// Whether there is a file below a folder.
pub(crate) fn has_file<R: Files + AllocGlobal + Clone + Drop>(
    rt: &R,
    root: Path<'_>,
) -> io::Result<bool> {
    let dir = RelPath::root(rt.alloc());
    let mut walk = Walk::new(rt.alloc(), &dir, Scope::Everything)?;
    for _ in 0..u64::MAX {
        match walk.next_folder() {
            Some(folder) if !walk.has_found() => walk.read_folder(rt, root, &folder)?,
            _ => return Ok(walk.has_found()),
        }
    }
    Err(ErrorKind::TimedOut.into())
}

fn is_segment(name: &str) -> bool
    ensures { result ≡ is_segment name.now }
{
    !(name.is_empty() || name == ".") && name != ".." && !has_outside_byte(name.as_bytes())
}

fn has_outside_byte(name: &[u8]) -> bool
    ensures { result ≡ list_any is_outside name.now }
{
    name.iter().any(|byte| *byte == b'/' || *byte < 32 || *byte == 127 || *byte == b'\\')
}
