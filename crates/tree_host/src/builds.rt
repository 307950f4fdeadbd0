// Where the builds lie in the real file system, and which there are.
ghost use Rattle.std.specs.Prelude.{IfOk};
ghost use Rattle.tree_store.specs.Slot.{AreNamesInOrder};

use crate::files::{Kind, if_there, kind_at};
use crate::walk::has_file;
use mx_base::{AppName, BUILD, NameError};
use std::alloc::{AllocError, Global};
use std::collections::BTreeSet;
use std::fs::{DirEntry, Files};
use std::io::ErrorKind;
use std::path::{Path, PathBuf};
use std::{fs, io};

// The outputs and the marks, in the folder of an environment's builds.
const OUTPUTS: &str = "lib";

const MARKS: &str = "marks";

/// The folder of an environment's builds.
pub(crate) fn builds_of(
    alloc: Global,
    root: Path<'_>,
    env: &AppName,
) -> Result<PathBuf, AllocError> {
    let mut folder = root.join(alloc, BUILD)?;
    folder.push(env.as_str())?;
    Ok(folder)
}

/// The folder of an app's outputs.
pub(crate) fn outputs_path(
    alloc: Global,
    root: Path<'_>,
    env: &AppName,
    app: &AppName,
) -> Result<PathBuf, AllocError> {
    let mut path = builds_of(alloc, root, env)?;
    path.push(OUTPUTS)?;
    path.push(app.as_str())?;
    Ok(path)
}

/// The file of an app's mark.
pub(crate) fn mark_path(
    alloc: Global,
    root: Path<'_>,
    env: &AppName,
    app: &AppName,
) -> Result<PathBuf, AllocError> {
    let mut path = builds_of(alloc, root, env)?;
    path.push(MARKS)?;
    path.push(app.as_str())?;
    Ok(path)
}

/// The environments of which some app has a file or a mark, in order.
pub(crate) fn environments_in<R: Files + AllocGlobal + Clone + Drop>(
    rt: &R,
    alloc: Global,
    root: Path<'_>,
) -> io::Result<Vec<AppName>>
    ensures { IfOk result (λ envs. AreNamesInOrder envs.items) }
{
    let mut envs = BTreeSet::new(alloc);
    let folder = root.join(alloc, BUILD)?;
    if let Some(entries) = if_there(fs::read_dir(rt, folder.as_path()))? {
        for entry in entries {
            if let Some(env) = built_environment(rt, alloc, entry)? {
                envs.insert(env)?;
            }
        }
    }
    in_order(alloc, envs)
}

/// The apps that have a file or a mark in the folder of an environment's builds, in order.
pub(crate) fn apps_in<R: Files + AllocGlobal + Clone + Drop>(
    rt: &R,
    alloc: Global,
    builds: Path<'_>,
) -> io::Result<Vec<AppName>>
    ensures { IfOk result (λ apps. AreNamesInOrder apps.items) }
{
    let apps = built_in(rt, alloc, builds)?;
    in_order(alloc, apps)
}

// The environment of an entry of the folder of builds, where it is an environment's folder with a build.
fn built_environment<R: Files + AllocGlobal + Clone + Drop>(
    rt: &R,
    alloc: Global,
    entry: io::Result<DirEntry<R, Global>>,
) -> io::Result<Option<AppName>> {
    let Some((env, entry)) = named(alloc, entry)? else {
        return Ok(None);
    };
    match kind_at(rt, entry.path())? {
        Kind::Folder if !built_in(rt, alloc, entry.path())?.is_empty() => Ok(Some(env)),
        _ => Ok(None),
    }
}

fn built_in<R: Files + AllocGlobal + Clone + Drop>(
    rt: &R,
    alloc: Global,
    builds: Path<'_>,
) -> io::Result<BTreeSet<AppName>> {
    let mut apps = BTreeSet::new(alloc);
    let outputs = builds.join(alloc, OUTPUTS)?;
    add_apps(rt, alloc, &mut apps, outputs.as_path(), Trace::Outputs)?;
    let marks = builds.join(alloc, MARKS)?;
    add_apps(rt, alloc, &mut apps, marks.as_path(), Trace::Mark)?;
    Ok(apps)
}

/// What a build leaves behind.
#[derive(Clone, Copy)]
enum Trace {
    /// A folder with a file.
    Outputs,
    /// A file.
    Mark,
}

impl Trace {
    fn is_at<R: Files + AllocGlobal + Clone + Drop>(
        self,
        rt: &R,
        path: Path<'_>,
    ) -> io::Result<bool> {
        match (self, kind_at(rt, path)?) {
            (Trace::Outputs, Kind::Folder) => has_file(rt, path),
            (Trace::Mark, Kind::File) => Ok(true),
            _ => Ok(false),
        }
    }
}

// Adds the apps of which a folder has such a trace.
fn add_apps<R: Files + AllocGlobal + Clone + Drop>(
    rt: &R,
    alloc: Global,
    apps: &mut BTreeSet<AppName>,
    folder: Path<'_>,
    trace: Trace,
) -> io::Result<()> {
    let Some(entries) = if_there(fs::read_dir(rt, folder))? else {
        return Ok(());
    };
    for entry in entries {
        if let Some(app) = traced_app(rt, alloc, entry, trace)? {
            apps.insert(app)?;
        }
    }
    Ok(())
}

fn traced_app<R: Files + AllocGlobal + Clone + Drop>(
    rt: &R,
    alloc: Global,
    entry: io::Result<DirEntry<R, Global>>,
    trace: Trace,
) -> io::Result<Option<AppName>> {
    let Some((app, entry)) = named(alloc, entry)? else {
        return Ok(None);
    };
    if trace.is_at(rt, entry.path())? {
        Ok(Some(app))
    } else {
        Ok(None)
    }
}

// An entry with its name, where that is a name of an app or an environment.
fn named<R: Files + AllocGlobal + Clone + Drop>(
    alloc: Global,
    entry: io::Result<DirEntry<R, Global>>,
) -> io::Result<Option<(AppName, DirEntry<R, Global>)>> {
    let entry = match entry {
        Ok(entry) => entry,
        // The name isn't UTF-8, and so none of these.
        Err(e) if e.kind() == ErrorKind::InvalidFilename => return Ok(None),
        Err(e) => return Err(e),
    };
    match AppName::of(alloc, entry.file_name().as_bytes()) {
        Ok(name) => Ok(Some((name, entry))),
        Err(NameError::OutOfMemory) => Err(ErrorKind::OutOfMemory.into()),
        Err(_) => Ok(None),
    }
}

fn in_order(alloc: Global, names: BTreeSet<AppName>) -> io::Result<Vec<AppName>>
    ensures { IfOk result (λ listed. AreNamesInOrder listed.items) }
{
    let listed = names.into_iter().collect(alloc)?;
    Ok(listed)
}
