// What stands at the paths of the real file system.
use mx_base::{Bytes, RelPath};
use std::alloc::{AllocError, Global};
use std::fs::Files;
use std::io::ErrorKind;
use std::path::{Path, PathBuf};
use std::{fs, io};

/// What a path leads to.
#[derive(Clone, Copy)]
pub(crate) enum Kind {
    /// A file, or a link to one.
    File,
    /// A folder, and no link.
    Folder,
    /// Nothing, a link to a folder, or a thing that is neither a file nor a folder.
    Other,
}

pub(crate) fn host_path(
    alloc: Global,
    root: Path<'_>,
    path: &RelPath,
) -> Result<PathBuf, AllocError> {
    root.join(alloc, path.as_str())
}

/// What the system answered, where it is no failure that nothing stands at a path. A link that leads
/// nowhere, or round in a circle, is nothing too.
pub(crate) fn if_there<T>(answer: io::Result<T>) -> io::Result<Option<T>> {
    match answer {
        Ok(value) => Ok(Some(value)),
        Err(e) => match e.kind() {
            ErrorKind::NotFound | ErrorKind::NotADirectory | ErrorKind::FilesystemLoop => Ok(None),
            _ => Err(e),
        },
    }
}

pub(crate) fn kind_at<R: Files>(rt: &R, path: Path<'_>) -> io::Result<Kind> {
    let Some(metadata) = if_there(fs::symlink_metadata(rt, path))? else {
        return Ok(Kind::Other);
    };
    if metadata.is_dir() {
        return Ok(Kind::Folder);
    }
    if metadata.is_file() {
        return Ok(Kind::File);
    }
    if !metadata.is_symlink() {
        return Ok(Kind::Other);
    }
    match if_there(fs::metadata(rt, path))? {
        Some(target) if target.is_file() => Ok(Kind::File),
        _ => Ok(Kind::Other),
    }
}

pub(crate) fn is_link<R: Files>(rt: &R, path: Path<'_>) -> io::Result<bool> {
    match if_there(fs::symlink_metadata(rt, path))? {
        Some(metadata) => Ok(metadata.is_symlink()),
        None => Ok(false),
    }
}

/// The bytes of a file, and none where there is no file.
pub(crate) fn read_file<R: Files + AllocGlobal>(
    rt: &R,
    path: Path<'_>,
) -> io::Result<Option<Bytes>> {
    match if_there(fs::read(rt, path))? {
        Some(bytes) => Ok(Some(Bytes::from_vec(bytes))),
        None => Ok(None),
    }
}

/// Writes a file, with the folders that it needs. The bytes go straight into the file, so that a
/// stop leaves the old file, none, or a prefix of the new bytes, and nothing beside it.
pub(crate) fn write_file<R: Files>(rt: &R, path: Path<'_>, bytes: &[u8]) -> io::Result<()> {
    match fs::write(rt, path, bytes) {
        Err(e) if e.kind() == ErrorKind::NotFound => {}
        answer => return answer,
    }
    if let Some(folder) = path.parent() {
        fs::create_dir_all(rt, folder)?;
    }
    fs::write(rt, path, bytes)
}

/// Removes a folder with all that it holds, if it is there. It follows no link: of a link, also in the
/// folder's own place, the link itself is removed.
pub(crate) fn remove_folder<R: Files + AllocGlobal>(rt: &R, path: Path<'_>) -> io::Result<()> {
    if_there(fs::remove_dir_all(rt, path))?;
    Ok(())
}

/// Removes a file, if it is there, or a link in its place.
pub(crate) fn remove_file<R: Files>(rt: &R, path: Path<'_>) -> io::Result<()> {
    if_there(fs::remove_file(rt, path))?;
    Ok(())
}
