// Names, paths and versions of a case.

use crate::fields::{Fault, word};
use mx_base::{AppName, NameError, PathError, RelPath};
use semver::Version;
use std::alloc::Global;

/// The folder of this path, where the empty text is the root.
pub fn folder(alloc: Global, text: &[u8]) -> Result<RelPath, Fault> {
    let root = RelPath::root(alloc);
    if text.is_empty() {
        return Ok(root);
    }
    match RelPath::join(alloc, &root, text) {
        Ok(path) => Ok(path),
        Err(PathError::OutOfMemory) => Err(Fault::Memory),
        Err(_) => Err(Fault::Form),
    }
}

pub fn app_name(alloc: Global, text: &[u8]) -> Result<AppName, Fault> {
    match AppName::of(alloc, text) {
        Ok(name) => Ok(name),
        Err(NameError::OutOfMemory) => Err(Fault::Memory),
        Err(_) => Err(Fault::Form),
    }
}

pub fn version(alloc: Global, text: &[u8]) -> Result<Version, Fault> {
    match Version::parse(alloc, word(text)?) {
        Ok(version) => Ok(version),
        Err(_) => Err(Fault::Form),
    }
}
