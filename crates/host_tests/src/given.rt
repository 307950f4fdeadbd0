// What the tests are given.

use mx_base::{AppName, RelPath};
use std::alloc::{AllocError, Global};
use std::fs;
use std::os::unix::fs::symlink;
use std::test::Fail;
use tree_store::StoreFault;

// The path of this text, and the root of the empty text.
pub(crate) fn path(alloc: Global, text: &str) -> Result<RelPath, Fail> {
    let root = RelPath::root(alloc);
    if text.is_empty() {
        return Ok(root);
    }
    Ok(RelPath::join(alloc, &root, text.as_bytes())?)
}

pub(crate) fn name(alloc: Global, text: &str) -> Result<AppName, Fail> {
    Ok(AppName::of(alloc, text.as_bytes())?)
}

// What a store or a folder answers that doesn't fail.
pub(crate) fn told<T>(answer: Result<T, StoreFault>) -> Result<T, Fail> {
    match answer {
        Ok(told) => Ok(told),
        Err(_) => Err(Fail::new("a fault")),
    }
}

// What a store or a folder answers that the system lets fail.
pub(crate) fn failed<T: Drop>(answer: Result<T, StoreFault>) -> Result<(), Fail> {
    match answer {
        Err(StoreFault::Failed) => Ok(()),
        _ => Err(Fail::new("no fault")),
    }
}

// What was found is what is wanted.
pub(crate) fn same(found: &str, wanted: &str) -> Result<(), Fail> {
    if found == wanted {
        return Ok(());
    }
    Err(Fail::new("another text"))
}

// The file has this text.
pub(crate) fn reads(rt: HostRuntime, file: &str, wanted: &str) -> Result<(), Fail> {
    same(fs::read_to_string(&rt, file)?.as_str(), wanted)
}

// A name of 256 bytes, which no system takes.
pub(crate) fn long_name(alloc: Global) -> Result<String, AllocError> {
    let mut name = String::new(alloc);
    for _ in 0..256 {
        name.push('a')?;
    }
    Ok(name)
}

// Writes files, each with its own path in it.
pub(crate) fn write_files(rt: HostRuntime, folder: &str, files: &[&str]) -> Result<(), Fail> {
    for file in files {
        let path = format!(in rt.alloc(); "{folder}/{file}")?;
        let (parent, _) = path.as_str().rsplit_once('/').ok_or("no folder")?;
        fs::create_dir_all(&rt, parent)?;
        fs::write(&rt, path.as_str(), *file)?;
    }
    Ok(())
}

// Makes links, each to what stands before it.
pub(crate) fn write_links(rt: HostRuntime, links: &[(&str, &str)]) -> Result<(), Fail> {
    for (to, link) in links {
        symlink(&rt, *to, *link)?;
    }
    Ok(())
}
