// Marks of real files, and which build a folder is of.

use crate::folder_tests::folder_of;
use crate::given::{failed, name, reads, same, told, write_files};
use std::alloc::Global;
use std::test::Fail;
use tree_host::{HostFolder, HostStore};
use tree_store::{Folder, Store};

// The mark of outputs that no files and no needs gave, of 59 bytes.
const MARK: &str = "mark 1\noptions 1\nx\nsources 0\nneeds 0\noutputs 0\ntext 0\n\nend\n";

fn has_mark(
    folder: &mut HostFolder<HostRuntime>,
    alloc: Global,
    wanted: &[u8],
) -> Result<(), Fail> {
    let mark = told(folder.read_mark(alloc))?.ok_or("no mark")?;
    if mark.as_slice() == wanted {
        return Ok(());
    }
    Err(Fail::new("another mark"))
}

fn has_no_mark(folder: &mut HostFolder<HostRuntime>, alloc: Global) -> Result<(), Fail> {
    match told(folder.read_mark(alloc))? {
        Some(_) => Err(Fail::new("a mark")),
        None => Ok(()),
    }
}

#[test]
fn a_folder_gives_back_its_mark(rt: HostRuntime) -> Result<(), Fail> {
    let alloc = rt.alloc();
    let mut folder = folder_of(rt, alloc, "marked")?;
    told(folder.unmark(alloc))?;
    has_no_mark(&mut folder, alloc)?;
    told(folder.mark(alloc, b"longer"))?;
    told(folder.mark(alloc, b"2"))?;
    has_mark(&mut folder, alloc, b"2")?;
    reads(rt, "marked/_build/dev/marks/a", "2")?;
    told(folder.unmark(alloc))?;
    has_no_mark(&mut folder, alloc)
}

// The second folder is of a store of its own, as that of a later run.
fn comes_back_later(rt: HostRuntime, alloc: Global, bytes: &[u8]) -> Result<(), Fail> {
    let mut folder = folder_of(rt, alloc, "cut")?;
    told(folder.mark(alloc, bytes))?;
    let mut later = folder_of(rt, alloc, "cut")?;
    has_mark(&mut later, alloc, bytes)
}

#[test]
fn a_cut_mark_is_read_back(rt: HostRuntime) -> Result<(), Fail> {
    for count in 0..60 {
        let bytes = MARK.as_bytes().get(..count).ok_or("a shorter mark")?;
        comes_back_later(rt, rt.alloc(), bytes)?;
    }
    Ok(())
}

#[test]
fn a_mark_leaves_the_files_as_they_are(rt: HostRuntime) -> Result<(), Fail> {
    let alloc = rt.alloc();
    write_files(rt, "beside/_build/dev/lib/a", &["x"])?;
    let mut folder = folder_of(rt, alloc, "beside")?;
    told(folder.mark(alloc, MARK.as_bytes()))?;
    if told(folder.files(alloc))?.as_slice().len() != 1 {
        return Err(Fail::new("other files"));
    }
    told(folder.unmark(alloc))?;
    reads(rt, "beside/_build/dev/lib/a/x", "x")
}

// A folder in its place is no mark that could be read, taken away or written.
#[test]
fn a_folder_in_the_place_of_a_mark_is_a_fault(rt: HostRuntime) -> Result<(), Fail> {
    let alloc = rt.alloc();
    write_files(rt, "folders/_build/dev/marks/a", &["x"])?;
    let mut folder = folder_of(rt, alloc, "folders")?;
    failed(folder.read_mark(alloc))?;
    failed(folder.unmark(alloc))?;
    failed(folder.mark(alloc, MARK.as_bytes()))?;
    let mut store = HostStore::new(rt, alloc, "folders")?;
    if !told(store.apps(alloc, &name(alloc, "dev")?))?.is_empty() {
        return Err(Fail::new("an app"));
    }
    Ok(())
}

#[test]
fn a_folder_tells_its_build(rt: HostRuntime) -> Result<(), Fail> {
    let alloc = rt.alloc();
    let mut folder = folder_of(rt, alloc, "named")?;
    told(folder.mark(alloc, MARK.as_bytes()))?;
    same(folder.env().as_str(), "dev")?;
    same(folder.app().as_str(), "a")
}

// A listing would leave such a file out unseen.
#[test]
fn a_name_that_no_path_has_is_a_fault(rt: HostRuntime) -> Result<(), Fail> {
    let alloc = rt.alloc();
    write_files(rt, "odd/_build/dev/lib/a", &["back\\slash"])?;
    failed(folder_of(rt, alloc, "odd")?.files(alloc))
}
