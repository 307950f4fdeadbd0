// What a folder of real files holds.
ghost use Rattle.std.specs.Prelude.{◌≡◌};
ghost use Rattle.tree_store.specs.Slot.Slot.{Out};

use crate::given::{failed, long_name, name, path, reads, same, told, write_files, write_links};
use mx_base::{AppName, RelPath};
use std::alloc::Global;
use std::str;
use std::test::Fail;
use tree_host::{HostFolder, HostStore};
use tree_store::{Folder, Store, StoreFault};

pub(crate) fn folder_of(
    rt: HostRuntime,
    alloc: Global,
    root: &str,
) -> Result<HostFolder<HostRuntime>, Fail> {
    let mut store = HostStore::new(rt, alloc, root)?;
    let (env, app) = (name(alloc, "dev")?, name(alloc, "a")?);
    told(store.folder(alloc, &env, &app))
}

fn put(
    folder: &mut HostFolder<HostRuntime>,
    alloc: Global,
    file: &str,
    bytes: &str,
) -> Result<Result<(), StoreFault>, Fail> {
    let file = path(alloc, file)?;
    Ok(folder.put(alloc, &file, bytes.as_bytes()))
}

fn puts(
    folder: &mut HostFolder<HostRuntime>,
    alloc: Global,
    file: &str,
    bytes: &str,
) -> Result<(), Fail> {
    let answer = put(folder, alloc, file, bytes)?;
    told(answer)
}

// The folder has these files, as `PATH=BYTES` with a blank after each.
fn holds(folder: &mut HostFolder<HostRuntime>, alloc: Global, wanted: &str) -> Result<(), Fail> {
    let mut text = String::new(alloc);
    for file in told(folder.files(alloc))?.as_slice() {
        text.push_str(file.path.as_str())?;
        text.push('=')?;
        text.push_str(str::from_utf8(file.bytes.as_slice())?)?;
        text.push(' ')?;
    }
    same(text.as_str(), wanted)
}

#[test]
fn a_folder_gives_back_what_was_written(rt: HostRuntime) -> Result<(), Fail> {
    let alloc = rt.alloc();
    let mut folder = folder_of(rt, alloc, "written")?;
    holds(&mut folder, alloc, "")?;
    for (file, bytes) in &[("a/b", "longer"), ("a-b", "1"), ("a/b", "2")] {
        puts(&mut folder, alloc, *file, *bytes)?;
    }
    holds(&mut folder, alloc, "a-b=1 a/b=2 ")?;
    failed(put(&mut folder, alloc, "a", "3")?)?;
    holds(&mut folder, alloc, "a-b=1 a/b=2 ")
}

#[test]
fn a_folder_is_cleared_but_for_what_links_lead_to(rt: HostRuntime) -> Result<(), Fail> {
    let alloc = rt.alloc();
    write_files(rt, "kept", &["x"])?;
    let mut folder = folder_of(rt, alloc, "cleared")?;
    told(folder.clear(alloc))?;
    write_files(rt, "cleared/_build/dev/lib/a", &["x", "y/z"])?;
    write_links(
        rt,
        &[("../../../../../kept", "cleared/_build/dev/lib/a/link")],
    )?;
    holds(&mut folder, alloc, "x=x y/z=y/z ")?;
    told(folder.clear(alloc))?;
    holds(&mut folder, alloc, "")?;
    reads(rt, "kept/x", "x")?;
    puts(&mut folder, alloc, "x", "again")?;
    holds(&mut folder, alloc, "x=again ")
}

#[tactic(auto, using(tree_store::proofs::MomentLemmas::writes_key))]
fn put_anew<F: Folder>(alloc: Global, folder: &mut F, file: &RelPath) -> Result<(), StoreFault>
    ensures { (F.known folder.new).key ≡ (F.known folder.old).key }
{
    folder.unmark(alloc)?;
    folder.put(alloc, file, b"")
}

// What a folder answers that is then given back.
fn put_once<S: Store>(
    alloc: Global,
    store: &mut S,
    env: &AppName,
    app: &AppName,
    file: &RelPath,
) -> Result<(), StoreFault>
    requires { (S.known store.old).slot (record { env = env.now; app = app.now }) ≡ Out → ⊥ }
{
    let mut folder = store.folder(alloc, env, app)?;
    let put = put_anew(alloc, &mut folder, file);
    store.give_back(folder);
    put
}

#[test]
fn a_folder_comes_back_with_its_faults(rt: HostRuntime) -> Result<(), Fail> {
    let alloc = rt.alloc();
    write_files(rt, "returned/_build/dev/lib", &["a"])?;
    let (env, app) = (name(alloc, "dev")?, name(alloc, "a")?);
    let file = path(alloc, "x")?;
    let mut store = HostStore::new(rt, alloc, "returned")?;
    failed(put_once(alloc, &mut store, &env, &app, &file))
}

fn folder_that_cannot_be(rt: HostRuntime, alloc: Global) -> Result<HostFolder<HostRuntime>, Fail> {
    let root = long_name(alloc)?;
    folder_of(rt, alloc, root.as_str())
}

#[test]
fn files_fail_in_a_root_that_cannot_be(rt: HostRuntime) -> Result<(), Fail> {
    let alloc = rt.alloc();
    let mut folder = folder_that_cannot_be(rt, alloc)?;
    failed(folder.files(alloc))?;
    failed(folder.clear(alloc))?;
    failed(put(&mut folder, alloc, "x", "")?)
}

#[test]
fn marks_fail_in_a_root_that_cannot_be(rt: HostRuntime) -> Result<(), Fail> {
    let alloc = rt.alloc();
    let mut folder = folder_that_cannot_be(rt, alloc)?;
    failed(folder.unmark(alloc))?;
    failed(folder.read_mark(alloc))?;
    failed(folder.mark(alloc, b""))
}
