// What a store over a real folder answers.

use crate::given::{failed, long_name, name, path, same, told, write_files, write_links};
use mx_base::Bytes;
use std::alloc::Global;
use std::os::unix::fs::PermissionsExt;
use std::test::Fail;
use std::{fs, str};
use tree_host::HostStore;
use tree_store::{Store, StoreFault};

// Adds the listed paths, with a blank after each, and a semicolon.
fn push_listed(
    store: &mut HostStore<HostRuntime>,
    alloc: Global,
    text: &mut String,
    dir: &str,
) -> Result<(), Fail> {
    let dir = path(alloc, dir)?;
    if dir.is_in_build() {
        return Err(Fail::new("a folder of builds"));
    }
    for path in &told(store.list(alloc, &dir))? {
        text.push_str(path.as_str())?;
        text.push(' ')?;
    }
    text.push(';')?;
    Ok(())
}

// What `push_listed` adds for each folder.
fn listed(rt: HostRuntime, root: &str, dirs: &[&str]) -> Result<String, Fail> {
    let alloc = rt.alloc();
    let mut text = String::new(alloc);
    let mut store = HostStore::new(rt, alloc, root)?;
    for dir in dirs {
        push_listed(&mut store, alloc, &mut text, *dir)?;
    }
    Ok(text)
}

#[test]
fn a_store_lists_files_in_byte_order(rt: HostRuntime) -> Result<(), Fail> {
    let files = ["a/b", "a-b", "a/c/d", "project.exs", "_build/x", "z/_build"];
    write_files(rt, "listed", &files)?;
    let text = listed(rt, "listed", &["", "a", "a/c", "a/b", "missing"])?;
    same(
        text.as_str(),
        "a-b a/b a/c/d project.exs z/_build ;a/b a/c/d ;a/c/d ;;;",
    )?;
    same(listed(rt, "missing", &[""])?.as_str(), ";")
}

#[test]
fn a_store_lists_what_links_to_files_lead_to(rt: HostRuntime) -> Result<(), Fail> {
    write_files(rt, "linked", &["a/b", "a/c/d"])?;
    write_links(
        rt,
        &[
            ("a/b", "linked/file_link"),
            ("a", "linked/folder_link"),
            ("nowhere", "linked/empty_link"),
            ("circle", "linked/circle"),
        ],
    )?;
    let text = listed(rt, "linked", &["", "folder_link", "folder_link/c"])?;
    same(text.as_str(), "a/b a/c/d file_link ;;;")
}

fn answer(
    store: &mut HostStore<HostRuntime>,
    alloc: Global,
    file: &str,
) -> Result<Result<Option<Bytes>, StoreFault>, Fail> {
    let file = path(alloc, file)?;
    if file.is_in_build() {
        return Err(Fail::new("a folder of builds"));
    }
    Ok(store.get(alloc, &file))
}

// Adds the bytes of a file, or a hyphen where there is none, and a semicolon.
fn push_read(
    store: &mut HostStore<HostRuntime>,
    alloc: Global,
    text: &mut String,
    file: &str,
) -> Result<(), Fail> {
    match told(answer(store, alloc, file)?)? {
        Some(bytes) => text.push_str(str::from_utf8(bytes.as_slice())?)?,
        None => text.push('-')?,
    }
    text.push(';')?;
    Ok(())
}

// What `push_read` adds for each file.
fn read(rt: HostRuntime, root: &str, files: &[&str]) -> Result<String, Fail> {
    let alloc = rt.alloc();
    let mut text = String::new(alloc);
    let mut store = HostStore::new(rt, alloc, root)?;
    for file in files {
        push_read(&mut store, alloc, &mut text, *file)?;
    }
    Ok(text)
}

fn cannot_read(rt: HostRuntime, root: &str, file: &str) -> Result<(), Fail> {
    let alloc = rt.alloc();
    let mut store = HostStore::new(rt, alloc, root)?;
    failed(answer(&mut store, alloc, file)?)
}

#[test]
fn a_store_reads_files(rt: HostRuntime) -> Result<(), Fail> {
    write_files(rt, "read", &["a/b"])?;
    write_links(rt, &[("a/b", "read/file_link"), ("circle", "read/circle")])?;
    let text = read(
        rt,
        "read",
        &["a/b", "file_link", "circle", "missing", "a/b/c"],
    )?;
    same(text.as_str(), "a/b;a/b;-;-;-;")?;
    cannot_read(rt, "read", "a")
}

// Where no permission stops this user the test has nothing to show.
#[test]
fn a_file_that_may_not_be_read_is_a_fault(rt: HostRuntime) -> Result<(), Fail> {
    write_files(rt, "guarded", &["closed"])?;
    fs::set_permissions(&rt, "guarded/closed", PermissionsExt::from_mode(0))?;
    if fs::read(&rt, "guarded/closed").is_ok() {
        return Ok(());
    }
    cannot_read(rt, "guarded", "closed")
}

// Adds the apps of an environment, with a blank after each, and a semicolon.
fn push_apps(
    store: &mut HostStore<HostRuntime>,
    alloc: Global,
    text: &mut String,
    env: &str,
) -> Result<(), Fail> {
    let env = name(alloc, env)?;
    for app in &told(store.apps(alloc, &env))? {
        text.push_str(app.as_str())?;
        text.push(' ')?;
    }
    text.push(';')?;
    Ok(())
}

// What `push_apps` adds for each environment.
fn apps(rt: HostRuntime, root: &str, envs: &[&str]) -> Result<String, Fail> {
    let alloc = rt.alloc();
    let mut text = String::new(alloc);
    let mut store = HostStore::new(rt, alloc, root)?;
    for env in envs {
        push_apps(&mut store, alloc, &mut text, *env)?;
    }
    Ok(text)
}

// The environments, with a blank after each.
fn environments(rt: HostRuntime, root: &str) -> Result<String, Fail> {
    let alloc = rt.alloc();
    let mut text = String::new(alloc);
    let mut store = HostStore::new(rt, alloc, root)?;
    for env in &told(store.environments(alloc))? {
        text.push_str(env.as_str())?;
        text.push(' ')?;
    }
    Ok(text)
}

#[test]
fn a_store_lists_apps_that_have_files(rt: HostRuntime) -> Result<(), Fail> {
    let files = ["b/x/y", "a/z", "a-b/z", "_c/z"];
    write_files(rt, "apps/_build/dev/lib", &files)?;
    fs::create_dir_all(&rt, "apps/_build/dev/lib/empty/e")?;
    write_links(rt, &[("a", "apps/_build/dev/lib/link")])?;
    same(apps(rt, "apps", &["dev", "test"])?.as_str(), "_c a b ;;")
}

#[test]
fn a_store_lists_what_has_a_mark_alone(rt: HostRuntime) -> Result<(), Fail> {
    let files = ["dev/lib/a/z", "dev/marks/b", "test/marks/a", "-/marks/a"];
    write_files(rt, "marks/_build", &files)?;
    fs::create_dir_all(&rt, "marks/_build/none/lib/a")?;
    fs::create_dir_all(&rt, "marks/_build/none/marks/a")?;
    same(apps(rt, "marks", &["dev", "none"])?.as_str(), "a b ;;")?;
    same(environments(rt, "marks")?.as_str(), "dev test ")
}

// Puts a file of the project, or removes it where there are no bytes.
fn change(
    store: &mut HostStore<HostRuntime>,
    alloc: Global,
    file: &str,
    bytes: Option<&str>,
) -> Result<Result<(), StoreFault>, Fail> {
    let file = path(alloc, file)?;
    if file.is_in_build() {
        return Err(Fail::new("a folder of builds"));
    }
    Ok(match bytes {
        Some(bytes) => store.put(alloc, &file, bytes.as_bytes()),
        None => store.remove(alloc, &file),
    })
}

#[test]
fn a_store_changes_files(rt: HostRuntime) -> Result<(), Fail> {
    let alloc = rt.alloc();
    write_files(rt, "changed", &["a"])?;
    let mut text = String::new(alloc);
    let mut store = HostStore::new(rt, alloc, "changed")?;
    for (file, bytes) in &[
        ("b/c", Some("new")),
        ("a", Some("other")),
        ("b/c", None),
        ("b/d", None),
    ] {
        told(change(&mut store, alloc, *file, *bytes)?)?;
        push_read(&mut store, alloc, &mut text, *file)?;
    }
    same(text.as_str(), "new;other;-;-;")?;
    failed(change(&mut store, alloc, "b", Some("a folder"))?)
}

fn store_that_cannot_be(rt: HostRuntime, alloc: Global) -> Result<HostStore<HostRuntime>, Fail> {
    let root = long_name(alloc)?;
    Ok(HostStore::new(rt, alloc, root.as_str())?)
}

#[test]
fn files_fail_in_a_root_that_cannot_be(rt: HostRuntime) -> Result<(), Fail> {
    let alloc = rt.alloc();
    let here = path(alloc, "")?;
    if here.is_in_build() {
        return Err(Fail::new("a folder of builds"));
    }
    let mut store = store_that_cannot_be(rt, alloc)?;
    failed(store.list(alloc, &here))?;
    failed(store.put(alloc, &here, b""))?;
    failed(store.remove(alloc, &here))
}

#[test]
fn builds_fail_in_a_root_that_cannot_be(rt: HostRuntime) -> Result<(), Fail> {
    let alloc = rt.alloc();
    let mut store = store_that_cannot_be(rt, alloc)?;
    failed(answer(&mut store, alloc, "x")?)?;
    failed(store.environments(alloc))?;
    failed(store.apps(alloc, &name(alloc, "dev")?))
}
