// A project of real files whose dependencies have dependencies.

use crate::given::{reads, same};
use compile_model::EchoCompiler;
use mix_main::run;
use mx_base::MemSink;
use std::test::Fail;
use std::{fs, str};
use tree_host::HostStore;

// The project of `examples/nested`.
const NESTED: [(&str, &str); 7] = [
    (
        "project.exs",
        r#"[app: :shop, version: "0.1.0", deps: [{:web, path: "web"}, {:core, "~> 1.2", path: "core"}]]"#,
    ),
    (
        "web/project.exs",
        r#"[app: :web, version: "1.0.0", deps: [{:core, path: "../core"}, {:log, path: "../log", only: [:dev, :prod]}, {:mock, path: "../mock", only: :test}]]"#,
    ),
    ("web/x", "W\n"),
    (
        "core/project.exs",
        r#"[app: :core, version: "1.2.3", deps: [{:log, "~> 0.3", path: "../log"}]]"#,
    ),
    ("core/x", "C\n"),
    ("log/project.exs", r#"[app: :log, version: "0.3.1"]"#),
    ("log/x", "L\n"),
];

const NESTED_BUILT: &str =
    "0 ==> log 0.3.1 built\n==> core 1.2.3 built\n==> web 1.0.0 built\n3 dependencies: 3 built, 0 failed, 0 skipped\n";

fn write_project(rt: HostRuntime) -> Result<(), Fail> {
    for folder in &["web", "core", "log"] {
        fs::create_dir(&rt, *folder)?;
    }
    for (path, text) in &NESTED {
        fs::write(&rt, *path, *text)?;
    }
    Ok(())
}

// The status and the text of the command.
fn compiled(rt: HostRuntime) -> Result<String, Fail> {
    let alloc = rt.alloc();
    let words = vec![in alloc; String::from_str(alloc, "deps.compile")?]?;
    let mut store = HostStore::new(rt, alloc, ".")?;
    let mut out = MemSink::new(alloc, Vec::new(alloc));
    let code = run(alloc, &words, &mut store, &mut EchoCompiler, &mut out).code();
    let text = str::from_utf8(out.as_slice())?;
    Ok(format!(in alloc; "{code} {text}")?)
}

#[test]
fn the_built_files_are_read_back(rt: HostRuntime) -> Result<(), Fail> {
    write_project(rt)?;
    same(compiled(rt)?.as_str(), NESTED_BUILT)?;
    for (path, text) in &[
        ("_build/dev/lib/log/log.out", "L\n"),
        ("_build/dev/lib/core/core.out", "C\nL\n"),
        ("_build/dev/lib/web/web.out", "W\nL\nC\nL\n"),
    ] {
        reads(rt, *path, *text)?;
    }
    Ok(())
}
