// The plan: three places without needs, and all others need these three.
ghost use Rattle.std.specs.Prelude.{IfOk};
ghost use Rattle.compile_model.specs.Planned.{ArePlanned};

use build_plan::plan;
use compile_model::Plan;
use mx_base::{AppName, Bytes, HOST, NoFaults, RelPath, build_name};
use std::alloc::{AllocError, Global};
use tree_store::{ConstStore, Contents, MemStore};

/// The plan of so many places. Its project is refused nowhere, so its only error is want of memory.
pub(crate) fn plan_of(alloc: Global, places: u32) -> Result<Plan, AllocError>
    ensures { IfOk result (λ plan. ArePlanned plan.jobs) }
{
    let project = project(alloc, places)?;
    let mut store: ConstStore = MemStore::new(alloc, project, NoFaults, NoFaults, NoFaults);
    let Ok(env) = AppName::of(alloc, b"dev") else {
        return Err(AllocError);
    };
    let Ok(target) = AppName::of(alloc, HOST.as_bytes()) else {
        return Err(AllocError);
    };
    match build_name(alloc, &env, &target) {
        Ok(_) => plan(alloc, &mut store, &env, &target).or(Err(AllocError)),
        Err(_) => Err(AllocError),
    }
}

/// The root lists all apps: the first three lie in the folder `a`, and all others in `b`, which lists these three.
fn project(alloc: Global, places: u32) -> Result<Contents, AllocError> {
    let mut files = Contents::new(alloc);
    put_manifest(alloc, &mut files, b"project.exs", "", places)?;
    put_manifest(alloc, &mut files, b"a/project.exs", "../", 0)?;
    put_manifest(alloc, &mut files, b"b/project.exs", "../", 3)?;
    Ok(files)
}

/// Puts the manifest that lists so many apps, from whose folder `up` leads to the root.
fn put_manifest(
    alloc: Global,
    files: &mut Contents,
    path: &[u8],
    up: &str,
    apps: u32,
) -> Result<(), AllocError> {
    let mut text = String::from_str(alloc, "[app: :p, version: \"1.0.0\", deps: [")?;
    for app in 0..apps {
        let folder = if app < 3 { "a" } else { "b" };
        write!(text, "{{:p{app}, path: \"{up}{folder}\"}},")?;
    }
    text.push_str("]]")?;
    let path = RelPath::join(alloc, &RelPath::root(alloc), path).or(Err(AllocError))?;
    files.put(path, Bytes::from_vec(text.into_bytes()))
}
