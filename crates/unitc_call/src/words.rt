// The words of a call.
ghost use Rattle.std.specs.Prelude.{◌≡◌, ◌&&◌, IfOk, IfSome, IsFalse, bytes_eq, codes, if◌then◌else◌, map, string_bytes};
ghost use Rattle.mx_base.specs.AppName.{is_app_name};
ghost use Rattle.mx_base.specs.Layout.{is_in_build};
ghost use Rattle.unitc_call.specs.Words.{are_options, is_output, needs_of, outside_build, output_folder, source_folder, task_of};

use mx_base::{AppName, BUILD, NameError, Names, PathError, RelPath};
use std::alloc::{AllocError, Global};

/// What is to be compiled.
#[derive(Drop)]
pub struct Task {
    pub app: AppName,
    pub env: AppName,
    /// The folder of the sources.
    pub src: RelPath,
    /// The apps of its needs, in their order.
    pub needs: Names,
}

/// The task that the words name, and none where they have another form.
pub(crate) fn read_task(alloc: Global, words: &[String]) -> Result<Option<Task>, AllocError>
    ensures task { IfOk result (λ task. task
        ≡ task_of (map (λ word. string_bytes word) words.now)) }
    ensures outside { IfOk result (λ task. IfSome task (λ task. IsFalse (is_in_build task.src))) }
{
    let [
        app_is,
        app,
        env_is,
        env,
        src_is,
        src,
        out_is,
        out,
        more @ ..,
    ] = words
    else {
        return Ok(None);
    };
    if !are_options(
        app_is.as_str(),
        env_is.as_str(),
        src_is.as_str(),
        out_is.as_str(),
    ) {
        return Ok(None);
    }
    let Some(env) = name(alloc, env.as_str())? else {
        return Ok(None);
    };
    let Some(app) = output(alloc, &env, app.as_str(), out.as_str())? else {
        return Ok(None);
    };
    let Some(src) = source_folder(alloc, src.as_str())? else {
        return Ok(None);
    };
    match needs(alloc, &env, more)? {
        Some(needs) => Ok(Some(Task {
            app,
            env,
            src,
            needs,
        })),
        None => Ok(None),
    }
}

fn are_options(app: &str, env: &str, src: &str, out: &str) -> bool
    ensures { result ≡ are_options app.now env.now src.now out.now }
{
    app == "--app" && env == "--env" && src == "--src" && out == "--out"
}

// The name that a text spells, where it spells one.
fn name(alloc: Global, text: &str) -> Result<Option<AppName>, AllocError>
    ensures { IfOk result (λ name. name
        ≡ (if is_app_name text.now then Some text.now else None)) }
{
    match AppName::of(alloc, text.as_bytes()) {
        Ok(name) => Ok(Some(name)),
        Err(NameError::OutOfMemory) => Err(AllocError),
        Err(_) => Ok(None),
    }
}

// The app that a text names, where a folder is that of its outputs.
fn output(
    alloc: Global,
    env: &AppName,
    app: &str,
    folder: &str,
) -> Result<Option<AppName>, AllocError>
    ensures { IfOk result (λ name. name
        ≡ (if is_output env.now app.now folder.now then Some app.now else None)) }
{
    let Some(app) = name(alloc, app)? else {
        return Ok(None);
    };
    if is_folder_of(alloc, env, &app, folder)? {
        Ok(Some(app))
    } else {
        Ok(None)
    }
}

fn is_folder_of(
    alloc: Global,
    env: &AppName,
    app: &AppName,
    folder: &str,
) -> Result<bool, AllocError>
    ensures { IfOk result (λ is. is ≡ bytes_eq folder.now (output_folder env.now app.now)) }
{
    let own = [BUILD, "/", env.as_str(), "/lib/", app.as_str()].concat(alloc)?;
    Ok(folder == own.as_str())
}

// The folder of sources that a text names, where it isn't in the folder of builds.
fn source_folder(alloc: Global, text: &str) -> Result<Option<RelPath>, AllocError>
    ensures folder { IfOk result (λ folder. folder ≡ source_folder text.now) }
    ensures outside { IfOk result (λ folder. IfSome folder (λ path. IsFalse (is_in_build path))) }
{
    match RelPath::join(alloc, &RelPath::root(alloc), text.as_bytes()) {
        Ok(path) => Ok(unless_in_build(path)),
        Err(PathError::OutOfMemory) => Err(AllocError),
        Err(_) => Ok(None),
    }
}

fn unless_in_build(path: RelPath) -> Option<RelPath>
    ensures folder { result ≡ outside_build (Ok path) }
    ensures outside { IfSome result (λ path. IsFalse (is_in_build path)) }
{
    if path.is_in_build() { None } else { Some(path) }
}

// The apps of the needs that further words name.
fn needs(alloc: Global, env: &AppName, words: &[String]) -> Result<Option<Names>, AllocError>
    ensures { IfOk result (λ needs. needs
        ≡ needs_of env.now (map (λ word. string_bytes word) words.now)) }
{
    let mut needs = Vec::new(alloc);
    let mut rest = words;
    while let [option, app, folder, more @ ..] = rest {
        let Some(app) = need(alloc, env, option.as_str(), app.as_str(), folder.as_str())? else {
            return Ok(None);
        };
        needs.push(app)?;
        rest = more;
    }
    if rest.is_empty() {
        Ok(Some(Names::from_vec(needs)))
    } else {
        Ok(None)
    }
}

// The app of the need that three words name.
fn need(
    alloc: Global,
    env: &AppName,
    option: &str,
    app: &str,
    folder: &str,
) -> Result<Option<AppName>, AllocError>
    ensures { IfOk result (λ name. name ≡ (if bytes_eq option.now (codes "--need")
        && is_output env.now app.now folder.now then Some app.now else None)) }
{
    if option == "--need" {
        output(alloc, env, app, folder)
    } else {
        Ok(None)
    }
}
