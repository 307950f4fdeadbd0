// Cases of settings, managers and compilers.

use crate::manifests::manager_name;
use case_texts::{Fault, contents_of, push_after, refused_settings, refused_term, say, store_of};
use compile_model::How;
use compiler_drive::command;
use dep_options::{CompileBy, Manager};
use mx_base::Text;
use project_file::{Settings, SettingsError, load_settings, manager_by_files};
use std::alloc::Global;

/// The calls of the store that fail, and files: by what each manager compiles.
pub(crate) fn settings_case(
    alloc: Global,
    out: &mut String,
    texts: &[Vec<u8>],
) -> Result<(), Fault> {
    let [calls, files @ ..] = texts else {
        return Err(Fault::Form);
    };
    let mut store = store_of(alloc, calls.as_slice(), b"", files)?;
    let settings = match load_settings(alloc, &mut store) {
        Ok(settings) => settings,
        Err(error) => return refused_settings(out, &error),
    };
    say(out, "ok mix")?;
    push_how(alloc, out, &settings.mix)?;
    say(out, "; rebar3")?;
    push_how(alloc, out, &settings.rebar3)?;
    say(out, "; make")?;
    push_how(alloc, out, &settings.make)
}

fn push_how(alloc: Global, out: &mut String, how: &How) -> Result<(), Fault> {
    match how {
        How::Nothing => say(out, " nothing"),
        How::Unit => say(out, " unit"),
        How::Program(words) => {
            say(out, " program")?;
            for word in words.as_slice() {
                push_after(alloc, out, " ", word.as_slice())?;
            }
            Ok(())
        }
    }
}

/// Files: the manager of their folder.
pub(crate) fn manager_case(
    alloc: Global,
    out: &mut String,
    texts: &[Vec<u8>],
) -> Result<(), Fault> {
    let files = contents_of(alloc, texts)?.files(alloc)?;
    say(out, "ok ")?;
    say(out, manager_name(manager_by_files(files.as_slice())))
}

/// A manager, how a declaration says that it is compiled, and files with settings: by what it is compiled.
pub(crate) fn command_case(
    alloc: Global,
    out: &mut String,
    texts: &[Vec<u8>],
) -> Result<(), Fault> {
    let [name, by, files @ ..] = texts else {
        return Err(Fault::Form);
    };
    let manager = manager(name.as_slice())?;
    let compile = compile_by(alloc, by.as_slice())?;
    let settings = settings_of(alloc, files)?;
    push_command(alloc, out, &settings, manager, &compile)
}

/// The settings of these files, which have to be right.
fn settings_of(alloc: Global, files: &[Vec<u8>]) -> Result<Settings, Fault> {
    let mut store = store_of(alloc, b"", b"", files)?;
    match load_settings(alloc, &mut store) {
        Ok(settings) => Ok(settings),
        Err(_) => Err(Fault::Form),
    }
}

fn push_command(
    alloc: Global,
    out: &mut String,
    settings: &Settings,
    manager: Manager,
    compile: &CompileBy,
) -> Result<(), Fault> {
    let how = command(alloc, settings, manager, compile)?;
    say(out, "ok")?;
    push_how(alloc, out, &how)
}

fn manager(name: &[u8]) -> Result<Manager, Fault> {
    match name {
        b"mix" => Ok(Manager::Mix),
        b"rebar3" => Ok(Manager::Rebar3),
        b"make" => Ok(Manager::Make),
        _ => Err(Fault::Form),
    }
}

/// `manager`, `nothing`, or a command behind a `$`.
fn compile_by(alloc: Global, by: &[u8]) -> Result<CompileBy, Fault> {
    match by {
        b"manager" => Ok(CompileBy::Manager),
        b"nothing" => Ok(CompileBy::Nothing),
        [b'$', command @ ..] => Ok(CompileBy::Command(Text::from_slice(alloc, command)?)),
        _ => Err(Fault::Form),
    }
}
