// Cases of declarations and manifests.

use case_texts::{
    Fault, folder, push_after, refused, refused_decls, refused_project, refused_term, say, store_of,
};
use dep_options::{CompileBy, Decl, DepSource, Manager, OptionCause, OptionError, decls};
use elixir_terms::read;
use mx_base::{AppName, Text};
use project_file::{Project, ProjectError, load_project, project_of_text};
use std::alloc::Global;

/// A folder and a text: what its term declares there.
pub(crate) fn decls_case(alloc: Global, out: &mut String, texts: &[Vec<u8>]) -> Result<(), Fault> {
    let [base, text] = texts else {
        return Err(Fault::Form);
    };
    let base = folder(alloc, base.as_slice())?;
    match read(alloc, text.as_slice()) {
        Ok(term) => push_declared(alloc, out, &decls(alloc, &base, &term)),
        Err(error) => refused_term(out, error),
    }
}

fn push_declared(
    alloc: Global,
    out: &mut String,
    answer: &Result<Vec<Decl>, OptionError>,
) -> Result<(), Fault> {
    match answer {
        Ok(decls) => {
            say(out, "ok")?;
            push_decls(alloc, out, decls.as_slice())
        }
        Err(error) => refused_decls(alloc, out, error),
    }
}

fn push_decls(alloc: Global, out: &mut String, decls: &[Decl]) -> Result<(), Fault> {
    for decl in decls {
        push_decl(alloc, out, decl)?;
    }
    Ok(())
}

/// A declaration, with what isn't the default.
fn push_decl(alloc: Global, out: &mut String, decl: &Decl) -> Result<(), Fault> {
    say(out, " ")?;
    say(out, decl.app.as_str())?;
    push_source(out, &decl.source)?;
    if decl.requirement.is_some() {
        say(out, " required")?;
    }
    if let Some(names) = &decl.only {
        say(out, " only")?;
        push_names(out, names.as_slice())?;
    }
    if let Some(names) = &decl.targets {
        say(out, " targets")?;
        push_names(out, names.as_slice())?;
    }
    if decl.env.as_str() != "prod" {
        say(out, " env ")?;
        say(out, decl.env.as_str())?;
    }
    push_options(alloc, out, decl)
}

fn push_source(out: &mut String, source: &DepSource) -> Result<(), Fault> {
    match source {
        DepSource::Hex { package } => {
            say(out, " hex ")?;
            say(out, package.as_str())
        }
        DepSource::Path { dir } => {
            say(out, " path ")?;
            say(out, dir.as_str())
        }
    }
}

fn push_names(out: &mut String, names: &[AppName]) -> Result<(), Fault> {
    for name in names {
        say(out, " ")?;
        say(out, name.as_str())?;
    }
    Ok(())
}

fn push_options(alloc: Global, out: &mut String, decl: &Decl) -> Result<(), Fault> {
    say(out, if decl.optional { " optional" } else { "" })?;
    say(out, if decl.override_ { " override" } else { "" })?;
    say(out, if decl.runtime { "" } else { " without runtime" })?;
    say(out, if decl.app_file { "" } else { " without app" })?;
    match &decl.compile {
        CompileBy::Manager => {}
        CompileBy::Command(command) => push_after(alloc, out, " by ", command.as_slice())?,
        CompileBy::Nothing => say(out, " not compiled")?,
    }
    if let Some(manager) = decl.manager {
        say(out, " ")?;
        say(out, manager_name(manager))?;
    }
    for variable in decl.system_env.as_slice() {
        push_after(alloc, out, " ", variable.name.as_slice())?;
        push_after(alloc, out, "=", variable.value.as_slice())?;
    }
    say(out, ";")
}

pub(crate) fn manager_name(manager: Manager) -> &'static str {
    match manager {
        Manager::Mix => "mix",
        Manager::Rebar3 => "rebar3",
        Manager::Make => "make",
    }
}

/// A refusal for the option of this name, which stands behind the cause.
/// A text: the project that it is as the manifest of the root.
pub(crate) fn project_case(
    alloc: Global,
    out: &mut String,
    texts: &[Vec<u8>],
) -> Result<(), Fault> {
    let [text] = texts else {
        return Err(Fault::Form);
    };
    let root = folder(alloc, b"")?;
    push_said(alloc, out, &project_of_text(alloc, &root, text.as_slice()))
}

fn push_said(
    alloc: Global,
    out: &mut String,
    answer: &Result<Project, ProjectError>,
) -> Result<(), Fault> {
    match answer {
        Ok(project) => push_project(alloc, out, project),
        Err(error) => refused_project(alloc, out, error),
    }
}

/// The calls of the store that fail, a folder, and files: the project that the folder's manifest says.
pub(crate) fn manifest_case(
    alloc: Global,
    out: &mut String,
    texts: &[Vec<u8>],
) -> Result<(), Fault> {
    let [calls, dir, files @ ..] = texts else {
        return Err(Fault::Form);
    };
    let mut store = store_of(alloc, calls.as_slice(), b"", files)?;
    let dir = folder(alloc, dir.as_slice())?;
    if dir.is_in_build() {
        return Err(Fault::Form);
    }
    push_loaded(alloc, out, &load_project(alloc, &mut store, &dir))
}

fn push_loaded(
    alloc: Global,
    out: &mut String,
    answer: &Result<Option<Project>, ProjectError>,
) -> Result<(), Fault> {
    match answer {
        Ok(Some(project)) => push_project(alloc, out, project),
        Ok(None) => say(out, "ok none"),
        Err(error) => refused_project(alloc, out, error),
    }
}

fn push_project(alloc: Global, out: &mut String, project: &Project) -> Result<(), Fault> {
    say(out, "ok ")?;
    say(out, project.app.as_str())?;
    push_after(alloc, out, " ", project.version.as_slice())?;
    say(out, ";")?;
    push_decls(alloc, out, project.decls.as_slice())
}
