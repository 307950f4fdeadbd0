// What the options of a declaration give.
ghost use Rattle.std.specs.Prelude.{◌≡◌, [], codes, IfOk};
ghost use Rattle.std.specs.Option.{option_copied};
ghost use Rattle.term_values.specs.Views.{named};
ghost use Rattle.dep_options.specs.declared.decl.CompileBy.TheVariants as by;
ghost use Rattle.dep_options.specs.Options.{first_of, said, given, truth_of, names_of, compile_of, folder_of, package_of, manager_of, variables_of};
ghost use Rattle.term_values.specs.Apps.{app_of};

use crate::decl::{CompileBy, Manager};
use crate::values::{
    compile_of, folder_of, manager_of, names_of, package_of, truth_of, variables_of,
};
use mx_base::{AppName, ListOf, Names, RelPath, Text, Variables};
use std::alloc::{AllocError, Global};
use term_values::{Term, app_of};

/// The options of a declaration, in their order.
pub(crate) type Options<'a> = &'a [(&'a Text, &'a Term)];

/// What stands first under a name.
#[tactic(auto, using(crate::proofs::OptionLemmas::named_rest))]
pub(crate) fn first<'a>(options: Options<'a>, name: &[u8]) -> Option<&'a Term>
    ensures { option_copied result ≡ first_of name.now (named options.now) }
{
    for (key, value) in options {
        if name == key.as_slice() {
            return Some(*value);
        }
    }
    None
}

/// Whether an option is on, or else the default.
pub(crate) fn truth(options: Options, name: &[u8], default: bool) -> bool
    ensures { result ≡ given name.now truth_of default (named options.now) }
{
    match first(options, name) {
        Some(value) => truth_of(value).unwrap_or(default),
        None => default,
    }
}

/// The environments of `only`.
pub(crate) fn environments(alloc: Global, options: Options) -> Result<Option<Names>, AllocError>
    ensures { IfOk result (λ names. names ≡ said (codes "only") names_of (named options.now)) }
{
    match first(options, b"only") {
        Some(value) => names_of(alloc, value),
        None => Ok(None),
    }
}

/// The targets of `targets`.
pub(crate) fn targets(alloc: Global, options: Options) -> Result<Option<Names>, AllocError>
    ensures { IfOk result (λ names. names ≡ said (codes "targets") names_of (named options.now)) }
{
    match first(options, b"targets") {
        Some(value) => names_of(alloc, value),
        None => Ok(None),
    }
}

/// The environment of `env`, or else `prod`.
pub(crate) fn environment(alloc: Global, options: Options) -> Result<AppName, AllocError>
    ensures { IfOk result (λ env. env ≡ given (codes "env") app_of (codes "prod")
        (named options.now)) }
{
    if let Some(value) = first(options, b"env")
        && let Some(env) = app_of(alloc, value)?
    {
        return Ok(env);
    }
    match AppName::of(alloc, b"prod") {
        Ok(env) => Ok(env),
        // `prod` is a name, so memory ran out
        Err(_) => Err(AllocError),
    }
}

/// The way of `compile`, or else the manager's.
pub(crate) fn compiling(alloc: Global, options: Options) -> Result<CompileBy, AllocError>
    ensures { IfOk result (λ way. way ≡ given (codes "compile") compile_of by.Manager
        (named options.now)) }
{
    if let Some(value) = first(options, b"compile")
        && let Some(way) = compile_of(alloc, value)?
    {
        return Ok(way);
    }
    Ok(CompileBy::Manager)
}

/// The folder of `path`.
pub(crate) fn folder(
    alloc: Global,
    base: &RelPath,
    options: Options,
) -> Result<Option<RelPath>, AllocError>
    ensures { IfOk result (λ dir. dir ≡ said (codes "path") (folder_of base.now)
        (named options.now)) }
{
    match first(options, b"path") {
        Some(value) => folder_of(alloc, base, value),
        None => Ok(None),
    }
}

/// The package of `hex`, or else that of the app's name.
pub(crate) fn package(alloc: Global, app: &AppName, options: Options) -> Result<AppName, AllocError>
    ensures { IfOk result (λ name. name ≡ given (codes "hex") package_of app.now
        (named options.now)) }
{
    if let Some(value) = first(options, b"hex")
        && let Some(name) = package_of(alloc, value)?
    {
        return Ok(name);
    }
    app.clone()
}

/// The manager of `manager`.
pub(crate) fn manager(options: Options) -> Option<Manager>
    ensures { result ≡ said (codes "manager") manager_of (named options.now) }
{
    manager_of(first(options, b"manager")?)
}

/// The variables of `system_env`, or else none.
pub(crate) fn variables(alloc: Global, options: Options) -> Result<Variables, AllocError>
    ensures { IfOk result (λ them. them ≡ given (codes "system_env") variables_of []
        (named options.now)) }
{
    if let Some(value) = first(options, b"system_env")
        && let Some(variables) = variables_of(alloc, value)?
    {
        return Ok(variables);
    }
    Ok(ListOf::new(alloc))
}
