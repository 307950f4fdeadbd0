// The declaration that is written.
ghost use Rattle.std.specs.Prelude.{◌≡◌, IfOk};
ghost use Rattle.term_values.specs.Views.{named};
ghost use Rattle.dep_options.specs.Decls.{source_of, decl_of};

use crate::decl::{Decl, DepSource};
use crate::given::{
    Options, compiling, environment, environments, folder, manager, package, targets, truth,
    variables,
};
use mx_base::{AppName, RelPath};
use std::alloc::{AllocError, Global};
use version_req::Requirement;

/// The declaration of an app: each option as it is given, or its default.
pub(crate) fn declared(
    alloc: Global,
    base: &RelPath,
    app: AppName,
    requirement: Option<Requirement>,
    options: Options,
) -> Result<Decl, AllocError>
    ensures { IfOk result (λ decl. decl ≡ decl_of base.now app requirement (named options.now)) }
{
    Ok(Decl {
        source: source(alloc, base, &app, options)?,
        only: environments(alloc, options)?,
        targets: targets(alloc, options)?,
        env: environment(alloc, options)?,
        compile: compiling(alloc, options)?,
        system_env: variables(alloc, options)?,
        optional: truth(options, b"optional", false),
        override_: truth(options, b"override", false),
        manager: manager(options),
        runtime: truth(options, b"runtime", true),
        app_file: truth(options, b"app", true),
        requirement,
        app,
    })
}

// With a path the source is the path, else the registry.
fn source(
    alloc: Global,
    base: &RelPath,
    app: &AppName,
    options: Options,
) -> Result<DepSource, AllocError>
    ensures { IfOk result (λ source. source ≡ source_of base.now app.now (named options.now)) }
{
    match folder(alloc, base, options)? {
        Some(dir) => Ok(DepSource::Path { dir }),
        None => Ok(DepSource::Hex {
            package: package(alloc, app, options)?,
        }),
    }
}
