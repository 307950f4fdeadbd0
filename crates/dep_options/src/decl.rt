// What a manifest declares.
ghost use Rattle.std.specs.Prelude.{IsTrue};
ghost use Rattle.dep_options.specs.Options.{is_dep_source};

use mx_base::{AppName, Names, RelPath, Text, Variables};
use std::alloc::AllocError;
use version_req::Requirement;

/// A declared dependency.
#[derive(Drop)]
pub struct Decl {
    pub app: AppName,
    pub requirement: Option<Requirement>,
    pub source: DepSource,
    /// The environments that it is for: all of them where there is no list.
    pub only: Option<Names>,
    /// The targets that it is for: all of them where there is no list.
    pub targets: Option<Names>,
    /// The environment that it is compiled in.
    pub env: AppName,
    pub optional: bool,
    pub override_: bool,
    pub compile: CompileBy,
    /// The manager that was written; else it is found by the files.
    pub manager: Option<Manager>,
    pub runtime: bool,
    /// Whether its app file is read.
    pub app_file: bool,
    pub system_env: Variables,
    /// A folder that it comes from is no root and not the tool's own.
    pub ghost placed: { IsTrue (is_dep_source source) },
}

impl Clone for Decl {
    ghost use Rattle.std.specs.Prelude.{◌≡◌};

    ghost is_clone = { λ decl copy. copy ≡ decl };

    fn clone(&self) -> Result<Decl, AllocError> {
        Ok(Decl {
            app: self.app.clone()?,
            requirement: self.requirement.clone()?,
            source: self.source.clone()?,
            only: self.only.clone()?,
            targets: self.targets.clone()?,
            env: self.env.clone()?,
            optional: self.optional,
            override_: self.override_,
            compile: self.compile.clone()?,
            manager: self.manager,
            runtime: self.runtime,
            app_file: self.app_file,
            system_env: self.system_env.clone()?,
        })
    }
}

/// Where a dependency comes from.
#[derive(PartialEq, Eq, Drop)]
pub enum DepSource {
    /// A package of the registry.
    Hex { package: AppName },
    /// A folder of the project. That of a `Decl` is not the root and doesn't lie in `_build`, `deps` or `hex`.
    Path { dir: RelPath },
}

impl Clone for DepSource {
    ghost use Rattle.std.specs.Prelude.{◌≡◌};

    ghost is_clone = { λ source copy. copy ≡ source };

    fn clone(&self) -> Result<DepSource, AllocError> {
        match self {
            DepSource::Hex { package } => Ok(DepSource::Hex {
                package: package.clone()?,
            }),
            DepSource::Path { dir } => Ok(DepSource::Path { dir: dir.clone()? }),
        }
    }
}

/// How a dependency is compiled.
#[derive(PartialEq, Eq, Drop)]
pub enum CompileBy {
    /// As its manager does.
    Manager,
    /// By a command.
    Command(Text),
    /// Not at all.
    Nothing,
}

impl Clone for CompileBy {
    ghost use Rattle.std.specs.Prelude.{◌≡◌};

    ghost is_clone = { λ compile copy. copy ≡ compile };

    fn clone(&self) -> Result<CompileBy, AllocError> {
        match self {
            CompileBy::Manager => Ok(CompileBy::Manager),
            CompileBy::Command(command) => Ok(CompileBy::Command(command.clone()?)),
            CompileBy::Nothing => Ok(CompileBy::Nothing),
        }
    }
}

/// The build tool of a dependency.
#[derive(Clone, Copy, Drop)]
pub enum Manager {
    Mix,
    Rebar3,
    Make,
}
