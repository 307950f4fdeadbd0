// What the definitions imply.
ghost use Rattle.std.specs.Prelude.{◌≡◌, ℕ, List, Option, Result};
ghost use Rattle.mx_base.specs.declared.file.File.{File};
ghost use Rattle.project_file.specs.declared.error.ProjectError.{ProjectError};
ghost use Rattle.project_file.specs.declared.error.SettingsError.{SettingsError};
ghost use Rattle.project_file.specs.declared.project.Project.{Project};
ghost use Rattle.project_file.specs.declared.settings.Settings.{Settings};
ghost use Rattle.project_file.specs.Files.{IsLoaded, AreSettings};

use dep_options::one_answer;
use elixir_terms::{no_refusal, one_reading, one_refusal, some_answer};

/// The manifest in a folder says one thing, or is refused in one way.
pub fn one_project()
    ensures { (files : List File) (dir : List ℕ)
        (answer other : Result (Option Project) ProjectError) → IsLoaded files dir answer
        → IsLoaded files dir other → answer ≡ other }
{
    one_reading();
    one_refusal();
    no_refusal();
    one_answer();
}

/// The files of a project have one meaning as settings, or are refused in one way.
pub fn one_settings()
    ensures { (files : List File) (answer other : Result Settings SettingsError)
        → AreSettings files answer → AreSettings files other → answer ≡ other }
{
    one_reading();
    one_refusal();
    no_refusal();
}

/// The manifest in a folder says something, or is refused.
pub fn some_project()
    ensures { (files : List File) (dir : List ℕ)
        → (answer : Result (Option Project) ProjectError) × IsLoaded files dir answer }
{
    some_answer();
}

/// The files of a project have a meaning as settings, or are refused.
pub fn some_settings()
    ensures { (files : List File)
        → (answer : Result Settings SettingsError) × AreSettings files answer }
{
    some_answer();
}
