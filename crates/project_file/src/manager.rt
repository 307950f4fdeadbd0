// The manager of a dependency.
ghost use Rattle.std.specs.Prelude.{◌≡◌, [], bytes_eq};
ghost use Rattle.std.specs.List.{list_any};
ghost use Rattle.project_file.specs.Files.{has_file, manager_by_files};

use dep_options::Manager;
use mx_base::{File, MANIFEST};

/// The manager of a dependency by its files, with their paths from its folder.
pub fn manager_by_files(files: &[File]) -> Manager
    ensures { result ≡ manager_by_files files.now [] }
{
    if has_file(files, MANIFEST) || has_file(files, "mix.exs") {
        Manager::Mix
    } else if has_file(files, "rebar.config") {
        Manager::Rebar3
    } else if has_file(files, "Makefile") {
        Manager::Make
    } else {
        Manager::Mix
    }
}

fn has_file(files: &[File], name: &str) -> bool
    ensures { result ≡ has_file files.now [] name.now }
{
    has_name(files, name)
}

fn has_name(files: &[File], name: &str) -> bool
    ensures { result ≡ list_any (λ file. bytes_eq file.path name.now) files.now }
{
    files.iter().any(|file| file.path.as_str() == name)
}
