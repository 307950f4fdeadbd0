// The versions of the winners.
ghost use Rattle.std.specs.Prelude.{◌≡◌, ℕ, List, Ok, IfOk, IsSome, IsTrue, length};
ghost use Rattle.std.specs.List.{All, AllZip};
ghost use Rattle.semver.specs.Identifiers.{parts_of};
ghost use Rattle.semver.specs.Parse.{version_parts};
ghost use Rattle.mx_base.specs.declared.file.File.{File};
ghost use Rattle.project_file.specs.Version.{is_version};
ghost use Rattle.converger.specs.Divergence.{parts_in};
ghost use Rattle.dep_rows.specs.declared.row.Row.{Row};
ghost use Rattle.build_plan.specs.Dependencies.{AreVersions};
ghost use Rattle.build_plan.specs.Found.{IsFound, IsFoundAt};

use crate::found::Found;
use converger::Versions;
use semver::Version;
use std::alloc::{AllocError, Global};

/// The versions of the winners in whose folders this was found.
pub(crate) fn versions(alloc: Global, found: &[Found]) -> Result<Versions, AllocError>
    ensures long { IfOk result (λ versions. length versions ≡ length found.now) }
    ensures known { IfOk result (λ versions. All (λ version. IsSome version) versions) }
    ensures told { IfOk result (λ versions. (files : List File) (rows : List Row)
        (winners : List ℕ) → All (IsFound files) found.now
        → AllZip (IsFoundAt rows) winners found.now
        → AreVersions files rows winners (parts_in versions)) }
{
    let mut versions = Versions::new(alloc);
    for folder in found {
        versions.push(Some(parsed(alloc, folder.version())?))?;
    }
    Ok(versions)
}

fn parsed(alloc: Global, text: &[u8]) -> Result<Version, AllocError>
    requires { IsTrue (is_version text.now) }
    ensures { IfOk result (λ version. version_parts text.now ≡ Ok (parts_of version)) }
{
    let Ok(text) = str::from_utf8(text) else {
        unreachable!()
    };
    match Version::parse(alloc, text) {
        Ok(version) => Ok(version),
        // A version is refused only for want of memory.
        Err(_) => Err(AllocError),
    }
}
