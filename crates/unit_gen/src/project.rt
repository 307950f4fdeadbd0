// The files of a generated project.
ghost use Rattle.std.specs.Prelude.{◌≡◌, ◌++◌, [], ◌∷◌, ◌^◌, ◌<◌, ◌≤◌, All, IfOk, OnOk, length, map, string_bytes};
ghost use Rattle.unit_gen.specs.Dependency.{dependencies, needs_in};
ghost use Rattle.unit_gen.specs.Seen.{seen};
ghost use Rattle.unit_gen.specs.Texts.{files_of, project_files, root_file};

use crate::dependency::{Dependency, draw_all};
use crate::texts::{Head, bytes_of, manifest, name_of, unit_text};
use mx_base::{Bytes, File, Files, MANIFEST, RelPath};
use std::alloc::{AllocError, Global};

/// A generated project.
#[derive(Drop)]
pub struct Generated {
    /// Its files.
    pub files: Files,
    /// How many direct needs its dependencies have together.
    pub needs: u64,
}

/// The files of the project with so many dependencies that the stream from a start gives, and how many direct needs
/// these have. There are at most 4000 dependencies, and the start is below 2^31.
///
/// # Errors
///
/// `AllocError` where there is not enough memory.
#[tactic(auto, using(crate::proofs::FileLemmas::files_in_order))]
pub fn project_files(alloc: Global, count: u32, start: u32) -> Result<Generated, AllocError>
    requires few { count ≤ 4000 }
    requires within { start < 2 ^ 31 }
    ensures files { IfOk result (λ made. made.files ≡ project_files (dependencies start count)) }
    ensures needs { IfOk result (λ made. made.needs ≡ needs_in (dependencies start count)) }
{
    let all = draw_all(alloc, count, start)?;
    let needs = needs_in(&all);
    let files = files_of_all(alloc, &all)?;
    Ok(Generated {
        files: Files::from_vec(files),
        needs,
    })
}

fn needs_in(all: &[Dependency]) -> u64
    requires count { length all.now ≤ 4000 }
    requires few { All (λ one. length one.needs.items ≤ 3) all.now }
    ensures { result ≡ needs_in (map seen all.now) }
{
    let mut needs = 0;
    for one in all {
        needs += one.needs.len() as u64;
    }
    needs
}

fn files_of_all(alloc: Global, all: &[Dependency]) -> Result<Vec<File>, AllocError>
    ensures { IfOk result (λ files. files.items ≡ project_files (map seen all.now)) }
{
    let mut files = Vec::new(alloc);
    for one in all {
        push_files(alloc, &mut files, one)?;
    }
    files.push(root_file(alloc, all)?)?;
    Ok(files)
}

fn push_files(alloc: Global, files: &mut Vec<File>, one: &Dependency) -> Result<(), AllocError>
    ensures { OnOk result (files.new.items ≡ files.old.items ++ files_of (seen one.now)) }
{
    let name = name_of(alloc, one.number)?;
    let folder = RelPath::root(alloc)
        .child(alloc, "libs")?
        .child(alloc, name.as_str())?;
    let head = Head {
        app: name.as_str(),
        version: "1.0.0",
    };
    let manifest = manifest(alloc, head, "../", &one.needs)?;
    files.push(file(folder.child(alloc, "main.unit")?, unit_text(alloc, one)?))?;
    files.push(file(folder.child(alloc, MANIFEST)?, manifest))?;
    Ok(())
}

fn file(path: RelPath, text: String) -> File
    ensures { result ≡ record { path = path; bytes = string_bytes text } }
{
    File {
        path,
        bytes: Bytes::from_vec(bytes_of(text)),
    }
}

fn root_file(alloc: Global, all: &[Dependency]) -> Result<File, AllocError>
    ensures { IfOk result (λ file. file ≡ root_file (map seen all.now)) }
{
    let numbers = numbers_of(alloc, all)?;
    let head = Head {
        app: "gen",
        version: "0.1.0",
    };
    let path = RelPath::root(alloc).child(alloc, MANIFEST)?;
    Ok(file(path, manifest(alloc, head, "libs/", &numbers)?))
}

fn numbers_of(alloc: Global, all: &[Dependency]) -> Result<Vec<u32>, AllocError>
    ensures { IfOk result (λ numbers. numbers.items
        ≡ map (λ one. one.number) (map seen all.now)) }
{
    let mut numbers = Vec::with_capacity(alloc, all.len())?;
    for one in all {
        numbers.push(one.number)?;
    }
    Ok(numbers)
}
