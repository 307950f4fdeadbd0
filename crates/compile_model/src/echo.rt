// A compiler that copies its sources.
ghost use Rattle.std.specs.Prelude.{◌≡◌, [], ◌∷◌, ◌++◌, None, length, map, IfOk, OnOk, find, flat_map, filter};
ghost use Rattle.std.specs.Option.{option_copied};
ghost use Rattle.compile_model.specs.Content.{content_of};
ghost use Rattle.compile_model.specs.Planned.{IsNamed};
ghost use Rattle.compile_model.specs.Echo.{echo_of, echo_file, echo_bytes, is_named, is_copied, bytes_of, warning_of, echo_failed_is_bare, echo_files_in_order, echo_nothing_is_empty};

use crate::compiler::{CompileFault, Compiler, Input, Meaning};
use crate::how::How;
use crate::outcome::Outcome;
use mx_base::{Bytes, File, Files, MANIFEST, RelPath, Shared};
use std::alloc::{AllocError, Global};

/// Copies sources into one output file, and never dies. A source `fail` makes a job fail with its text, and
/// a source `warn` is the text of a job that is built.
#[derive(Clone, Copy)]
pub struct EchoCompiler;

impl Meaning for EchoCompiler {
    ghost compile_of = { echo_of };

    ghost honest = { Unit {0} };

    ghost files_in_order = { echo_files_in_order };

    ghost failed_is_bare = { echo_failed_is_bare };

    ghost nothing_is_empty = { echo_nothing_is_empty };
}

impl Compiler for EchoCompiler {
    ghost deaths = { λ _. 0 };

    ghost calls = { λ _. None };

    fn compile(&mut self, alloc: Global, input: &Input) -> Result<Outcome, CompileFault> {
        if let How::Nothing = &input.job.how {
            return Ok(Outcome::of(alloc, 0, Bytes::new(alloc), Files::new(alloc))?);
        }
        let sources = input.job.sources.as_slice();
        if let Some(file) = named(sources, "fail") {
            return Ok(Outcome::of(alloc, 1, file.bytes.clone()?, Files::new(alloc))?);
        }
        let text = warning(alloc, sources)?;
        let files = echo_files(alloc, input)?;
        Ok(Outcome::of(alloc, 0, text, files)?)
    }
}

// The text of a job that is built.
fn warning(alloc: Global, sources: &[File]) -> Result<Bytes, AllocError>
    ensures { IfOk result (λ text. text ≡ warning_of sources.now) }
{
    match named(sources, "warn") {
        Some(file) => file.bytes.clone(),
        None => Ok(Bytes::new(alloc)),
    }
}

fn named<'a>(files: &'a [File], name: &str) -> Option<&'a File>
    ensures { option_copied result ≡ find (is_named name.now) files.now }
{
    for file in files {
        if has_name(file, name) {
            return Some(file);
        }
    }
    None
}

fn has_name(file: &File, name: &str) -> bool
    ensures { result ≡ is_named name.now file.now }
{
    file.path.as_str() == name
}

#[tactic(auto, using(mx_base::proofs::NameLemmas::name_with_ending))]
fn echo_files(alloc: Global, input: &Input) -> Result<Files, AllocError>
    requires needs { length input.now.needs.now ≡ length input.now.job.now.needs }
    requires named { IsNamed input.now.job.now }
    ensures { IfOk result (λ files. files ≡ echo_file
        (content_of input.now.job.now input.now.needs.now) ∷ []) }
{
    let mut name = String::from_str(alloc, input.job.app.as_str())?;
    name.push_str(".out")?;
    let mut files = Vec::new(alloc);
    files.push(File {
        path: RelPath::root(alloc).child(alloc, name.as_str())?,
        bytes: Bytes::from_vec(echoed(alloc, input)?),
    })?;
    Ok(Files::from_vec(files))
}

#[tactic(auto, using(crate::proofs::EchoLemmas::echoed_needs))]
fn echoed(alloc: Global, input: &Input) -> Result<Vec<u8>, AllocError>
    requires needs { length input.now.needs.now ≡ length input.now.job.now.needs }
    requires named { IsNamed input.now.job.now }
    ensures { IfOk result (λ bytes. bytes.items
        ≡ echo_bytes (content_of input.now.job.now input.now.needs.now)) }
{
    let mut bytes = Vec::new(alloc);
    push_copied(&mut bytes, input.job.sources.as_slice())?;
    push_needs(&mut bytes, input.needs)?;
    Ok(bytes)
}

fn push_needs(bytes: &mut Vec<u8>, needs: &[Shared<Outcome>]) -> Result<(), AllocError>
    ensures { OnOk result (bytes.new.items ≡ bytes.old.items
        ++ flat_map bytes_of (map (λ o. o.files) needs.now)) }
{
    for need in needs {
        push_files(bytes, need.get().files.as_slice())?;
    }
    Ok(())
}

fn push_copied(bytes: &mut Vec<u8>, sources: &[File]) -> Result<(), AllocError>
    ensures { OnOk result (bytes.new.items ≡ bytes.old.items
        ++ bytes_of (filter is_copied sources.now)) }
{
    for file in sources {
        if is_copied(file) {
            bytes.extend_from_slice(file.bytes.as_slice())?;
        }
    }
    Ok(())
}

fn is_copied(file: &File) -> bool
    ensures { result ≡ is_copied file.now }
{
    !has_name(file, MANIFEST) && !has_name(file, "warn")
}

fn push_files(bytes: &mut Vec<u8>, files: &[File]) -> Result<(), AllocError>
    ensures { OnOk result (bytes.new.items ≡ bytes.old.items ++ bytes_of files.now) }
{
    for file in files {
        bytes.extend_from_slice(file.bytes.as_slice())?;
    }
    Ok(())
}
