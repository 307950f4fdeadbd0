// What the unit files of a job give together.
ghost use Rattle.std.specs.Prelude.{◌≡◌, ◌||◌, ◌++◌, [], ◌∷◌, List, false, is_none, length, map, IfOk, OnOk};
ghost use Rattle.mx_base.specs.Order.{AreInOrder};
ghost use Rattle.compile_model.specs.Content.{content_of};
ghost use Rattle.compile_model.specs.Planned.{IsNamed};
ghost use Rattle.unit_compile.specs.Units.{Source as Read, all_made, compiled, file_of, outcome_with_all, outcome_of, unit_meaning, with_face};
ghost use Rattle.unit_compile.specs.Views.{HasUnits, needs_in, source_in};

use crate::needs::Needs;
use crate::product::make;
use crate::source::Source;
use crate::table::Table;
use compile_model::{How, Input, Outcome};
use mx_base::{Bytes, File, Files, RelPath};
use std::alloc::{AllocError, Global};
use std::collections::BTreeMap;

/// How many bytes of text there are at most.
const MOST_TEXT: usize = 1_048_576;

/// What files gave so far.
#[derive(Drop)]
struct Product {
    text: Vec<u8>,
    /// Faces by their paths.
    faces: BTreeMap<RelPath, Bytes>,
    failed: bool,
}

/// The outcome of the unit files of a job, whatever it is otherwise compiled by, and the empty one of a job that
/// isn't compiled.
///
/// # Errors
///
/// `AllocError` where there is not enough memory.
pub fn compile_unit(alloc: Global, input: &Input) -> Result<Outcome, AllocError>
    requires needs { length input.now.needs.now ≡ length input.now.job.now.needs }
    requires named { IsNamed input.now.job.now }
    ensures { IfOk result (λ outcome. outcome
        ≡ unit_meaning (content_of input.now.job.now input.now.needs.now)) }
{
    match &input.job.how {
        How::Nothing => Outcome::of(alloc, 0, Bytes::new(alloc), Files::new(alloc)),
        How::Unit => compiled(alloc, input),
        How::Program(_) => compiled(alloc, input),
    }
}

fn compiled(alloc: Global, input: &Input) -> Result<Outcome, AllocError>
    requires needs { length input.now.needs.now ≡ length input.now.job.now.needs }
    requires named { IsNamed input.now.job.now }
    ensures { IfOk result (λ outcome. outcome
        ≡ compiled (content_of input.now.job.now input.now.needs.now)) }
{
    let needs = Needs::of(input.job.need_apps.as_slice(), input.needs);
    let sources = Source::all_of(alloc, input.job.sources.as_slice())?;
    outcome_of(alloc, &needs, sources.as_slice())
}

fn outcome_of<'a>(
    alloc: Global,
    needs: &Needs<'a>,
    sources: &'a [Source<'a>],
) -> Result<Outcome, AllocError>
    ensures { IfOk result (λ outcome. outcome
        ≡ outcome_of (all_made (needs_in needs.now) [] (map source_in sources.now))) }
{
    let mut product = Product::new(alloc);
    let mut units = Table::new(alloc);
    for source in sources {
        let face = make(alloc, needs, &units, source, &mut product.text)?;
        product.add(face)?;
        note_unit(&mut units, source)?;
    }
    product.into_outcome(alloc)
}

// Adds the unit that a file has.
fn note_unit<'a>(units: &mut Table<'a, ()>, source: &'a Source<'a>) -> Result<(), AllocError>
    ensures { (before : List Read) → HasUnits units.old before
        → OnOk result (HasUnits units.new (before ++ source_in source.now ∷ [])) }
{
    match &source.read {
        Ok(unit) => units.insert(unit.name.as_slice(), ()),
        Err(_) => Ok(()),
    }
}

impl Product {
    fn new(alloc: Global) -> Product
        ensures text { result.text.items ≡ [] }
        ensures faces { result.faces.entries ≡ [] }
        ensures failed { result.failed ≡ false }
    {
        Product {
            text: Vec::new(alloc),
            faces: BTreeMap::new(alloc),
            failed: false,
        }
    }

    // Adds the face of a file, or that it had an error.
    fn add(&mut self, face: Option<File>) -> Result<(), AllocError>
        ensures text { self.new.text ≡ self.old.text }
        ensures faces { OnOk result (self.new.faces.entries
            ≡ with_face self.old.faces.entries face) }
        ensures failed { OnOk result (self.new.failed ≡ (self.old.failed || is_none face)) }
    {
        match face {
            Some(File { path, bytes }) => {
                self.faces.insert(path, bytes)?;
            }
            None => self.failed = true,
        }
        Ok(())
    }

    fn into_outcome(self, alloc: Global) -> Result<Outcome, AllocError>
        requires { AreInOrder (map file_of self.faces.entries) }
        ensures { IfOk result (λ outcome. outcome
            ≡ outcome_with_all self.failed self.text.items self.faces.entries) }
    {
        let Product {
            mut text,
            faces,
            failed,
        } = self;
        text.truncate(MOST_TEXT);
        if failed {
            return Outcome::of(alloc, 1, Bytes::from_vec(text), Files::new(alloc));
        }
        let files = files_of(alloc, faces)?;
        Outcome::of(alloc, 0, Bytes::from_vec(text), files)
    }
}

// Files in the order of their paths.
fn files_of(alloc: Global, faces: BTreeMap<RelPath, Bytes>) -> Result<Files, AllocError>
    requires { AreInOrder (map file_of faces.entries) }
    ensures { IfOk result (λ files. files ≡ map file_of faces.entries) }
{
    let mut files = Vec::new(alloc);
    for (path, bytes) in faces {
        files.push(File { path, bytes })?;
    }
    Ok(Files::from_vec(files))
}
