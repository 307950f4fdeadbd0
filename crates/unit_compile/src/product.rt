// What unit files give: lines of text, and faces.
ghost use Rattle.std.specs.Prelude.{◌≡◌, ◌++◌, List, IsTrue, IfOk, OnOk, map};
ghost use Rattle.mx_base.specs.AppName.{is_app_name};
ghost use Rattle.unit_compile.specs.Complaints.{said};
ghost use Rattle.unit_compile.specs.Faces.{face_name};
ghost use Rattle.unit_compile.specs.Lines.{scope_after};
ghost use Rattle.unit_compile.specs.Said.{error_line, place_of, warning_line};
ghost use Rattle.unit_compile.specs.Units.{Source as Read, made, made_unit, warning_lines};
ghost use Rattle.unit_compile.specs.Values.{empty_scope};
ghost use Rattle.unit_compile.specs.Views.{HasUnits, needs_in, source_in, warning_in};

use crate::complaint::{Complaint, push_text};
use crate::face::face_text;
use crate::needs::Needs;
use crate::scope::scope_of;
use crate::source::Source;
use crate::table::Table;
use crate::warning::{Warning, warnings_of};
use mx_base::{AppName, File, NameError, RelPath, Stack, Text, push_decimal};
use std::alloc::{AllocError, Global};
use unit_lang::Unit;

/// What a file gives where these units are there already: adds its lines to the text, and answers its face where
/// there is no error.
pub(crate) fn make<'a>(
    alloc: Global,
    needs: &Needs<'a>,
    units: &Table<()>,
    source: &'a Source<'a>,
    text: &mut Vec<u8>,
) -> Result<Option<File>, AllocError>
    ensures text { (before : List Read) → HasUnits units.now before → OnOk result (text.new.items
        ≡ text.old.items ++ (made (needs_in needs.now) before (source_in source.now)).text) }
    ensures face { (before : List Read) → HasUnits units.now before → IfOk result (λ face. face
        ≡ (made (needs_in needs.now) before (source_in source.now)).face) }
{
    match &source.read {
        Err(error) => {
            push_error(
                alloc,
                text,
                source.path,
                error.line,
                Complaint::Malformed(&error.cause),
            )?;
            Ok(None)
        }
        Ok(unit) => {
            if units.has(unit.name.as_slice()) {
                push_error(
                    alloc,
                    text,
                    source.path,
                    unit.line,
                    Complaint::UnitThere(&unit.name),
                )?;
                return Ok(None);
            }
            make_unit(alloc, needs, source.path, unit, text)
        }
    }
}

// What a unit gives.
fn make_unit<'a>(
    alloc: Global,
    needs: &Needs<'a>,
    path: &RelPath,
    unit: &'a Unit,
    text: &mut Vec<u8>,
) -> Result<Option<File>, AllocError>
    requires { IsTrue (is_app_name unit.now.name) }
    ensures text { OnOk result (text.new.items ≡ text.old.items ++ (made_unit path.now unit.now
        (scope_after (needs_in needs.now) empty_scope unit.now.lines)).text) }
    ensures face { IfOk result (λ face. face ≡ (made_unit path.now unit.now
        (scope_after (needs_in needs.now) empty_scope unit.now.lines)).face) }
{
    match scope_of(alloc, needs, unit.lines.as_slice())? {
        Err(mistake) => {
            push_error(alloc, text, path, mistake.line, mistake.complaint)?;
            Ok(None)
        }
        Ok(scope) => {
            let warnings = warnings_of(alloc, unit.lines.as_slice())?;
            push_warnings(alloc, text, path, warnings)?;
            let bytes = face_text(alloc, &scope.exports)?;
            let path = face_path(alloc, &unit.name)?;
            Ok(Some(File { path, bytes }))
        }
    }
}

// The path of a unit's face.
#[tactic(auto, using(mx_base::proofs::NameLemmas::name_with_ending))]
fn face_path(alloc: Global, unit: &Text) -> Result<RelPath, AllocError>
    requires { IsTrue (is_app_name unit.now) }
    ensures { IfOk result (λ path. path ≡ face_name unit.now) }
{
    let name = name_of(alloc, unit)?;
    let mut file = String::from_str(alloc, name.as_str())?;
    file.push_str(".face")?;
    RelPath::root(alloc).child(alloc, file.as_str())
}

// A unit's name is a name.
fn name_of(alloc: Global, unit: &Text) -> Result<AppName, AllocError>
    requires { IsTrue (is_app_name unit.now) }
    ensures { IfOk result (λ name. name ≡ unit.now) }
{
    match AppName::of(alloc, unit.as_slice()) {
        Ok(name) => Ok(name),
        Err(NameError::OutOfMemory) => Err(AllocError),
        Err(_) => unreachable!(),
    }
}

fn push_error(
    alloc: Global,
    text: &mut Vec<u8>,
    path: &RelPath,
    line: u32,
    complaint: Complaint,
) -> Result<(), AllocError>
    ensures { OnOk result (text.new.items
        ≡ text.old.items ++ error_line path.now line (said complaint.entry)) }
{
    push_place(alloc, text, path, line)?;
    push_text(text, ": error: ")?;
    complaint.push_to(text)?;
    push_text(text, "\n")
}

fn push_warnings(
    alloc: Global,
    text: &mut Vec<u8>,
    path: &RelPath,
    warnings: Stack<Warning>,
) -> Result<(), AllocError>
    ensures { OnOk result (text.new.items
        ≡ text.old.items ++ warning_lines path.now (map warning_in warnings)) }
{
    let mut left = warnings;
    while let Some(warning) = left.pop() {
        push_warning(alloc, text, path, &warning)?;
    }
    Ok(())
}

fn push_warning(
    alloc: Global,
    text: &mut Vec<u8>,
    path: &RelPath,
    warning: &Warning,
) -> Result<(), AllocError>
    ensures { OnOk result (text.new.items
        ≡ text.old.items ++ warning_line path.now warning.now.line warning.now.text) }
{
    push_place(alloc, text, path, warning.line)?;
    push_text(text, ": warning: ")?;
    text.extend_from_slice(warning.text.as_slice())?;
    push_text(text, "\n")
}

fn push_place(
    alloc: Global,
    text: &mut Vec<u8>,
    path: &RelPath,
    line: u32,
) -> Result<(), AllocError>
    ensures { OnOk result (text.new.items ≡ text.old.items ++ place_of path.now line) }
{
    push_text(text, path.as_str())?;
    push_text(text, ":")?;
    push_decimal(alloc, text, u64::from(line))
}
