// Faces: the files in which units tell others their values.
ghost use Rattle.std.specs.Prelude.{◌≡◌, ◌≤◌, ◌++◌, ◌==◌, length, map, option_map, OnOk, IfOk};
ghost use Rattle.std.specs.List.{slice_split};
ghost use Rattle.unit_compile.specs.Faces.{export_in, exports_in, face_line, face_text, name_len, value_of};
ghost use Rattle.unit_compile.specs.Views.{export_of, exports_of, in_table};

use crate::complaint::push_text;
use crate::numbers::{number_in, push_number};
use crate::table::Table;
use mx_base::{Bytes, Text};
use std::alloc::{AllocError, Global};
use std::collections::BTreeMap;
use unit_lang::is_name;

/// The exports that a face tells, where the text has the form of one.
pub(crate) fn read_face<'a>(
    alloc: Global,
    text: &'a [u8],
) -> Result<Option<Vec<(&'a [u8], i64)>>, AllocError>
    ensures { IfOk result (λ exports. option_map (λ es. exports_of es.items) exports
        ≡ exports_in text.now) }
{
    let lines = lines_in(alloc, text)?;
    let mut exports = Vec::new(alloc);
    let mut before: &[u8] = b"";
    let mut left = lines.len();
    for line in &lines {
        left -= 1;
        if left == 0 {
            if line.is_empty() {
                return Ok(Some(exports));
            }
            return Ok(None);
        }
        let Some(export) = export_in(alloc, *line)? else {
            return Ok(None);
        };
        if !before.cmp(export.0).is_lt() {
            return Ok(None);
        }
        before = export.0;
        exports.push(export)?;
    }
    Ok(None)
}

// What stands between the newlines of a text.
fn lines_in<'a>(alloc: Global, text: &'a [u8]) -> Result<Vec<&'a [u8]>, AllocError>
    ensures { IfOk result (λ lines. map (λ l. l.now) lines.items
        ≡ slice_split (λ byte. byte == 10) text.now) }
{
    text.split(|byte| *byte == b'\n').collect(alloc)
}

// What a line tells.
fn export_in<'a>(alloc: Global, line: &'a [u8]) -> Result<Option<(&'a [u8], i64)>, AllocError>
    ensures { IfOk result (λ export. option_map export_of export ≡ export_in line.now) }
{
    let (name, rest) = line.split_at(name_len(line));
    if !is_name(name) {
        return Ok(None);
    }
    let Some(number) = rest.strip_prefix(b" = ") else {
        return Ok(None);
    };
    match number_in(alloc, number)? {
        Some(value) => Ok(Some((name, value))),
        None => Ok(None),
    }
}

// How long the name is that a line begins with.
fn name_len(line: &[u8]) -> usize
    ensures value { result ≡ name_len line.now }
    ensures within { result ≤ length line.now }
{
    for (len, byte) in line.iter().enumerate() {
        if *byte == b' ' {
            return len;
        }
    }
    line.len()
}

/// The values by their names.
pub(crate) fn table_of<'a>(
    alloc: Global,
    exports: &[(&'a [u8], i64)],
) -> Result<Table<'a, i64>, AllocError>
    ensures { IfOk result (λ table. in_table table ≡ value_of (exports_of exports.now)) }
{
    let mut table = Table::new(alloc);
    for (name, value) in exports {
        table.insert(*name, *value)?;
    }
    Ok(table)
}

/// The text of a face.
pub(crate) fn face_text(alloc: Global, exports: &BTreeMap<Text, i64>) -> Result<Bytes, AllocError>
    ensures { IfOk result (λ bytes. bytes ≡ face_text exports.now.entries) }
{
    let mut text = Vec::new(alloc);
    for (name, value) in exports.iter() {
        push_export(alloc, &mut text, name, *value)?;
    }
    Ok(Bytes::from_vec(text))
}

fn push_export(alloc: Global, text: &mut Vec<u8>, name: &Text, value: i64) -> Result<(), AllocError>
    ensures { OnOk result (text.new.items ≡ text.old.items ++ face_line (name.now, value)) }
{
    text.extend_from_slice(name.as_slice())?;
    push_text(text, " = ")?;
    push_number(alloc, text, value)?;
    push_text(text, "\n")
}
