// The texts of marks, written.
ghost use Rattle.std.specs.Prelude.{◌≡◌, ◌++◌, ◌∷◌, [], length, codes, flat_map, decimal, IfOk, OnOk};
ghost use Rattle.hex.specs.Hex.{encode_lower};
ghost use Rattle.mx_base.specs.Listing.{row_text};
ghost use Rattle.build_manifest.specs.Mark.{HasNoMore, diagnosed, plain, source_lines};
ghost use Rattle.build_manifest.specs.Text.{Spells, block_text, format_text, line_text, lines_text, need_text};

use crate::mark::{Mark, MarkFormat};
use mx_base::{AppName, Bytes, Digest32, FileRow};
use std::alloc::{AllocError, Global};

/// The text of a mark.
pub fn write_mark(alloc: Global, mark: &Mark) -> Result<Bytes, AllocError>
    ensures { IfOk result (λ bytes. Spells bytes mark.now) }
{
    let mut text = Vec::new(alloc);
    push_format(&mut text, &mark.format)?;
    push_block(alloc, &mut text, b"options ", mark.options.as_slice())?;
    push_sources(alloc, &mut text, &mark.format, mark.sources.as_slice())?;
    push_needs(alloc, &mut text, mark.needs.as_slice())?;
    push_outputs(alloc, &mut text, mark.outputs.as_slice())?;
    push_block(alloc, &mut text, b"text ", mark.text.as_slice())?;
    text.extend_from_slice(b"end\n")?;
    Ok(Bytes::from_vec(text))
}

fn push_format(text: &mut Vec<u8>, format: &MarkFormat) -> Result<(), AllocError>
    ensures { OnOk result (text.new.items ≡ text.old.items ++ format_text format.now) }
{
    match format {
        MarkFormat::One => text.extend_from_slice(b"mark 1\n"),
        MarkFormat::Two { .. } => text.extend_from_slice(b"mark 2\n"),
    }
}

// A number and the byte behind it.
fn push_number(alloc: Global, text: &mut Vec<u8>, number: u64, end: u8) -> Result<(), AllocError>
    ensures { OnOk result (text.new.items ≡ text.old.items ++ (decimal number ++ end ∷ [])) }
{
    let digits = format!(in alloc; "{number}")?;
    text.extend_from_slice(digits.as_bytes())?;
    text.push(end)?;
    Ok(())
}

fn push_block(
    alloc: Global,
    text: &mut Vec<u8>,
    word: &[u8],
    bytes: &[u8],
) -> Result<(), AllocError>
    ensures { OnOk result (text.new.items ≡ text.old.items ++ block_text word.now bytes.now) }
{
    text.extend_from_slice(word)?;
    push_number(alloc, text, bytes.len() as u64, b'\n')?;
    text.extend_from_slice(bytes)?;
    text.push(b'\n')?;
    Ok(())
}

// A digest and a space.
fn push_digest(text: &mut Vec<u8>, digest: &Digest32) -> Result<(), AllocError>
    ensures { OnOk result (text.new.items ≡ text.old.items
        ++ (encode_lower digest.now ++ 32 ∷ [])) }
{
    text.extend_from_slice(&digest.digits())?;
    text.push(b' ')?;
    Ok(())
}

fn push_row(alloc: Global, text: &mut Vec<u8>, row: &FileRow) -> Result<(), AllocError>
    ensures { OnOk result (text.new.items ≡ text.old.items ++ row_text row.now) }
{
    push_digest(text, &row.digest)?;
    push_number(alloc, text, row.length, b' ')?;
    text.extend_from_slice(row.path.as_str().as_bytes())?;
    text.push(b'\n')?;
    Ok(())
}

fn push_rows(alloc: Global, text: &mut Vec<u8>, rows: &[FileRow]) -> Result<(), AllocError>
    ensures { OnOk result (text.new.items ≡ text.old.items ++ flat_map line_text (plain rows.now)) }
{
    for row in rows {
        push_row(alloc, text, row)?;
    }
    Ok(())
}

// Each row behind its digest.
fn push_diagnosed(
    alloc: Global,
    text: &mut Vec<u8>,
    digests: &[Digest32],
    rows: &[FileRow],
) -> Result<(), AllocError>
    requires { length digests.now ≡ length rows.now }
    ensures { OnOk result (text.new.items ≡ text.old.items
        ++ flat_map line_text (diagnosed digests.now rows.now)) }
{
    for i in 0..rows.len() {
        push_digest(text, &digests[i])?;
        push_row(alloc, text, &rows[i])?;
    }
    Ok(())
}

fn push_sources(
    alloc: Global,
    text: &mut Vec<u8>,
    format: &MarkFormat,
    rows: &[FileRow],
) -> Result<(), AllocError>
    requires { HasNoMore format.now rows.now }
    ensures { OnOk result (text.new.items ≡ text.old.items
        ++ lines_text (codes "sources ") line_text (source_lines format.now rows.now)) }
{
    text.extend_from_slice(b"sources ")?;
    push_number(alloc, text, rows.len() as u64, b'\n')?;
    match format {
        MarkFormat::One => push_rows(alloc, text, rows),
        MarkFormat::Two { diagnostics } => {
            push_diagnosed(alloc, text, diagnostics.as_slice(), rows)
        }
    }
}

fn push_outputs(alloc: Global, text: &mut Vec<u8>, rows: &[FileRow]) -> Result<(), AllocError>
    ensures { OnOk result (text.new.items ≡ text.old.items
        ++ lines_text (codes "outputs ") line_text (plain rows.now)) }
{
    text.extend_from_slice(b"outputs ")?;
    push_number(alloc, text, rows.len() as u64, b'\n')?;
    push_rows(alloc, text, rows)
}

fn push_need(text: &mut Vec<u8>, need: &(Digest32, AppName)) -> Result<(), AllocError>
    ensures { OnOk result (text.new.items ≡ text.old.items ++ need_text need.now) }
{
    push_digest(text, &need.0)?;
    text.extend_from_slice(need.1.as_str().as_bytes())?;
    text.push(b'\n')?;
    Ok(())
}

fn push_needs(
    alloc: Global,
    text: &mut Vec<u8>,
    needs: &[(Digest32, AppName)],
) -> Result<(), AllocError>
    ensures { OnOk result (text.new.items ≡ text.old.items
        ++ lines_text (codes "needs ") need_text needs.now) }
{
    text.extend_from_slice(b"needs ")?;
    push_number(alloc, text, needs.len() as u64, b'\n')?;
    for need in needs {
        push_need(text, need)?;
    }
    Ok(())
}
