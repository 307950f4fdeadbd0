// Marks, read.
ghost use Rattle.std.specs.Prelude.{◌≡◌, ◌<◌, ◌++◌, [], Bool, codes, false, flat_map, Err, IfNone, IfSome, MatchResult};
ghost use Rattle.mx_base.specs.Blame.{Computes};
ghost use Rattle.reading.specs.Field.{ListFits, Stops};
ghost use Rattle.reading.specs.Plain.{Always};
ghost use Rattle.build_manifest.specs.Fields.{AreSources, LinesFit, StopsBy, form_text, tag_digit, tag_text};
ghost use Rattle.build_manifest.specs.Mark.{IsMark, LineFits, NeedFits, limit, plain, source_lines};
ghost use Rattle.build_manifest.specs.Refusal.{IsReading, blame_of};
ghost use Rattle.build_manifest.specs.Text.{line_text, lines_text, mark_text, need_text};

use crate::error::MarkError;
use crate::fields::{after_literal, read_block, read_number};
use crate::mark::{Mark, MarkFormat, Need};
use crate::needs::{Needs, read_need};
use crate::rows::{Rows, read_rows};
use mx_base::{Bytes, ListOf, Listing};
use reading::{Fault, Stuck, stuck_at};
use std::alloc::Global;

// Whether the digit of a first line is that of the second form.
fn is_second_form(digit: u8) -> Option<bool>
    ensures some { IfSome result (λ is_second. digit ≡ tag_digit is_second) }
    ensures none { IfNone result ((is_second : Bool) → digit ≡ tag_digit is_second → ⊥) }
{
    match digit {
        b'1' => Some(false),
        b'2' => Some(true),
        _ => None,
    }
}

// The digit of a first line, and the newline behind it.
fn read_form(text: &[u8]) -> Result<(bool, &[u8]), Stuck>
    ensures { MatchResult result (λ read. text.now ≡ form_text read.0 ++ read.1.now)
        (λ stuck. Stops form_text Always text.now stuck.left) }
{
    let [digit, rest @ ..] = text else {
        return Err(stuck_at(text));
    };
    let Some(is_second) = is_second_form(*digit) else {
        return Err(stuck_at(text));
    };
    let rest = after_literal(b"\n", rest)?;
    Ok((is_second, rest))
}

// Whether the first line is that of the second form.
fn read_format(text: &[u8]) -> Result<(bool, &[u8]), Stuck>
    ensures { MatchResult result (λ read. text.now ≡ tag_text read.0 ++ read.1.now)
        (λ stuck. Stops tag_text Always text.now stuck.left) }
{
    let rest = after_literal(b"mark ", text)?;
    let (is_second, rest) = read_form(rest)?;
    Ok((is_second, rest))
}

// So many needs.
fn read_listed<'a>(
    alloc: Global,
    count: u64,
    text: &'a [u8],
) -> Result<(Vec<Need>, &'a [u8]), Fault>
    requires { count < limit }
    ensures { MatchResult result
        (λ read. ListFits NeedFits count [] read.0.items
        × (text.now ≡ flat_map need_text read.0.items ++ read.1.now))
        (StopsBy (flat_map need_text) (ListFits NeedFits count []) text.now) }
{
    let mut needs = Needs::new(alloc);
    let mut rest = text;
    'needs: for _ in 0..count {
        let (need, after) = read_need(alloc, &needs, rest)?;
        needs = needs.with(need)?;
        rest = after;
    }
    Ok((needs.into_vec(), rest))
}

fn read_needs<'a>(alloc: Global, text: &'a [u8]) -> Result<(Vec<Need>, &'a [u8]), Fault>
    ensures { MatchResult result
        (λ read. LinesFit NeedFits read.0.items
        × (text.now ≡ lines_text (codes "needs ") need_text read.0.items ++ read.1.now))
        (StopsBy (lines_text (codes "needs ") need_text) (LinesFit NeedFits) text.now) }
{
    let rest = after_literal(b"needs ", text)?;
    let (count, rest) = read_number(b'\n', rest)?;
    let (needs, rest) = read_listed(alloc, count, rest)?;
    Ok((needs, rest))
}

// The form of a mark, and its sources.
fn read_sources<'a>(
    alloc: Global,
    is_second: bool,
    text: &'a [u8],
) -> Result<((MarkFormat, Listing), &'a [u8]), Fault>
    ensures { MatchResult result
        (λ read. AreSources is_second read.0 × (text.now
        ≡ lines_text (codes "sources ") line_text (source_lines read.0.0 read.0.1)
        ++ read.1.now))
        (StopsBy (lines_text (codes "sources ") line_text) (LinesFit (LineFits is_second))
        text.now) }
{
    let (sources, rest) = read_rows(alloc, b"sources ", is_second, text)?;
    let Rows { digests, rows } = sources;
    let format = if is_second {
        MarkFormat::Two {
            diagnostics: ListOf::from_vec(digests),
        }
    } else {
        drop(digests);
        MarkFormat::One
    };
    Ok(((format, Listing::from_vec(rows)), rest))
}

fn read_outputs<'a>(alloc: Global, text: &'a [u8]) -> Result<(Listing, &'a [u8]), Fault>
    ensures { MatchResult result
        (λ read. LinesFit (LineFits false) (plain read.0)
        × (text.now ≡ lines_text (codes "outputs ") line_text (plain read.0) ++ read.1.now))
        (StopsBy (lines_text (codes "outputs ") line_text) (LinesFit (LineFits false)) text.now) }
{
    let (outputs, rest) = read_rows(alloc, b"outputs ", false, text)?;
    let Rows { digests, rows } = outputs;
    drop(digests);
    Ok((Listing::from_vec(rows), rest))
}

// The mark at the front of the text.
fn read_front<'a>(alloc: Global, text: &'a [u8]) -> Result<(Mark, &'a [u8]), Fault>
    ensures { MatchResult result
        (λ read. IsMark read.0 × (text.now ≡ mark_text read.0 ++ read.1.now))
        (StopsBy mark_text IsMark text.now) }
{
    let (is_second, rest) = read_format(text)?;
    let (options, rest) = read_block(b"options ", rest)?;
    let ((format, sources), rest) = read_sources(alloc, is_second, rest)?;
    let (needs, rest) = read_needs(alloc, rest)?;
    let (outputs, rest) = read_outputs(alloc, rest)?;
    let (written, rest) = read_block(b"text ", rest)?;
    let rest = after_literal(b"end\n", rest)?;
    let mark = Mark {
        format,
        options: Bytes::from_slice(alloc, options)?,
        sources,
        needs: ListOf::from_vec(needs),
        outputs,
        text: Bytes::from_slice(alloc, written)?,
    };
    Ok((mark, rest))
}

/// The mark whose text the bytes are.
///
/// # Errors
///
/// `Refused` where they are the text of none, at the length of their longest prefix that begins one;
/// `OutOfMemory` says nothing of them.
pub fn read_mark(alloc: Global, bytes: &[u8]) -> Result<Mark, MarkError>
    ensures { Computes blame_of result (IsReading bytes.now) }
{
    let (mark, rest) = match read_front(alloc, bytes) {
        Ok(read) => read,
        Err(fault) => return Err(refusal(bytes, fault)),
    };
    if !rest.is_empty() {
        drop(mark);
        return Err(MarkError::Refused {
            at: (bytes.len() - rest.len()) as u64,
        });
    }
    Ok(mark)
}

// What is answered where the reader of the front ended early.
fn refusal(bytes: &[u8], fault: Fault) -> MarkError
    requires { StopsBy mark_text IsMark bytes.now fault }
    ensures { Computes blame_of (Err result) (IsReading bytes.now) }
{
    match fault {
        Fault::Stuck(stuck) => MarkError::Refused {
            at: (bytes.len() - stuck.left) as u64,
        },
        Fault::OutOfMemory => MarkError::OutOfMemory,
    }
}
