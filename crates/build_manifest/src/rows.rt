// The rows of a mark, read.
ghost use Rattle.std.specs.Option.{option_copied};
ghost use Rattle.std.specs.Prelude.{◌≡◌, ◌++◌, ◌∷◌, [], flat_map, MatchResult, OnOk};
ghost use Rattle.reading.specs.Field.{ListFits, Stops};
ghost use Rattle.mx_base.specs.Listing.{row_text};
ghost use Rattle.build_manifest.specs.Fields.{IsEarlier, LinesFit, NextLine, NextRow, StopsBy, last_path};
ghost use Rattle.build_manifest.specs.Lines.{AreLines, digest_of, lead_part, lines_of};
ghost use Rattle.build_manifest.specs.Mark.{LeadFits, LineFits};
ghost use Rattle.build_manifest.specs.Text.{line_text, lines_text};

use crate::digits::read_lead;
use crate::fields::{after_literal, read_number};
use crate::paths::read_path;
use mx_base::{Digest32, FileRow, RelPath};
use reading::{Fault, Stuck};
use std::alloc::{AllocError, Global};

/// Rows so far, and the digests in front of them where they have some.
#[derive(Drop)]
pub(crate) struct Rows {
    pub(crate) digests: Vec<Digest32>,
    pub(crate) rows: Vec<FileRow>,
}

/// A row, and the digest in front of it where it has one.
pub(crate) type Line = (Option<Digest32>, FileRow);

impl Rows {
    fn new(alloc: Global) -> Rows
        ensures digests { result.digests.items ≡ [] }
        ensures rows { result.rows.items ≡ [] }
    {
        Rows {
            digests: Vec::new(alloc),
            rows: Vec::new(alloc),
        }
    }

    // With one line more, which has a digest if those before it have one.
    fn push(&mut self, line: Line) -> Result<(), AllocError>
        ensures digests { OnOk result (self.new.digests.items
            ≡ self.old.digests.items ++ digest_of line.0) }
        ensures rows { OnOk result (self.new.rows.items ≡ self.old.rows.items ++ line.1 ∷ []) }
    {
        let (digest, row) = line;
        if let Some(digest) = digest {
            self.digests.push(digest)?;
        }
        self.rows.push(row)?;
        Ok(())
    }
}

// A row that comes after the path before it.
fn read_row<'a>(
    alloc: Global,
    before: Option<&RelPath>,
    text: &'a [u8],
) -> Result<(FileRow, &'a [u8]), Fault>
    requires { IsEarlier (option_copied before) }
    ensures { MatchResult result
        (λ read. NextRow (option_copied before.entry) read.0
        × (text.now ≡ row_text read.0 ++ read.1.now))
        (StopsBy row_text (NextRow (option_copied before.entry)) text.now) }
{
    let (digest, rest) = match read_lead(text) {
        Ok(read) => read,
        Err(stuck) => return Err(Fault::Stuck(stuck)),
    };
    let (length, rest) = read_number(b' ', rest)?;
    let (path, rest) = read_path(alloc, before, rest)?;
    Ok((FileRow::new(path, length, digest), rest))
}

// A digest and the space behind it, where lines have one.
fn read_lead_of(with_digests: bool, text: &[u8]) -> Result<(Option<Digest32>, &[u8]), Stuck>
    ensures { MatchResult result
        (λ read. LeadFits with_digests read.0 × (text.now ≡ lead_part read.0 ++ read.1.now))
        (λ stuck. Stops lead_part (LeadFits with_digests) text.now stuck.left) }
{
    if !with_digests {
        return Ok((None, text));
    }
    match read_lead(text) {
        Ok((digest, rest)) => Ok((Some(digest), rest)),
        Err(stuck) => Err(stuck),
    }
}

// A line whose row comes after the path before it.
fn read_line<'a>(
    alloc: Global,
    with_digests: bool,
    before: Option<&RelPath>,
    text: &'a [u8],
) -> Result<(Line, &'a [u8]), Fault>
    requires { IsEarlier (option_copied before) }
    ensures { MatchResult result
        (λ read. NextLine with_digests (option_copied before.entry) read.0
        × (text.now ≡ line_text read.0 ++ read.1.now))
        (StopsBy line_text (NextLine with_digests (option_copied before.entry))
        text.now) }
{
    let (digest, rest) = match read_lead_of(with_digests, text) {
        Ok(read) => read,
        Err(stuck) => return Err(Fault::Stuck(stuck)),
    };
    let (row, rest) = read_row(alloc, before, rest)?;
    Ok(((digest, row), rest))
}

fn last_path(rows: &[FileRow]) -> Option<&RelPath>
    ensures { option_copied result ≡ last_path rows.now }
{
    match rows {
        [.., last] => Some(&last.path),
        [] => None,
    }
}

// So many lines.
fn read_lines<'a>(
    alloc: Global,
    count: u64,
    with_digests: bool,
    text: &'a [u8],
) -> Result<(Rows, &'a [u8]), Fault>
    ensures { MatchResult result
        (λ read. AreLines (ListFits (LineFits with_digests) count []) with_digests
        read.0.digests.items read.0.rows.items
        × (text.now ≡ flat_map line_text (lines_of with_digests read.0.digests.items
        read.0.rows.items) ++ read.1.now))
        (StopsBy (flat_map line_text) (ListFits (LineFits with_digests) count []) text.now) }
{
    let mut rows = Rows::new(alloc);
    let mut rest = text;
    'lines: for _ in 0..count {
        let before = last_path(&rows.rows);
        let (line, after) = read_line(alloc, with_digests, before, rest)?;
        rows.push(line)?;
        rest = after;
    }
    Ok((rows, rest))
}

/// So many rows after a word and their number, with digests in front of them or without.
pub(crate) fn read_rows<'a>(
    alloc: Global,
    word: &[u8],
    with_digests: bool,
    text: &'a [u8],
) -> Result<(Rows, &'a [u8]), Fault>
    ensures { MatchResult result
        (λ read. AreLines (LinesFit (LineFits with_digests)) with_digests
        read.0.digests.items read.0.rows.items
        × (text.now ≡ lines_text word.now line_text (lines_of with_digests
        read.0.digests.items read.0.rows.items) ++ read.1.now))
        (StopsBy (lines_text word.now line_text) (LinesFit (LineFits with_digests)) text.now) }
{
    let rest = after_literal(word, text)?;
    let (count, rest) = read_number(b'\n', rest)?;
    let (rows, rest) = read_lines(alloc, count, with_digests, rest)?;
    Ok((rows, rest))
}
