// The identifiers of pre-releases and of build metadata (SemVer 2.0.0, sections 9 and 10).
ghost use Rattle.std.specs.Prelude.{◌≡◌, [], true};
ghost use Rattle.std.specs.List.{list_all};
ghost use Rattle.semver.specs.Grammar.{has_leading_zero, is_identifier_byte};
ghost use Rattle.semver.specs.Order.{is_numeric};
ghost use Rattle.version_req.specs.Reading as Spec;

use crate::scan::{Stuck, stuck_at};

/// Whose identifiers they are: in a pre-release a number has no leading zero.
#[derive(Clone, Copy)]
pub(crate) enum Kind {
    PreRelease,
    Build,
}

fn is_identifier_byte(byte: u8) -> bool
    ensures { result ≡ is_identifier_byte byte }
{
    matches!(byte, b'0'..=b'9' | b'A'..=b'Z' | b'a'..=b'z' | b'-')
}

// Whether these bytes of identifiers are a whole one.
fn is_identifier(kind: Kind, part: &[u8]) -> bool
    requires { list_all is_identifier_byte part.now ≡ true }
    ensures { result ≡ Spec.is_identifier kind part.now }
{
    match kind {
        Kind::PreRelease => !part.is_empty() && !(is_numeric(part) && has_leading_zero(part)),
        Kind::Build => !part.is_empty(),
    }
}

fn is_numeric(part: &[u8]) -> bool
    ensures { result ≡ is_numeric part.now }
{
    part.iter().all(|byte| byte.is_ascii_digit())
}

fn has_leading_zero(part: &[u8]) -> bool
    ensures { result ≡ has_leading_zero part.now }
{
    match part {
        [b'0', rest @ ..] => !rest.is_empty(),
        _ => false,
    }
}

// Identifiers with dots between them, at least one.
fn read_identifiers(kind: Kind, text: &[u8]) -> Result<(&[u8], &[u8]), Stuck>
    ensures { Spec.pair_view result ≡ Spec.identifiers_from kind [] [] text.now }
{
    let mut start = 0;
    'bytes: for i in 0..text.len() {
        let byte = text[i];
        if !is_identifier_byte(byte) {
            if !is_identifier(kind, &text[start..i]) {
                return Err(stuck_at(&text[i..]));
            }
            if byte != b'.' {
                return Ok((&text[..i], &text[i..]));
            }
            start = i + 1;
        }
    }
    let end = text.len();
    if !is_identifier(kind, &text[start..]) {
        return Err(stuck_at(&text[end..]));
    }
    Ok((text, &text[end..]))
}

fn mark(kind: Kind) -> u8
    ensures { result ≡ Spec.mark_of kind }
{
    match kind {
        Kind::PreRelease => b'-',
        Kind::Build => b'+',
    }
}

/// The identifiers after their mark, or none where the mark does not stand.
pub(crate) fn read_marked(kind: Kind, text: &[u8]) -> Result<(&[u8], &[u8]), Stuck>
    ensures { Spec.pair_view result ≡ Spec.marked_of kind text.now }
{
    match text {
        [first, rest @ ..] if *first == mark(kind) => read_identifiers(kind, rest),
        _ => Ok((&text[..0], text)),
    }
}
