// The blanks and the comment of a line.
ghost use Rattle.std.specs.Prelude.{◌≡◌, ◌≤◌, ◌++◌, ◌⊎◌, ℕ, List, [], length, IsTrue};
ghost use Rattle.unit_lang.specs.Lexing.{plain_len};
ghost use Rattle.unit_lang.specs.Tokens.{without_blanks, without_comment};
ghost use Rattle.unit_lang.specs.Lines.{are_blanks, ends_solid};

use crate::bytes::is_blank;

/// The text without the blanks at its beginning.
pub(crate) fn skip_blanks(text: &[u8]) -> &[u8]
    ensures value { result.now ≡ without_blanks text.now }
    ensures shorter { length result.now ≤ length text.now }
{
    let mut rest = text;
    while let [byte, after @ ..] = rest {
        if !is_blank(*byte) {
            break;
        }
        rest = after;
    }
    rest
}

/// The text without the blanks at its end.
pub(crate) fn trim_end(text: &[u8]) -> &[u8]
    ensures blanks { (after : List ℕ)
        × IsTrue (are_blanks after) × (text.now ≡ result.now ++ after) }
    ensures solid { (result.now ≡ []) ⊎ IsTrue (ends_solid result.now) }
{
    let mut rest = text;
    while let [before @ .., byte] = rest {
        if !is_blank(*byte) {
            break;
        }
        rest = before;
    }
    rest
}

/// The line without its comment.
pub(crate) fn before_comment(line: &[u8]) -> &[u8]
    ensures { result.now ≡ without_comment line.now }
{
    line.split_at(plain_len(line)).0
}

/// How many bytes stand before a comment.
fn plain_len(line: &[u8]) -> usize
    ensures value { result ≡ plain_len line.now }
    ensures within { result ≤ length line.now }
{
    for (len, byte) in line.iter().enumerate() {
        if *byte == b'#' {
            return len;
        }
    }
    line.len()
}
