// What may stand between tokens.
ghost use Rattle.std.specs.Prelude.{◌≡◌, ◌≤◌, ◌<◌, length, option_map, IfSome};
ghost use Rattle.term_tokens.specs.Tokens.{Blanks, line_end};
ghost use Rattle.term_tokens.specs.Lexing.{past_blank};

use crate::bytes::is_blank;

/// The text from its first byte on that is no blank and begins no comment.
#[tactic(auto, using(crate::proofs::BlankLemmas::blanks_from_past, crate::proofs::BlankLemmas::blanks_none))]
pub fn skip_blanks(text: &[u8]) -> &[u8]
    ensures blanks { Blanks text.now result.now }
    ensures solid { past_blank result.now ≡ None }
    ensures shorter { length result.now ≤ length text.now }
{
    let mut rest = text;
    while let Some(after) = past_blank(rest) {
        rest = after;
    }
    rest
}

/// The text after the blank or the comment that it begins with.
fn past_blank(text: &[u8]) -> Option<&[u8]>
    ensures value { option_map (λ rest. rest.now) result ≡ past_blank text.now }
    ensures shorter { IfSome result (λ rest. length rest.now < length text.now) }
{
    match text {
        [b'#', after @ ..] => Some(line_end(after)),
        [byte, after @ ..] if is_blank(*byte) => Some(after),
        _ => None,
    }
}

/// The text from the end of its first line on.
fn line_end(text: &[u8]) -> &[u8]
    ensures value { result.now ≡ line_end text.now }
    ensures shorter { length result.now ≤ length text.now }
{
    let mut rest = text;
    while let [byte, after @ ..] = rest {
        if *byte == b'\n' {
            break;
        }
        rest = after;
    }
    rest
}
