// Fields of texts, read. A reader gives what it read and what is left of the text, or how many bytes are
// left where no text goes on. It takes no memory.
ghost use Rattle.std.specs.Prelude.{◌≡◌, ◌⊎◌, ◌+◌, ◌-◌, ◌*◌, ◌^◌, ◌<◌, ◌≤◌, ◌++◌, ◌∷◌, [], length, decimal, IfNone, IfSome, MatchResult};
ghost use Rattle.reading.specs.Plain.{Always, AreSoMany, IsBelow, IsNoDigit, bytes_text, literal_text, number_text};
ghost use Rattle.reading.specs.Field.{Stops};
ghost use Rattle.build_manifest.specs.Mark.{limit};
ghost use Rattle.build_manifest.specs.Text.{block_text};
ghost use Rattle.build_manifest.specs.Fields.{Block};

use reading::{Stuck, stuck_at};

// Numbers are below this.
const LIMIT: u64 = 1 << 63;

//// What is left after these bytes, which have to stand here.
pub(crate) fn after_literal<'a>(literal: &[u8], text: &'a [u8]) -> Result<&'a [u8], Stuck>
    ensures { MatchResult result (λ rest. text.now ≡ literal.now ++ rest.now)
        (λ stuck. Stops (literal_text literal.now) Always text.now stuck.left) }
{
    'bytes: for i in 0..literal.len() {
        if i == text.len() {
            return Err(stuck_at(&text[i..]));
        }
        if text[i] != literal[i] {
            return Err(stuck_at(&text[i..]));
        }
    }
    Ok(&text[literal.len()..])
}

// The number with one digit more, where it stays below the limit. None follows a leading zero.
fn with_digit(value: u64, byte: u8) -> Option<u64>
    requires { value < limit }
    ensures some { IfSome result (λ more. (more ≡ value * 10 + (byte - 48)) × (more < limit)
        × (48 ≤ byte) × (byte ≤ 57) × (0 < value)) }
    ensures none { IfNone result (IsNoDigit byte
        ⊎ ((value ≡ 0) ⊎ (limit ≤ value * 10 + (byte - 48)))) }
{
    if !byte.is_ascii_digit() || value == 0 {
        return None;
    }
    let more = value.checked_mul(10)?.checked_add(u64::from(byte - b'0'))?;
    if more < LIMIT { Some(more) } else { None }
}

// The value of a decimal digit.
fn digit_of(byte: u8) -> Option<u8>
    ensures some { IfSome result (λ digit. (byte ≡ 48 + digit) × (digit < 10)) }
    ensures none { IfNone result (IsNoDigit byte) }
{
    if byte.is_ascii_digit() {
        Some(byte - b'0')
    } else {
        None
    }
}

/// The number at the front of the text, and the byte that has to stand behind it.
pub(crate) fn read_number(end: u8, text: &[u8]) -> Result<(u64, &[u8]), Stuck>
    requires { IsNoDigit end }
    ensures { MatchResult result
        (λ read. (read.0 < limit) × (text.now ≡ number_text end read.0 ++ read.1.now))
        (λ stuck. Stops (number_text end) (IsBelow limit) text.now stuck.left) }
{
    let [first, rest @ ..] = text else {
        return Err(stuck_at(text));
    };
    let Some(digit) = digit_of(*first) else {
        return Err(stuck_at(text));
    };
    read_digits(end, u64::from(digit), rest)
}

// The digits after the first, and the byte that has to stand behind them.
fn read_digits(end: u8, first: u64, text: &[u8]) -> Result<(u64, &[u8]), Stuck>
    requires end { IsNoDigit end }
    requires first { first < 10 }
    ensures { MatchResult result
        (λ read. (read.0 < limit)
        × (decimal first ++ text.now ≡ number_text end read.0 ++ read.1.now))
        (λ stuck. Stops (number_text end) (IsBelow limit) (decimal first ++ text.now) stuck.left) }
{
    let mut value = first;
    'digits: for i in 0..text.len() {
        let byte = text[i];
        if byte == end {
            return Ok((value, &text[i + 1..]));
        }
        let Some(more) = with_digit(value, byte) else {
            return Err(stuck_at(&text[i..]));
        };
        value = more;
    }
    Err(stuck_at(&text[text.len()..]))
}

// So many bytes.
fn read_bytes(count: u64, text: &[u8]) -> Result<(&[u8], &[u8]), Stuck>
    ensures { MatchResult result
        (λ read. (length read.0.now ≡ count) × (text.now ≡ read.0.now ++ read.1.now))
        (λ stuck. Stops bytes_text (AreSoMany count) text.now stuck.left) }
{
    if count > text.len() as u64 {
        return Err(Stuck { left: 0 });
    }
    let count = count as usize;
    Ok((&text[..count], &text[count..]))
}

/// So many bytes after their number, between a word and a newline.
pub(crate) fn read_block<'a>(word: &[u8], text: &'a [u8]) -> Result<(&'a [u8], &'a [u8]), Stuck>
    ensures { MatchResult result
        (λ read. Block read.0.now × (text.now ≡ block_text word.now read.0.now ++ read.1.now))
        (λ stuck. Stops (block_text word.now) Block text.now stuck.left) }
{
    let rest = after_literal(word, text)?;
    let (count, rest) = read_number(b'\n', rest)?;
    let (bytes, rest) = read_bytes(count, rest)?;
    let rest = after_literal(b"\n", rest)?;
    Ok((bytes, rest))
}
