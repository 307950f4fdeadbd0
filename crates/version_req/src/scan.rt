// The operator and the numbers of a comparison. A reader gives what it read and what is left of the text,
// or how many bytes are left where no requirement goes on. It takes no memory.
ghost use Rattle.std.specs.Prelude.{◌≡◌, ◌≤◌, ◌-◌, length};
ghost use Rattle.version_req.specs.Reading as Spec;

use crate::operator::Operator;

/// Where no requirement goes on.
#[derive(Clone, Copy)]
pub(crate) struct Stuck {
    /// How many bytes are left there.
    pub(crate) left: usize,
}

/// The operator and the numbers of a comparison.
#[derive(Clone, Copy)]
pub(crate) struct Head {
    pub(crate) operator: Operator,
    pub(crate) major: u64,
    pub(crate) minor: u64,
    pub(crate) patch: u64,
    pub(crate) patch_written: bool,
}

pub(crate) fn stuck_at(text: &[u8]) -> Stuck
    ensures { result ≡ record { left = length text.now } }
{
    Stuck { left: text.len() }
}

pub(crate) fn after_spaces(text: &[u8]) -> &[u8]
    ensures { result.now ≡ Spec.without_spaces text.now }
{
    'bytes: for i in 0..text.len() {
        if text[i] != b' ' {
            return &text[i..];
        }
    }
    &text[text.len()..]
}

// What is left after this byte, which has to stand here.
pub(crate) fn after_byte(byte: u8, text: &[u8]) -> Result<&[u8], Stuck>
    ensures { Spec.text_view result ≡ Spec.after_byte byte text.now }
{
    match text {
        [first, rest @ ..] if *first == byte => Ok(rest),
        _ => Err(stuck_at(text)),
    }
}

// An operator that `=` may make another.
fn with_equal(alone: Operator, both: Operator, text: &[u8]) -> (Operator, &[u8])
    ensures { (result.0, result.1.now) ≡ Spec.with_equal alone both text.now }
{
    match text {
        [b'=', rest @ ..] => (both, rest),
        _ => (alone, text),
    }
}

fn read_operator(text: &[u8]) -> Result<(Operator, &[u8]), Stuck>
    ensures { Spec.read_view result ≡ Spec.operator_of text.now }
{
    match text {
        [b'=', rest @ ..] => Ok((Operator::Equal, after_byte(b'=', rest)?)),
        [b'!', rest @ ..] => Ok((Operator::NotEqual, after_byte(b'=', rest)?)),
        [b'~', rest @ ..] => Ok((Operator::Compatible, after_byte(b'>', rest)?)),
        [b'>', rest @ ..] => Ok(with_equal(Operator::Greater, Operator::GreaterOrEqual, rest)),
        [b'<', rest @ ..] => Ok(with_equal(Operator::Less, Operator::LessOrEqual, rest)),
        _ => Ok((Operator::Equal, text)),
    }
}

// The number with one digit more, which may not follow a leading zero.
fn with_digit(value: u64, digit: u8) -> Option<u64>
    requires low { 48 ≤ digit }
    requires high { digit ≤ 57 }
    ensures { result ≡ Spec.with_digit value (digit - 48) }
{
    if value == 0 {
        return None;
    }
    value.checked_mul(10)?.checked_add(u64::from(digit - b'0'))
}

// The digits after the first.
fn read_digits(first: u64, text: &[u8]) -> Result<(u64, &[u8]), Stuck>
    ensures { Spec.read_view result ≡ Spec.digits_of first text.now }
{
    let mut value = first;
    'digits: for i in 0..text.len() {
        let digit = text[i];
        if !digit.is_ascii_digit() {
            return Ok((value, &text[i..]));
        }
        let Some(more) = with_digit(value, digit) else {
            return Err(stuck_at(&text[i..]));
        };
        value = more;
    }
    Ok((value, &text[text.len()..]))
}

#[tactic(auto, unfolding(crate::specs::Reading::number_of))]
fn read_number(text: &[u8]) -> Result<(u64, &[u8]), Stuck>
    ensures { Spec.read_view result ≡ Spec.number_of text.now }
{
    match text {
        [first, rest @ ..] if first.is_ascii_digit() => read_digits(u64::from(*first - b'0'), rest),
        _ => Err(stuck_at(text)),
    }
}

// Without a patch, which only `~>` allows.
fn short_head(
    operator: Operator,
    major: u64,
    minor: u64,
    text: &[u8],
) -> Result<(Head, &[u8]), Stuck>
    ensures { Spec.read_view result ≡ Spec.short_head operator major minor text.now }
{
    match operator {
        Operator::Compatible => {
            let head = Head {
                operator,
                major,
                minor,
                patch: 0,
                patch_written: false,
            };
            Ok((head, text))
        }
        _ => Err(stuck_at(text)),
    }
}

// A patch and its dot, or neither.
fn read_patch(
    operator: Operator,
    major: u64,
    minor: u64,
    text: &[u8],
) -> Result<(Head, &[u8]), Stuck>
    ensures { Spec.read_view result ≡ Spec.patch_of operator major minor text.now }
{
    match text {
        [b'.', rest @ ..] => {
            let (patch, rest) = read_number(rest)?;
            let head = Head {
                operator,
                major,
                minor,
                patch,
                patch_written: true,
            };
            Ok((head, rest))
        }
        _ => short_head(operator, major, minor, text),
    }
}

/// The operator and the numbers at the front of a text, perhaps after spaces.
#[tactic(auto, unfolding(crate::specs::Reading::head_of))]
pub(crate) fn read_head(text: &[u8]) -> Result<(Head, &[u8]), Stuck>
    ensures { Spec.read_view result ≡ Spec.head_of text.now }
{
    let (operator, rest) = read_operator(after_spaces(text))?;
    let (major, rest) = read_number(after_spaces(rest))?;
    let rest = after_byte(b'.', rest)?;
    let (minor, rest) = read_number(rest)?;
    read_patch(operator, major, minor, rest)
}
