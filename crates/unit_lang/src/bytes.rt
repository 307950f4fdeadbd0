// Kinds of bytes, and the names and numbers that are made of them.
ghost use Rattle.std.specs.Prelude.{◌≡◌, ◌+◌, ◌*◌, ◌-◌, ◌≤◌, ◌&&◌, Some, None, nat_le, IfSome, if◌then◌else◌};
ghost use Rattle.std.specs.Char.{is_ascii_digit};
ghost use Rattle.std.specs.List.{list_all};
ghost use Rattle.unit_lang.specs.Lines.{greatest};
ghost use Rattle.unit_lang.specs.Names.{is_blank, is_small_letter, is_name_byte, is_name, are_digits, is_word_byte};
ghost use Rattle.unit_lang.specs.Lexing.{number_of};

/// The most bytes that a name has.
const LONGEST_NAME: usize = 64;

/// The greatest number.
const GREATEST: u64 = 9_223_372_036_854_775_807;

/// A space or a tab.
pub(crate) fn is_blank(byte: u8) -> bool
    ensures { result ≡ is_blank byte }
{
    byte == b' ' || byte == b'\t'
}

fn is_small_letter(byte: u8) -> bool
    ensures { result ≡ is_small_letter byte }
{
    b'a' <= byte && byte <= b'z'
}

/// What a name goes on with: a small letter, a digit or `_`.
fn is_name_byte(byte: u8) -> bool
    ensures { result ≡ is_name_byte byte }
{
    is_small_letter(byte) || byte.is_ascii_digit() || byte == b'_'
}

/// What a word is made of.
pub(crate) fn is_word_byte(byte: u8) -> bool
    ensures { result ≡ is_word_byte byte }
{
    is_name_byte(byte) || (b'A' <= byte && byte <= b'Z') || byte == b'.'
}

/// Whether the bytes are a name: a small letter and what goes on, at most 64 bytes.
pub fn is_name(bytes: &[u8]) -> bool
    ensures { result ≡ is_name bytes.now }
{
    match bytes {
        [] => false,
        [first, rest @ ..] => {
            is_small_letter(*first) && all_name_bytes(rest) && bytes.len() <= LONGEST_NAME
        }
    }
}

/// Whether the bytes are decimal digits, at least one.
pub(crate) fn are_digits(bytes: &[u8]) -> bool
    ensures { result ≡ are_digits bytes.now }
{
    match bytes {
        [] => false,
        _ => all_digits(bytes),
    }
}

fn all_name_bytes(bytes: &[u8]) -> bool
    ensures { result ≡ list_all is_name_byte bytes.now }
{
    bytes.iter().all(|byte| is_name_byte(*byte))
}

fn all_digits(bytes: &[u8]) -> bool
    ensures { result ≡ list_all is_ascii_digit bytes.now }
{
    bytes.iter().all(|byte| byte.is_ascii_digit())
}

/// The number that decimal digits stand for, where it is at most 2^63 - 1.
pub(crate) fn number_of(digits: &[u8]) -> Option<u64>
    ensures value { result ≡ number_of digits.now }
    ensures small { IfSome result (λ number. number ≤ greatest) }
{
    let mut value = 0;
    for digit in digits {
        value = number_with(value, *digit)?;
    }
    Some(value)
}

/// The number with one digit more.
fn number_with(value: u64, digit: u8) -> Option<u64>
    requires { value ≤ greatest }
    ensures small { IfSome result (λ more. more ≤ greatest) }
    ensures value { let more = value * 10 + (digit - 48) in
        result ≡ if is_ascii_digit digit && nat_le more greatest then Some more else None }
{
    if !digit.is_ascii_digit() {
        return None;
    }
    let digit = u64::from(digit - b'0');
    if value > (GREATEST - digit) / 10 {
        return None;
    }
    Some(value * 10 + digit)
}
