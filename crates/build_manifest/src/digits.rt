// Digests in hexadecimal digits, read.
ghost use Rattle.std.specs.Prelude.{◌≡◌, ℕ, ◌<◌, ◌++◌, slice_index, IfNone, IfSome, MatchResult};
ghost use Rattle.hex.specs.Hex.{encode_lower, lower_digits};
ghost use Rattle.reading.specs.Field.{Stops};
ghost use Rattle.mx_base.specs.Digest.{IsDigest};
ghost use Rattle.build_manifest.specs.Fields.{IsByte, byte_text, lead_text};

use crate::fields::after_literal;
use mx_base::Digest32;
use reading::{Stuck, stuck_at};

// The value of a digit, where letters are in lower case.
fn digit_value(byte: u8) -> Option<u8>
    ensures some { IfSome result (λ value. (value < 16) × (slice_index lower_digits value ≡ byte)) }
    ensures none { IfNone result ((value : ℕ) → value < 16
        → slice_index lower_digits value ≡ byte → ⊥) }
{
    match byte {
        b'0'..=b'9' => Some(byte - b'0'),
        b'a'..=b'f' => Some(byte - b'a' + 10),
        _ => None,
    }
}

// A byte as two digits.
fn read_byte(text: &[u8]) -> Result<(u8, &[u8]), Stuck>
    ensures { MatchResult result
        (λ read. IsByte read.0 × (text.now ≡ byte_text read.0 ++ read.1.now))
        (λ stuck. Stops byte_text IsByte text.now stuck.left) }
{
    let [first, after @ ..] = text else {
        return Err(stuck_at(text));
    };
    let Some(high) = digit_value(*first) else {
        return Err(stuck_at(text));
    };
    let [second, rest @ ..] = after else {
        return Err(stuck_at(after));
    };
    let Some(low) = digit_value(*second) else {
        return Err(stuck_at(after));
    };
    Ok((high * 16 + low, rest))
}

/// A digest as 64 digits.
pub(crate) fn read_digest(text: &[u8]) -> Result<(Digest32, &[u8]), Stuck>
    ensures { MatchResult result
        (λ read. IsDigest read.0 × (text.now ≡ encode_lower read.0 ++ read.1.now))
        (λ stuck. Stops encode_lower IsDigest text.now stuck.left) }
{
    let mut bytes = [0; 32];
    let mut rest = text;
    'bytes: for i in 0..32 {
        let (byte, after) = read_byte(rest)?;
        bytes[i] = byte;
        rest = after;
    }
    Ok((Digest32::from_bytes(bytes), rest))
}

/// A digest and the space behind it.
pub(crate) fn read_lead(text: &[u8]) -> Result<(Digest32, &[u8]), Stuck>
    ensures { MatchResult result
        (λ read. IsDigest read.0 × (text.now ≡ lead_text read.0 ++ read.1.now))
        (λ stuck. Stops lead_text IsDigest text.now stuck.left) }
{
    let (digest, rest) = match read_digest(text) {
        Ok(read) => read,
        Err(stuck) => return Err(stuck),
    };
    let rest = after_literal(b" ", rest)?;
    Ok((digest, rest))
}
