// Numbers in decimal, without sign or leading zeros.
ghost use Rattle.std.specs.Prelude.{◌≡◌, ◌<◌, ◌≤◌, ◌^◌, ℕ, decimal, IfSome, IfNone};
ghost use Rattle.mix_words.specs.Numbers.{IsNumber, is_plain};

/// The number that a text spells, where it is within these bounds.
pub(crate) fn read_number(low: u32, high: u32, text: &str) -> Option<u32>
    ensures some { IfSome result (IsNumber low high text.now) }
    ensures none { IfNone result ((number : ℕ) → IsNumber low high text.now number → ⊥) }
{
    let number = spelled(text)?;
    if low <= number && number <= high {
        Some(number)
    } else {
        None
    }
}

// The number that a text spells.
fn spelled(text: &str) -> Option<u32>
    ensures some { IfSome result (λ number. text.now ≡ decimal number) }
    ensures none { IfNone result ((number : ℕ) → number < 2 ^ 32 → text.now ≡ decimal number → ⊥) }
{
    if !is_plain(text) {
        return None;
    }
    match text.parse::<u32>() {
        Ok(number) => Some(number),
        Err(_) => None,
    }
}

// Whether a text has a digit first, and none behind a leading zero.
fn is_plain(text: &str) -> bool
    ensures { result ≡ is_plain text.now }
{
    match text.as_bytes() {
        [first, rest @ ..] => first.is_ascii_digit() && (*first > b'0' || rest.is_empty()),
        [] => false,
    }
}

/// The number of partitions that a text says, as the words and the count variable do: from 1 to 64, in decimal
/// without sign or leading zeros. Any other text says none.
pub fn read_count(text: &str) -> Option<u32>
    ensures some { IfSome result (IsNumber 1 64 text.now) }
    ensures none { IfNone result ((count : ℕ) → IsNumber 1 64 text.now count → ⊥) }
{
    read_number(1, 64, text)
}
