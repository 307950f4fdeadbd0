// Where what stands between quotes can no more become UTF-8.
ghost use Rattle.std.specs.Prelude.{◌≡◌, ◌<◌, ◌++◌, ◌∷◌, ◌&&◌, [], IfOk, option_map, length};
ghost use Rattle.std.specs.Char.{is_digit, digit_value};
ghost use Rattle.std.specs.Str.{is_utf8};
ghost use Rattle.term_tokens.specs.Lexed.{can_become, some_low, kept, stuck_digit, stuck_letter, stuck_item, stuck_at};

use crate::bytes::is_utf8;
use crate::strings::{next, push};
use std::alloc::{AllocError, Global};

/// The text from the first byte on with which what it spells can no more become UTF-8, after an opening quote.
///
/// Only whole characters are forgotten, so the bytes at hand are few.
pub fn stuck(alloc: Global, text: &[u8]) -> Result<Option<&[u8]>, AllocError>
    ensures { IfOk result (λ place. option_map (λ rest. rest.now) place ≡ stuck_at text.now) }
{
    let mut bytes = Vec::new(alloc);
    let mut rest = text;
    while let Some((value, after)) = next(rest) {
        let len = bytes.len();
        push(&mut bytes, value)?;
        if !can_become(alloc, bytes.as_slice())? {
            bytes.truncate(len);
            let place = stuck_item(alloc, bytes.as_slice(), rest)?;
            return Ok(Some(place));
        }
        forget_whole(&mut bytes);
        rest = after;
    }
    Ok(None)
}

/// Forgets bytes that are whole characters.
fn forget_whole(bytes: &mut Vec<u8>)
    ensures { bytes.new.items ≡ kept bytes.old.items }
{
    if is_utf8(bytes.as_slice()) {
        bytes.clear();
    }
}

/// The text from that byte on, where a byte or an escape is the first with which nothing may follow the bytes.
fn stuck_item<'a>(alloc: Global, bytes: &[u8], text: &'a [u8]) -> Result<&'a [u8], AllocError>
    ensures { IfOk result (λ rest. rest.now ≡ stuck_item bytes.now text.now) }
{
    match text {
        [b'\\', word @ ..] => stuck_letter(alloc, bytes, word),
        _ => Ok(text),
    }
}

/// The same after a backslash.
fn stuck_letter<'a>(alloc: Global, bytes: &[u8], text: &'a [u8]) -> Result<&'a [u8], AllocError>
    ensures { IfOk result (λ rest. rest.now ≡ stuck_letter bytes.now text.now) }
{
    match text {
        [b'x', digits @ ..] => stuck_digit(alloc, bytes, digits),
        _ => Ok(text),
    }
}

/// The same after `\x`.
fn stuck_digit<'a>(alloc: Global, bytes: &[u8], text: &'a [u8]) -> Result<&'a [u8], AllocError>
    ensures { IfOk result (λ rest. rest.now ≡ stuck_digit bytes.now text.now) }
{
    match text {
        [high, low @ ..] => {
            if goes_on(alloc, bytes, *high)? {
                Ok(low)
            } else {
                Ok(text)
            }
        }
        [] => Ok(text),
    }
}

/// Some byte with this high digit may follow the bytes.
fn goes_on(alloc: Global, bytes: &[u8], high: u8) -> Result<bool, AllocError>
    ensures { IfOk result (λ some. some ≡ (is_digit high 16 && some_low bytes.now
        (digit_value high) 16)) }
{
    match char::from(high).to_digit(16) {
        Some(value) => some_low(alloc, bytes, value as u8),
        None => Ok(false),
    }
}

/// The same of a high digit and any low one.
fn some_low(alloc: Global, bytes: &[u8], high: u8) -> Result<bool, AllocError>
    requires { high < 16 }
    ensures { IfOk result (λ some. some ≡ some_low bytes.now high 16) }
{
    for low in 0..16 {
        if may_follow(alloc, bytes, high * 16 + low)? {
            return Ok(true);
        }
    }
    Ok(false)
}

/// The byte may follow the bytes.
fn may_follow(alloc: Global, bytes: &[u8], byte: u8) -> Result<bool, AllocError>
    ensures { IfOk result (λ can. can ≡ can_become (bytes.now ++ byte ∷ [])) }
{
    let mut more = Vec::new(alloc);
    more.extend_from_slice(bytes)?;
    more.push(byte)?;
    can_become(alloc, more.as_slice())
}

/// The bytes are UTF-8, or may become so with bytes after them.
fn can_become(alloc: Global, bytes: &[u8]) -> Result<bool, AllocError>
    ensures { IfOk result (λ can. can ≡ can_become bytes.now) }
{
    Ok(
        is_utf8(bytes)
            || ends_utf8(alloc, bytes, &[0x80])?
            || ends_utf8(alloc, bytes, &[0x80, 0x80])?
            || ends_utf8(alloc, bytes, &[0x80, 0x80, 0x80])?
            || ends_utf8(alloc, bytes, &[0xA0, 0x80])?
            || ends_utf8(alloc, bytes, &[0x90, 0x80, 0x80])?,
    )
}

/// The bytes with this end are UTF-8.
fn ends_utf8(alloc: Global, bytes: &[u8], end: &[u8]) -> Result<bool, AllocError>
    ensures { IfOk result (λ whole. whole ≡ is_utf8 (bytes.now ++ end.now)) }
{
    let mut whole = Vec::new(alloc);
    whole.extend_from_slice(bytes)?;
    whole.extend_from_slice(end)?;
    Ok(is_utf8(whole.as_slice()))
}
