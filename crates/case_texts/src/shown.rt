// How answers are written.

use crate::fields::Fault;
use std::alloc::{AllocError, Global};

/// A text of more bytes is shown by its length alone.
const LONGEST: usize = 4096;

/// Adds a text as hexadecimal digits, `-` for the empty one, or its length where it is long.
fn push_text(alloc: Global, out: &mut String, text: &[u8]) -> Result<(), AllocError> {
    if text.is_empty() {
        return out.push_str("-");
    }
    if text.len() > LONGEST {
        let length = text.len();
        return write!(out, "{length} bytes");
    }
    let digits = hex::encode(alloc, text)?;
    out.push_str(digits.as_str())
}

/// Adds what is written before a text and then the text.
pub fn push_after(alloc: Global, out: &mut String, before: &str, text: &[u8]) -> Result<(), Fault> {
    out.push_str(before)?;
    push_text(alloc, out, text)?;
    Ok(())
}

/// Adds what needs no digits.
pub fn say(out: &mut String, text: &str) -> Result<(), Fault> {
    out.push_str(text)?;
    Ok(())
}

/// The answer is that a text is refused at a place, for a cause.
pub fn refused(out: &mut String, at: u64, cause: &str) -> Result<(), Fault> {
    write!(out, "refused {at} {cause}")?;
    Ok(())
}
