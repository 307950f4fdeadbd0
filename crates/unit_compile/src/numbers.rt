// Numbers in faces.
ghost use Rattle.std.specs.Prelude.{◌≡◌, ◌++◌, OnOk, IfOk};
ghost use Rattle.std.specs.Fmt.{signed_decimal};
ghost use Rattle.unit_compile.specs.Faces.{number_in};

use std::alloc::{AllocError, Global};
use std::str;

/// The number that a text is the decimal of, where it is of one.
pub(crate) fn number_in(alloc: Global, text: &[u8]) -> Result<Option<i64>, AllocError>
    ensures { IfOk result (λ number. number ≡ number_in text.now) }
{
    let Ok(digits) = str::from_utf8(text) else {
        return Ok(None);
    };
    let Ok(number) = digits.parse::<i64>() else {
        return Ok(None);
    };
    let decimal = format!(in alloc; "{number}")?;
    if decimal.as_bytes() == text {
        Ok(Some(number))
    } else {
        Ok(None)
    }
}

/// Adds a number in decimal.
pub(crate) fn push_number(alloc: Global, text: &mut Vec<u8>, number: i64) -> Result<(), AllocError>
    ensures { OnOk result (text.new.items ≡ text.old.items ++ signed_decimal number) }
{
    let decimal = format!(in alloc; "{number}")?;
    text.extend_from_slice(decimal.as_bytes())
}
