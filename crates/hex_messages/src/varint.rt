// Numbers on the wire.
ghost use Rattle.std.specs.Prelude.{◌≡◌, ◌<◌, IfOk, IfErr, OnOk};
ghost use Rattle.hex_messages.specs.Varint.{digit};
ghost use Rattle.hex_messages.specs.Faults.{VarintFault};
ghost use Rattle.hex_messages.specs.Reading.{BeginsVarint};
ghost use Rattle.hex_messages.specs.Writing.{AppendsVarint};

use crate::error::WireCause;
use std::alloc::AllocError;

/// The most bytes that a varint has.
const MAX_BYTES: usize = 10;

/// The number that a text begins with, and the text after it.
pub(crate) fn split_varint(text: &[u8]) -> Result<(u64, &[u8]), WireCause>
    ensures read { IfOk result (λ split. BeginsVarint text.now split.0 split.1.now) }
    ensures refused { IfErr result (λ cause. VarintFault text.now cause) }
{
    let mut number: u128 = 0;
    let mut unit: u128 = 1;
    let most = text.len().min(MAX_BYTES);
    for index in 0..most {
        let byte = text[index];
        number += unit * u128::from(digit(byte));
        if byte < 128 {
            return match u64::try_from(number) {
                Ok(number) => Ok((number, &text[index + 1..])),
                Err(_) => Err(WireCause::BadVarint),
            };
        }
        unit *= 128;
    }
    if most < MAX_BYTES {
        Err(WireCause::Truncated)
    } else {
        Err(WireCause::BadVarint)
    }
}

/// The digit that a byte carries.
fn digit(byte: u8) -> u8
    ensures value { result ≡ digit byte }
    ensures small { result < 128 }
{
    if byte < 128 { byte } else { byte - 128 }
}

/// Writes the shortest varint of a number.
pub(crate) fn push_varint(out: &mut Vec<u8>, number: u64) -> Result<(), AllocError>
    ensures { OnOk result (AppendsVarint out.old.items out.new.items number) }
{
    let mut rest = number;
    while rest >= 128 {
        out.push((rest % 128) as u8 + 128)?;
        rest /= 128;
    }
    out.push(rest as u8)?;
    Ok(())
}
