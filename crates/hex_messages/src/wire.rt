// Fields on the wire.
ghost use Rattle.std.specs.Prelude.{◌≡◌, ◌≢◌, ◌≤◌, ◌<◌, ◌+◌, ◌^◌, ◌++◌, [], length, IfOk, IfErr};
ghost use Rattle.hex_messages.specs.declared.error.WireCause.TheVariants.{Truncated};
ghost use Rattle.hex_messages.specs.declared.message.Message.{Message};
ghost use Rattle.hex_messages.specs.Fields.{Varint, Length, wire_type};
ghost use Rattle.hex_messages.specs.Faults.{ValueFault, FieldFault};
ghost use Rattle.hex_messages.specs.Reading.{wire_code, payload_of, field_of, BeginsKey, BeginsValue, BeginsField};
ghost use Rattle.hex_messages.specs.Checking.{IsPlaced};

use crate::error::WireCause;
use crate::message::Message;
use crate::schema::{WireType, field_at, is_spelled, wire_type};
use crate::varint::split_varint;

/// The greatest number that a field has.
const GREATEST_NUMBER: u64 = 536_870_911;

/// The value of a field.
#[derive(Clone, Copy)]
pub(crate) enum Value<'a> {
    Varint(u64),
    Fixed64(&'a [u8]),
    Length(&'a [u8]),
    Fixed32(&'a [u8]),
}

/// A field, and where it stands in the whole input.
#[derive(Clone, Copy)]
pub(crate) struct Wire<'a> {
    /// The place of its key.
    pub(crate) at: u64,
    /// The place behind its value.
    pub(crate) end: u64,
    pub(crate) number: u64,
    pub(crate) value: Value<'a>,
}

impl<'a> Value<'a> {
    /// The number of a varint.
    pub(crate) fn varint(&self) -> u64
        ensures { wire_type (payload_of self.now) ≡ 0 → payload_of self.now ≡ Varint result }
    {
        match *self {
            Value::Varint(number) => number,
            _ => 0,
        }
    }

    /// The bytes of a value with a length.
    pub(crate) fn bytes(&self) -> &'a [u8]
        ensures { wire_type (payload_of self.now) ≡ 2 → payload_of self.now ≡ Length result.now }
    {
        match *self {
            Value::Length(bytes) => bytes,
            _ => &[],
        }
    }
}

impl<'a> Wire<'a> {
    /// The message within: where it begins, and its bytes.
    pub(crate) fn inner(&self) -> (u64, &'a [u8])
        requires { IsPlaced self.now }
        ensures ends { result.0 + length result.1.now ≡ self.now.end }
        ensures after { self.now.at ≤ result.0 }
        ensures fits { result.0 + length result.1.now < 2 ^ 64 }
        ensures value { wire_type (payload_of self.now.value) ≡ 2
            → payload_of self.now.value ≡ Length result.1.now }
    {
        let end = self.end;
        match self.value {
            Value::Length(bytes) => (end - bytes.len() as u64, bytes),
            _ => (end, &[]),
        }
    }
}

/// The key that a text begins with, and the text after it.
fn split_key(text: &[u8]) -> Result<(u64, WireType, &[u8]), WireCause>
    ensures read { IfOk result (λ key. BeginsKey text.now key.0 (wire_code key.1) key.2.now) }
    ensures refused { IfErr result (λ cause.
        (m : Message) → text.now ≢ [] → FieldFault m text.now 0 cause) }
{
    let (key, rest) = split_varint(text)?;
    let number = key / 8;
    match wire_type(key % 8) {
        Some(wire) if number >= 1 && number <= GREATEST_NUMBER => Ok((number, wire, rest)),
        _ => Err(WireCause::BadKey),
    }
}

/// The value of the wire type that a text begins with, and the text after it.
fn split_value(wire: WireType, text: &[u8]) -> Result<(Value<'_>, &[u8]), WireCause>
    ensures read { IfOk result (λ split.
        BeginsValue text.now (wire_code wire) (payload_of split.0) split.1.now) }
    ensures refused { IfErr result (λ cause. ValueFault (wire_code wire) text.now cause) }
{
    match wire {
        WireType::Varint => {
            let (number, rest) = split_varint(text)?;
            Ok((Value::Varint(number), rest))
        }
        WireType::Fixed64 => {
            let (bytes, rest) = split_bytes(text, 8)?;
            Ok((Value::Fixed64(bytes), rest))
        }
        WireType::Length => {
            let (size, after) = split_varint(text)?;
            let (bytes, rest) = split_bytes(after, size)?;
            Ok((Value::Length(bytes), rest))
        }
        WireType::Fixed32 => {
            let (bytes, rest) = split_bytes(text, 4)?;
            Ok((Value::Fixed32(bytes), rest))
        }
    }
}

/// So many bytes from the front, and the rest.
fn split_bytes(text: &[u8], size: u64) -> Result<(&[u8], &[u8]), WireCause>
    ensures front { IfOk result (λ split. length split.0.now ≡ size) }
    ensures whole { IfOk result (λ split. text.now ≡ split.0.now ++ split.1.now) }
    ensures cause { IfErr result (λ cause. cause ≡ Truncated) }
    ensures short { IfErr result (λ cause. length text.now < size) }
{
    if size > text.len() as u64 {
        return Err(WireCause::Truncated);
    }
    Ok(text.split_at(size as usize))
}

/// The field that a text begins with, which stands at this place of the whole input, and the text after it.
pub(crate) fn split_field(
    message: Message,
    at: u64,
    text: &[u8],
) -> Result<(Wire<'_>, &[u8]), WireCause>
    requires some { text.now ≢ [] }
    requires within { at + length text.now < 2 ^ 64 }
    ensures read { IfOk result (λ split.
        BeginsField message text.now (field_of split.0) split.1.now) }
    ensures at { IfOk result (λ split. split.0.at ≡ at) }
    ensures end { IfOk result (λ split. split.0.end + length split.1.now ≡ at + length text.now) }
    ensures refused { IfErr result (λ cause. FieldFault message text.now 0 cause) }
{
    let (number, wire, after) = split_key(text)?;
    if let Some(known) = field_at(message, number) {
        if !is_spelled(known.kind, wire) {
            return Err(WireCause::WrongWire(known.name));
        }
    }
    let (value, rest) = split_value(wire, after)?;
    let end = at + (text.len() - rest.len()) as u64;
    Ok((
        Wire {
            at,
            end,
            number,
            value,
        },
        rest,
    ))
}
