// The first fault of a message.
ghost use Rattle.std.specs.Prelude.{◌≡◌, ◌<◌, ◌+◌, ◌^◌, ◌&&◌, ◌∷◌, [], length, not, Some, None, OnOk, IfErr, if◌then◌else◌};
ghost use Rattle.hex_messages.specs.Fields.{wire_type};
ghost use Rattle.hex_messages.specs.Good.{AllGood, IsWhole, Misses, has};
ghost use Rattle.hex_messages.specs.Schema.{field_at, retired_number};
ghost use Rattle.hex_messages.specs.Faults.{IsOwnWire};
ghost use Rattle.hex_messages.specs.Reading.{payload_of, field_of};
ghost use Rattle.hex_messages.specs.Finding.{InFields, InMerged};
ghost use Rattle.hex_messages.specs.Checking.{IsPlaced, BlamesField, FaultFrom};

use crate::error::{FieldName, WireCause, WireError};
use crate::finding::{find, last_merged};
use crate::message::Message;
use crate::schema::{Kind, RETIRED, field_at};
use crate::wire::{Wire, split_field};
use std::str;

/// Finds the first fault of a message, which begins at this place of the whole input.
#[cycle(check)]
pub(crate) fn check_message(message: Message, start: u64, text: &[u8]) -> Result<(), WireError>
    requires { start + length text.now < 2 ^ 64 }
    ensures whole { OnOk result (IsWhole message text.now) }
    ensures refused { IfErr result (λ error. FaultFrom message start text.now error) }
{
    let mut rest = text;
    while !rest.is_empty() {
        let at = start + (text.len() - rest.len()) as u64;
        let (wire, after) = match split_field(message, at, rest) {
            Ok(split) => split,
            Err(cause) => return Err(WireError { at, cause }),
        };
        check_field(message, &wire)?;
        rest = after;
    }
    match missing(message, text) {
        Some(name) => Err(WireError {
            at: start + text.len() as u64,
            cause: WireCause::Missing(name),
        }),
        None => Ok(()),
    }
}

/// Finds the first fault of a field that is spelled in full.
#[cycle(check)]
fn check_field(message: Message, wire: &Wire<'_>) -> Result<(), WireError>
    requires own { IsOwnWire (field_at message wire.now.number)
        (wire_type (payload_of wire.now.value)) }
    requires placed { IsPlaced wire.now }
    ensures good { OnOk result (AllGood message (field_of wire.now ∷ [])) }
    ensures refused { IfErr result (λ error. BlamesField message wire.now error) }
{
    let Some(known) = field_at(message, wire.number) else {
        return Ok(());
    };
    match known.kind {
        Kind::Bytes | Kind::Truth => Ok(()),
        Kind::Text => match str::from_utf8(wire.value.bytes()) {
            Ok(_) => Ok(()),
            Err(_) => Err(WireError {
                at: wire.at,
                cause: WireCause::BadUtf8(known.name),
            }),
        },
        Kind::Reason => {
            if wire.value.varint() <= 4 {
                Ok(())
            } else {
                Err(WireError {
                    at: wire.at,
                    cause: WireCause::BadEnum,
                })
            }
        }
        Kind::Inner(inner) => {
            let (start, bytes) = wire.inner();
            check_message(inner, start, bytes)
        }
    }
}

/// The first field that is missing at the end of a message whose fields may stand.
fn missing(message: Message, text: &[u8]) -> Option<FieldName>
    ensures { InFields message text.now (λ fields. Misses message fields result) }
{
    match message {
        Message::Package => absent(message, 2, FieldName::Name, text).or(absent(
            message,
            3,
            FieldName::Repository,
            text,
        )),
        Message::Release => lost_reason(text)
            .or(absent(message, 1, FieldName::Version, text))
            .or(absent(message, 2, FieldName::InnerChecksum, text)),
        Message::Dependency => absent(message, 1, FieldName::Package, text).or(absent(
            message,
            2,
            FieldName::Requirement,
            text,
        )),
        Message::Retired => None,
    }
}

/// The name of the field with this number, where it is absent.
fn absent(message: Message, number: u64, name: FieldName, text: &[u8]) -> Option<FieldName>
    ensures { InFields message text.now (λ fields.
        result ≡ (if has number fields then None else Some name)) }
{
    match find(message, number, text) {
        Some(_) => None,
        None => Some(name),
    }
}

/// The name of a reason, where the merged retirement of a release has none.
fn lost_reason(text: &[u8]) -> Option<FieldName>
    ensures { InMerged text.now (λ fields merged. result
        ≡ (if has retired_number fields && not (has 1 merged) then Some FieldName.Reason
        else None)) }
{
    match (find(Message::Release, RETIRED, text), last_merged(1, text)) {
        (Some(_), None) => Some(FieldName::Reason),
        _ => None,
    }
}
