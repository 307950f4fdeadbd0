// The known fields of each message.
ghost use Rattle.std.specs.Prelude.{◌≡◌, ◌↔◌, IsTrue, MatchOption};
ghost use Rattle.hex_messages.specs.Schema.{known, field_at, wire_of};
ghost use Rattle.hex_messages.specs.Faults.{IsWire};
ghost use Rattle.hex_messages.specs.Reading.{wire_code};

use crate::error::FieldName;
use crate::message::Message;

/// The number of the field `retired` of a release.
pub(crate) const RETIRED: u64 = 4;

/// How a value is spelled.
#[derive(Clone, Copy)]
pub(crate) enum WireType {
    Varint,
    Fixed64,
    Length,
    Fixed32,
}

/// What a value is: a text, bytes of any kind, a truth value, a reason, or a message within.
#[derive(Clone, Copy)]
pub(crate) enum Kind {
    Text,
    Bytes,
    Truth,
    Reason,
    Inner(Message),
}

/// A known field.
#[derive(Clone, Copy)]
pub(crate) struct Known {
    pub(crate) name: FieldName,
    pub(crate) kind: Kind,
}

/// The wire type with this number.
pub(crate) fn wire_type(code: u64) -> Option<WireType>
    ensures { MatchOption result (IsWire code → ⊥) (λ wire. wire_code wire ≡ code) }
{
    match code {
        0 => Some(WireType::Varint),
        1 => Some(WireType::Fixed64),
        2 => Some(WireType::Length),
        5 => Some(WireType::Fixed32),
        _ => None,
    }
}

/// Whether values of the kind are spelled so.
pub(crate) fn is_spelled(kind: Kind, wire: WireType) -> bool
    ensures { IsTrue result ↔ wire_code wire ≡ wire_of kind }
{
    match kind {
        Kind::Truth | Kind::Reason => matches!(wire, WireType::Varint),
        Kind::Text | Kind::Bytes | Kind::Inner(_) => matches!(wire, WireType::Length),
    }
}

/// The field of the message that this number is known for.
pub(crate) fn field_at(message: Message, number: u64) -> Option<Known>
    ensures { result ≡ field_at message number }
{
    match message {
        Message::Package => package_field(number),
        Message::Release => release_field(number),
        Message::Dependency => dependency_field(number),
        Message::Retired => retired_field(number),
    }
}

fn package_field(number: u64) -> Option<Known>
    ensures { result ≡ field_at Message.Package number }
{
    match number {
        1 => some_known(FieldName::Releases, Kind::Inner(Message::Release)),
        2 => some_known(FieldName::Name, Kind::Text),
        3 => some_known(FieldName::Repository, Kind::Text),
        _ => None,
    }
}

fn release_field(number: u64) -> Option<Known>
    ensures { result ≡ field_at Message.Release number }
{
    match number {
        1 => some_known(FieldName::Version, Kind::Text),
        2 => some_known(FieldName::InnerChecksum, Kind::Bytes),
        3 => some_known(FieldName::Dependencies, Kind::Inner(Message::Dependency)),
        4 => some_known(FieldName::Retired, Kind::Inner(Message::Retired)),
        5 => some_known(FieldName::OuterChecksum, Kind::Bytes),
        _ => None,
    }
}

fn dependency_field(number: u64) -> Option<Known>
    ensures { result ≡ field_at Message.Dependency number }
{
    match number {
        1 => some_known(FieldName::Package, Kind::Text),
        2 => some_known(FieldName::Requirement, Kind::Text),
        3 => some_known(FieldName::Optional, Kind::Truth),
        4 => some_known(FieldName::App, Kind::Text),
        5 => some_known(FieldName::Repository, Kind::Text),
        _ => None,
    }
}

fn retired_field(number: u64) -> Option<Known>
    ensures { result ≡ field_at Message.Retired number }
{
    match number {
        1 => some_known(FieldName::Reason, Kind::Reason),
        2 => some_known(FieldName::Message, Kind::Text),
        _ => None,
    }
}

fn some_known(name: FieldName, kind: Kind) -> Option<Known>
    ensures { result ≡ known name kind }
{
    Some(Known { name, kind })
}
