// Fields of a message by their number.
ghost use Rattle.std.specs.Prelude.{◌≡◌, option_map, false, MatchOption};
ghost use Rattle.hex_messages.specs.Good.{has};
ghost use Rattle.hex_messages.specs.Reading.{payload_of};
ghost use Rattle.hex_messages.specs.Finding.{InFields, InMerged, Finds, last_value};

use crate::message::Message;
use crate::schema::RETIRED;
use crate::wire::{Value, split_field};

/// The value of the first field with this number, and what follows it.
pub(crate) fn find(message: Message, number: u64, text: &[u8]) -> Option<(Value<'_>, &[u8])>
    ensures { MatchOption result (InFields message text.now (λ fields. has number fields ≡ false))
        (λ found. Finds number text.now (payload_of found.0) found.1.now) }
{
    let mut rest = text;
    while !rest.is_empty() {
        let Ok((wire, after)) = split_field(message, 0, rest) else {
            return None;
        };
        if wire.number == number {
            return Some((wire.value, after));
        }
        rest = after;
    }
    None
}

/// The value of the last field with this number.
pub(crate) fn last(message: Message, number: u64, text: &[u8]) -> Option<Value<'_>>
    ensures { InFields message text.now (λ fields.
        option_map payload_of result ≡ last_value number fields) }
{
    let mut found = None;
    let mut rest = text;
    while let Some((value, after)) = find(message, number, rest) {
        found = Some(value);
        rest = after;
    }
    found
}

/// The value of the last field with this number in the merged retirement of a release.
pub(crate) fn last_merged(number: u64, text: &[u8]) -> Option<Value<'_>>
    ensures { InMerged text.now (λ fields merged.
        option_map payload_of result ≡ last_value number merged) }
{
    let mut found = None;
    let mut rest = text;
    while let Some((value, after)) = find(Message::Release, RETIRED, rest) {
        found = last(Message::Retired, number, value.bytes()).or(found);
        rest = after;
    }
    found
}
