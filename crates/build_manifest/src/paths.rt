// Paths of rows, read byte by byte.
ghost use Rattle.std.specs.Option.{option_copied};
ghost use Rattle.std.specs.Prelude.{◌≡◌, ◌<◌, ◌≤◌, ◌↔◌, ◌++◌, ◌∷◌, [], ℕ, List, length, drop, slice_get, MatchResult, IfSome, IfNone, IsTrue, Some};
ghost use Rattle.reading.specs.Field.{Stops};
ghost use Rattle.mx_base.specs.Path.{is_refused};
ghost use Rattle.build_manifest.specs.Fields.{NextPath, StopsBy, ended};
ghost use Rattle.build_manifest.specs.Paths.{EndsCharacters, EndsOrder, EndsPath, EndsSegments, GoesOnAbove, IsStart, MayEnd};
ghost use Rattle.build_manifest.specs.declared.paths.Order.TheVariants.{Same};
ghost use Rattle.std.specs.Str.{IsUtf8};

use mx_base::RelPath;
use reading::{Fault, Stuck, stuck_at};
use std::alloc::Global;
use std::str;

// What a segment has so far.
#[derive(Clone, Copy)]
enum Segment {
    Nothing,
    Dot,
    TwoDots,
    Name,
}

// How a path stands to the one that it has to come after.
#[derive(Clone, Copy)]
enum Order {
    // It has been the same so far.
    Same,
    After,
}

// Which bytes may come next in UTF-8: so many bytes of a character are missing, and the next of them is
// in this range (Unicode, table 3-7).
#[derive(Clone, Copy)]
struct Missing {
    count: u8,
    low: u8,
    high: u8,
}

#[derive(Clone, Copy)]
struct Place {
    segment: Segment,
    order: Order,
    missing: Missing,
}

const NONE_MISSING: Missing = Missing {
    count: 0,
    low: 0x80,
    high: 0xBF,
};

fn expecting(count: u8, low: u8, high: u8) -> Missing
    ensures { result ≡ record { count = count; low = low; high = high } }
{
    Missing { count, low, high }
}

// Past the first byte of a character.
fn after_first(byte: u8) -> Option<Missing>
    ensures some { IfSome result (λ missing. GoesOnAbove missing × ((bytes : List ℕ)
        → IsUtf8 (byte ∷ bytes) ↔ EndsCharacters missing bytes)) }
    ensures none { IfNone result ((bytes : List ℕ) → IsUtf8 (byte ∷ bytes) → ⊥) }
{
    match byte {
        0x00..=0x7F => Some(NONE_MISSING),
        0xC2..=0xDF => Some(expecting(1, 0x80, 0xBF)),
        0xE0 => Some(expecting(2, 0xA0, 0xBF)),
        0xED => Some(expecting(2, 0x80, 0x9F)),
        0xE1..=0xEF => Some(expecting(2, 0x80, 0xBF)),
        0xF0 => Some(expecting(3, 0x90, 0xBF)),
        0xF1..=0xF3 => Some(expecting(3, 0x80, 0xBF)),
        0xF4 => Some(expecting(3, 0x80, 0x8F)),
        _ => None,
    }
}

fn next_missing(now: Missing, byte: u8) -> Option<Missing>
    ensures some { IfSome result (λ next. GoesOnAbove next × ((bytes : List ℕ)
        → EndsCharacters now (byte ∷ bytes) ↔ EndsCharacters next bytes)) }
    ensures none { IfNone result ((bytes : List ℕ) → EndsCharacters now (byte ∷ bytes) → ⊥) }
{
    if now.count == 0 {
        return after_first(byte);
    }
    if byte < now.low || now.high < byte {
        return None;
    }
    Some(expecting(now.count - 1, 0x80, 0xBF))
}

// A control, or a backslash.
fn is_refused(byte: u8) -> bool
    ensures { result ≡ is_refused byte }
{
    byte < 32 || byte == 127 || byte == b'\\'
}

// Past a slash, which ends a segment.
fn after_slash(now: Segment) -> Option<Segment>
    ensures some { IfSome result (λ next. (bytes : List ℕ)
        → EndsSegments now (47 ∷ bytes) ↔ EndsSegments next bytes) }
    ensures none { IfNone result ((bytes : List ℕ) → EndsSegments now (47 ∷ bytes) → ⊥) }
{
    match now {
        Segment::Name => Some(Segment::Nothing),
        Segment::Nothing | Segment::Dot | Segment::TwoDots => None,
    }
}

// Past a dot.
fn after_dot(now: Segment) -> Segment
    ensures { (bytes : List ℕ) → EndsSegments now (46 ∷ bytes) ↔ EndsSegments result bytes }
{
    match now {
        Segment::Nothing => Segment::Dot,
        Segment::Dot => Segment::TwoDots,
        Segment::TwoDots | Segment::Name => Segment::Name,
    }
}

fn next_segment(now: Segment, byte: u8) -> Option<Segment>
    ensures some { IfSome result (λ next. (bytes : List ℕ)
        → EndsSegments now (byte ∷ bytes) ↔ EndsSegments next bytes) }
    ensures none { IfNone result ((bytes : List ℕ) → EndsSegments now (byte ∷ bytes) → ⊥) }
{
    if byte == b'/' {
        return after_slash(now);
    }
    if is_refused(byte) {
        return None;
    }
    if byte == b'.' {
        return Some(after_dot(now));
    }
    Some(Segment::Name)
}

// `other` is the byte that the path before has here.
fn next_order(now: Order, byte: u8, other: Option<u8>) -> Option<Order>
    ensures some { IfSome result (λ next. (earlier bytes : List ℕ) → slice_get earlier 0 ≡ other
        → EndsOrder now earlier (byte ∷ bytes) ↔ EndsOrder next (drop 1 earlier) bytes) }
    ensures same { IfSome result (λ next. next ≡ Same → (now ≡ Same) × (other ≡ Some byte)) }
    ensures none { IfNone result ((earlier bytes : List ℕ) → slice_get earlier 0 ≡ other
        → EndsOrder now earlier (byte ∷ bytes) → ⊥) }
{
    match (now, other) {
        (Order::After, _) => Some(Order::After),
        (Order::Same, None) => Some(Order::After),
        (Order::Same, Some(other)) if byte == other => Some(Order::Same),
        (Order::Same, Some(other)) if byte > other => Some(Order::After),
        _ => None,
    }
}

fn next_place(now: Place, byte: u8, other: Option<u8>) -> Option<Place>
    ensures some { IfSome result (λ next. (earlier bytes : List ℕ) → slice_get earlier 0 ≡ other
        → EndsPath now earlier (byte ∷ bytes) ↔ EndsPath next (drop 1 earlier) bytes) }
    ensures goes_on { IfSome result (λ next. GoesOnAbove next.missing) }
    ensures same { IfSome result (λ next. next.order ≡ Same
        → (now.order ≡ Same) × (other ≡ Some byte)) }
    ensures none { IfNone result ((earlier bytes : List ℕ) → slice_get earlier 0 ≡ other
        → EndsPath now earlier (byte ∷ bytes) → ⊥) }
{
    Some(Place {
        segment: next_segment(now.segment, byte)?,
        order: next_order(now.order, byte, other)?,
        missing: next_missing(now.missing, byte)?,
    })
}

// A path of so many bytes may end here.
fn may_end(place: Place, length: usize) -> bool
    ensures { IsTrue result ↔ MayEnd place length }
{
    matches!(place.order, Order::After)
        && place.missing.count == 0
        && (matches!(place.segment, Segment::Name) || length == 0)
}

// The bytes of the path before, or none, and where a path that has to come after it begins.
fn start(before: Option<&RelPath>) -> (&[u8], Place)
    ensures { IsStart (option_copied before.entry) result.0.now result.1 }
{
    let (earlier, order) = match before {
        Some(path) => (path.as_str().as_bytes(), Order::Same),
        None => (b"".as_slice(), Order::After),
    };
    let place = Place {
        segment: Segment::Nothing,
        order,
        missing: NONE_MISSING,
    };
    (earlier, place)
}

fn byte_at(bytes: &[u8], i: usize) -> Option<u8>
    ensures { result ≡ slice_get bytes.now i }
{
    bytes.get(i).copied()
}

// The path at the front of a text, which a newline ends.
fn path_front<'a>(before: Option<&RelPath>, text: &'a [u8]) -> Result<(&'a [u8], &'a [u8]), Stuck>
    ensures { MatchResult result
        (λ read. NextPath (option_copied before.entry) read.0.now
        × (text.now ≡ ended read.0.now ++ read.1.now))
        (λ stuck. Stops ended (NextPath (option_copied before.entry)) text.now
        stuck.left) }
{
    let (earlier, first) = start(before);
    let mut place = first;
    'bytes: for i in 0..text.len() {
        if text[i] == b'\n' && may_end(place, i) {
            return Ok((&text[..i], &text[i + 1..]));
        }
        let Some(next) = next_place(place, text[i], byte_at(earlier, i)) else {
            return Err(stuck_at(&text[i..]));
        };
        place = next;
    }
    Err(stuck_at(&text[text.len()..]))
}

/// The path at the front and the newline behind it.
pub(crate) fn read_path<'a>(
    alloc: Global,
    before: Option<&RelPath>,
    text: &'a [u8],
) -> Result<(RelPath, &'a [u8]), Fault>
    ensures { MatchResult result
        (λ read. NextPath (option_copied before.entry) read.0
        × (text.now ≡ ended read.0 ++ read.1.now))
        (StopsBy ended (NextPath (option_copied before.entry)) text.now) }
{
    let (front, rest) = path_front(before, text)?;
    match str::from_utf8(front) {
        Ok(path) => Ok((RelPath::from_text(String::from_str(alloc, path)?), rest)),
        Err(_) => unreachable!(),
    }
}
