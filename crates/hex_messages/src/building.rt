// Values from messages that have no fault.
ghost use Rattle.std.specs.Prelude.{◌≡◌, ◌≢◌, ◌≤◌, true, Some, option_map, IfOk};
ghost use Rattle.hex_messages.specs.declared.message.Message.TheVariants as message;
ghost use Rattle.hex_messages.specs.Good.{IsWhole, has};
ghost use Rattle.hex_messages.specs.Schema.{retired_number};
ghost use Rattle.hex_messages.specs.Stands.{Stands, StandsRelease, StandsDependency, StandsRetirement, Each, all_bytes, last_bytes, last_number, is_set, reason_number};
ghost use Rattle.hex_messages.specs.Finding.{InFields, InMerged, HasWire};

use crate::finding::{find, last, last_merged};
use crate::message::Message;
use crate::package::{Dependencies, Dependency, Package, Reason, Release, Releases, Retired};
use mx_base::{Bytes, ListOf, Text};
use std::alloc::{AllocError, Global};

/// The package that a message without a fault stands for.
pub(crate) fn package_of(alloc: Global, text: &[u8]) -> Result<Package, AllocError>
    requires { IsWhole message.Package text.now }
    ensures { IfOk result (λ whole. Stands text.now whole) }
{
    Ok(Package {
        releases: releases_of(alloc, text)?,
        name: Text::from_slice(alloc, required(Message::Package, 2, text))?,
        repository: Text::from_slice(alloc, required(Message::Package, 3, text))?,
    })
}

fn releases_of(alloc: Global, text: &[u8]) -> Result<Releases, AllocError>
    requires { IsWhole message.Package text.now }
    ensures { IfOk result (λ releases. InFields message.Package text.now (λ fields.
        Each StandsRelease (all_bytes 1 fields) releases)) }
{
    let mut releases = ListOf::new(alloc);
    let mut rest = text;
    while let Some((value, after)) = find(Message::Package, 1, rest) {
        releases.push(release_of(alloc, value.bytes())?)?;
        rest = after;
    }
    Ok(releases)
}

fn release_of(alloc: Global, text: &[u8]) -> Result<Release, AllocError>
    requires { IsWhole message.Release text.now }
    ensures { IfOk result (λ release. StandsRelease text.now release) }
{
    Ok(Release {
        version: Text::from_slice(alloc, required(Message::Release, 1, text))?,
        inner_checksum: Bytes::from_slice(alloc, required(Message::Release, 2, text))?,
        dependencies: dependencies_of(alloc, text)?,
        retired: retired_of(alloc, text)?,
        outer_checksum: checksum_of(alloc, given(Message::Release, 5, text))?,
    })
}

fn dependencies_of(alloc: Global, text: &[u8]) -> Result<Dependencies, AllocError>
    requires { IsWhole message.Release text.now }
    ensures { IfOk result (λ dependencies. InFields message.Release text.now (λ fields.
        Each StandsDependency (all_bytes 3 fields) dependencies)) }
{
    let mut dependencies = ListOf::new(alloc);
    let mut rest = text;
    while let Some((value, after)) = find(Message::Release, 3, rest) {
        dependencies.push(dependency_of(alloc, value.bytes())?)?;
        rest = after;
    }
    Ok(dependencies)
}

fn dependency_of(alloc: Global, text: &[u8]) -> Result<Dependency, AllocError>
    requires { IsWhole message.Dependency text.now }
    ensures { IfOk result (λ dependency. StandsDependency text.now dependency) }
{
    Ok(Dependency {
        package: Text::from_slice(alloc, required(Message::Dependency, 1, text))?,
        requirement: Text::from_slice(alloc, required(Message::Dependency, 2, text))?,
        optional: is_optional(text),
        app: text_of(alloc, given(Message::Dependency, 4, text))?,
        repository: text_of(alloc, given(Message::Dependency, 5, text))?,
    })
}

/// Whether a dependency is optional.
fn is_optional(text: &[u8]) -> bool
    ensures { InFields message.Dependency text.now (λ fields.
        result ≡ is_set (last_number 3 fields)) }
{
    match last(Message::Dependency, 3, text) {
        Some(value) => value.varint() != 0,
        None => false,
    }
}

/// The merged retirement of a release, where there is one.
fn retired_of(alloc: Global, text: &[u8]) -> Result<Option<Retired>, AllocError>
    requires { IsWhole message.Release text.now }
    ensures { IfOk result (λ retired. InMerged text.now (λ fields merged.
        StandsRetirement (has retired_number fields) merged retired)) }
{
    let Some(reason) = last_merged(1, text) else {
        return Ok(None);
    };
    Ok(Some(Retired {
        reason: reason_of(reason.varint()),
        message: text_of(alloc, given_merged(2, text))?,
    }))
}

/// The reason with this number.
fn reason_of(number: u64) -> Reason
    ensures { number ≤ 4 → reason_number result ≡ number }
{
    match number {
        0 => Reason::Other,
        1 => Reason::Invalid,
        2 => Reason::Security,
        3 => Reason::Deprecated,
        _ => Reason::Renamed,
    }
}

/// The bytes of a field that is not absent.
fn required(message: Message, number: u64, text: &[u8]) -> &[u8]
    requires { HasWire message number 2 }
    ensures { InFields message text.now (λ fields. has number fields ≡ true
        → last_bytes number fields ≡ Some result.now) }
{
    match last(message, number, text) {
        Some(value) => value.bytes(),
        None => &[],
    }
}

/// The bytes of a field that may be absent.
fn given(message: Message, number: u64, text: &[u8]) -> Option<&[u8]>
    requires { HasWire message number 2 }
    ensures { InFields message text.now (λ fields.
        option_map (λ b. b.now) result ≡ last_bytes number fields) }
{
    match last(message, number, text) {
        Some(value) => Some(value.bytes()),
        None => None,
    }
}

/// The same of a field of the merged retirement of a release.
fn given_merged(number: u64, text: &[u8]) -> Option<&[u8]>
    requires { HasWire message.Retired number 2 }
    ensures { InMerged text.now (λ fields merged.
        option_map (λ b. b.now) result ≡ last_bytes number merged) }
{
    match last_merged(number, text) {
        Some(value) => Some(value.bytes()),
        None => None,
    }
}

/// A copy of a text, where there is one.
fn text_of(alloc: Global, bytes: Option<&[u8]>) -> Result<Option<Text>, AllocError>
    ensures { IfOk result (λ text. text ≡ option_map (λ b. b.now) bytes.entry) }
{
    match bytes {
        Some(bytes) => Ok(Some(Text::from_slice(alloc, bytes)?)),
        None => Ok(None),
    }
}

/// A copy of a checksum, where there is one.
fn checksum_of(alloc: Global, bytes: Option<&[u8]>) -> Result<Option<Bytes>, AllocError>
    ensures { IfOk result (λ checksum. checksum ≡ option_map (λ b. b.now) bytes.entry) }
{
    match bytes {
        Some(bytes) => Ok(Some(Bytes::from_slice(alloc, bytes)?)),
        None => Ok(None),
    }
}
