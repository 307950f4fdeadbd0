// The writer of messages.
ghost use Rattle.std.specs.Prelude.{◌≡◌, ◌≤◌, ◌∷◌, [], IfOk, OnOk};
ghost use Rattle.hex_messages.specs.Fields.{Varint};
ghost use Rattle.hex_messages.specs.Stands.{reason_number};
ghost use Rattle.hex_messages.specs.Canonical.{IsWritable, Writes, WritesRelease, WritesDependency, WritesFields, bytes_field, truth_field, perhaps, retired_fields};
ghost use Rattle.hex_messages.specs.Writing.{Appends, AppendsEach, AppendsRetired};

use crate::package::{Dependency, Package, Reason, Release, Retired};
use crate::varint::push_varint;
use mx_base::{Bytes, Text};
use std::alloc::{AllocError, Global};

/// The canonical spelling of a package: fields by number, shortest varints, and nothing that may be left out.
/// Each text of the package has to be UTF-8, and each of its texts, checksums and lists shorter than 2^31.
/// Each message within is written once and copied once, and they are nested three deep.
pub fn write_package(alloc: Global, package: &Package) -> Result<Bytes, AllocError>
    requires writable { IsWritable «package».now }
    ensures written { IfOk result (λ bytes. Writes bytes «package».now) }
{
    let mut out = Vec::new(alloc);
    push_releases(alloc, &mut out, package.releases.as_slice())?;
    push_bytes(&mut out, 2, package.name.as_slice())?;
    push_bytes(&mut out, 3, package.repository.as_slice())?;
    Ok(Bytes::from_vec(out))
}

fn push_releases(alloc: Global, out: &mut Vec<u8>, releases: &[Release]) -> Result<(), AllocError>
    ensures { OnOk result (AppendsEach WritesRelease 1 out.old.items out.new.items releases.now) }
{
    for release in releases {
        let bytes = release_bytes(alloc, release)?;
        push_bytes(out, 1, bytes.as_slice())?;
    }
    Ok(())
}

fn release_bytes(alloc: Global, release: &Release) -> Result<Vec<u8>, AllocError>
    ensures { IfOk result (λ bytes. WritesRelease bytes.items release.now) }
{
    let mut out = Vec::new(alloc);
    push_bytes(&mut out, 1, release.version.as_slice())?;
    push_bytes(&mut out, 2, release.inner_checksum.as_slice())?;
    push_dependencies(alloc, &mut out, release.dependencies.as_slice())?;
    push_retired(alloc, &mut out, &release.retired)?;
    push_checksum(&mut out, 5, &release.outer_checksum)?;
    Ok(out)
}

fn push_dependencies(
    alloc: Global,
    out: &mut Vec<u8>,
    dependencies: &[Dependency],
) -> Result<(), AllocError>
    ensures { OnOk result (AppendsEach WritesDependency 3 out.old.items out.new.items
        dependencies.now) }
{
    for dependency in dependencies {
        let bytes = dependency_bytes(alloc, dependency)?;
        push_bytes(out, 3, bytes.as_slice())?;
    }
    Ok(())
}

fn dependency_bytes(alloc: Global, dependency: &Dependency) -> Result<Vec<u8>, AllocError>
    ensures { IfOk result (λ bytes. WritesDependency bytes.items dependency.now) }
{
    let mut out = Vec::new(alloc);
    push_bytes(&mut out, 1, dependency.package.as_slice())?;
    push_bytes(&mut out, 2, dependency.requirement.as_slice())?;
    push_truth(&mut out, 3, dependency.optional)?;
    push_text(&mut out, 4, &dependency.app)?;
    push_text(&mut out, 5, &dependency.repository)?;
    Ok(out)
}

/// The retirement of a release, where there is one.
fn push_retired(
    alloc: Global,
    out: &mut Vec<u8>,
    retired: &Option<Retired>,
) -> Result<(), AllocError>
    ensures { OnOk result (AppendsRetired out.old.items out.new.items retired.now) }
{
    match retired {
        Some(retired) => {
            let bytes = retired_bytes(alloc, retired)?;
            push_bytes(out, 4, bytes.as_slice())?;
            Ok(())
        }
        None => Ok(()),
    }
}

fn retired_bytes(alloc: Global, retired: &Retired) -> Result<Vec<u8>, AllocError>
    ensures { IfOk result (λ bytes. WritesFields bytes.items (retired_fields retired.now)) }
{
    let mut out = Vec::new(alloc);
    push_number(&mut out, 1, number_of(retired.reason))?;
    push_text(&mut out, 2, &retired.message)?;
    Ok(out)
}

/// The number of a reason.
fn number_of(reason: Reason) -> u64
    ensures { result ≡ reason_number reason }
{
    match reason {
        Reason::Other => 0,
        Reason::Invalid => 1,
        Reason::Security => 2,
        Reason::Deprecated => 3,
        Reason::Renamed => 4,
    }
}

/// A text that may be absent.
fn push_text(out: &mut Vec<u8>, number: u8, text: &Option<Text>) -> Result<(), AllocError>
    requires least { 1 ≤ number }
    requires most { number ≤ 15 }
    ensures { OnOk result (Appends out.old.items out.new.items (perhaps number text.now)) }
{
    match text {
        Some(text) => {
            push_bytes(out, number, text.as_slice())?;
            Ok(())
        }
        None => Ok(()),
    }
}

/// A checksum that may be absent.
fn push_checksum(out: &mut Vec<u8>, number: u8, checksum: &Option<Bytes>) -> Result<(), AllocError>
    requires least { 1 ≤ number }
    requires most { number ≤ 15 }
    ensures { OnOk result (Appends out.old.items out.new.items (perhaps number checksum.now)) }
{
    match checksum {
        Some(checksum) => {
            push_bytes(out, number, checksum.as_slice())?;
            Ok(())
        }
        None => Ok(()),
    }
}

/// A truth value, which is written only where it is true.
fn push_truth(out: &mut Vec<u8>, number: u8, truth: bool) -> Result<(), AllocError>
    requires least { 1 ≤ number }
    requires most { number ≤ 15 }
    ensures { OnOk result (Appends out.old.items out.new.items (truth_field number truth)) }
{
    if truth {
        push_number(out, number, 1)?;
        Ok(())
    } else {
        Ok(())
    }
}

/// A field of bytes, with their length before them.
fn push_bytes(out: &mut Vec<u8>, number: u8, bytes: &[u8]) -> Result<(), AllocError>
    requires least { 1 ≤ number }
    requires most { number ≤ 15 }
    ensures { OnOk result (Appends out.old.items out.new.items (bytes_field number bytes.now ∷ [])) }
{
    out.push(number * 8 + 2)?;
    push_varint(out, bytes.len() as u64)?;
    out.extend_from_slice(bytes)?;
    Ok(())
}

/// A field of a number.
fn push_number(out: &mut Vec<u8>, number: u8, value: u64) -> Result<(), AllocError>
    requires least { 1 ≤ number }
    requires most { number ≤ 15 }
    ensures { OnOk result (Appends out.old.items out.new.items
        (record { number = number; payload = Varint value } ∷ [])) }
{
    out.push(number * 8)?;
    push_varint(out, value)?;
    Ok(())
}
