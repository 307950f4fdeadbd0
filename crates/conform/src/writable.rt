// Which packages may be written.
ghost use Rattle.std.specs.Prelude.{IsTrue};
ghost use Rattle.std.specs.List.{AllByRecursion};
ghost use Rattle.hex_messages.specs.Canonical.{IfThere, IsShort, IsText, IsWritable, IsWritableDependency, IsWritableRelease, IsWritableRetirement};

use hex_messages::{Dependency, Package, Release, Retired};
use mx_base::{Bytes, Text};
use std::str;

/// Texts and lists of fewer elements may be written.
const SHORT: usize = 2147483648;

pub(crate) fn is_writable(package: &Package) -> bool
    ensures { IsTrue result → IsWritable «package».now }
{
    package.releases.as_slice().len() < SHORT
        && are_writable_releases(package.releases.as_slice())
        && is_text(&package.name)
        && is_text(&package.repository)
}

fn are_writable_releases(releases: &[Release]) -> bool
    ensures { IsTrue result → AllByRecursion IsWritableRelease releases.now }
{
    for release in releases {
        if !is_writable_release(release) {
            return false;
        }
    }
    true
}

fn is_writable_release(release: &Release) -> bool
    ensures { IsTrue result → IsWritableRelease release.now }
{
    is_text(&release.version)
        && release.inner_checksum.as_slice().len() < SHORT
        && release.dependencies.as_slice().len() < SHORT
        && are_writable_dependencies(release.dependencies.as_slice())
        && is_writable_retirement(&release.retired)
        && is_short_if_there(&release.outer_checksum)
}

fn are_writable_dependencies(dependencies: &[Dependency]) -> bool
    ensures { IsTrue result → AllByRecursion IsWritableDependency dependencies.now }
{
    for dependency in dependencies {
        if !is_writable_dependency(dependency) {
            return false;
        }
    }
    true
}

fn is_writable_dependency(dependency: &Dependency) -> bool
    ensures { IsTrue result → IsWritableDependency dependency.now }
{
    is_text(&dependency.package)
        && is_text(&dependency.requirement)
        && is_text_if_there(&dependency.app)
        && is_text_if_there(&dependency.repository)
}

fn is_writable_retirement(retired: &Option<Retired>) -> bool
    ensures { IsTrue result → IsWritableRetirement retired.now }
{
    match retired {
        Some(retired) => is_text_if_there(&retired.message),
        None => true,
    }
}

fn is_text_if_there(text: &Option<Text>) -> bool
    ensures { IsTrue result → IfThere IsText text.now }
{
    match text {
        Some(text) => is_text(text),
        None => true,
    }
}

fn is_short_if_there(bytes: &Option<Bytes>) -> bool
    ensures { IsTrue result → IfThere IsShort bytes.now }
{
    match bytes {
        Some(bytes) => bytes.as_slice().len() < SHORT,
        None => true,
    }
}

fn is_text(text: &Text) -> bool
    ensures { IsTrue result → IsText text.now }
{
    text.as_slice().len() < SHORT && str::from_utf8(text.as_slice()).is_ok()
}
