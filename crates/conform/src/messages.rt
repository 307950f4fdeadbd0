// Cases of registry messages.
use crate::writable::is_writable;
use case_texts::{Fault, push_after, refused};
use hex_messages::{
    Dependencies, Dependency, FieldName, Package, Reason, Release, Releases, Retired, WireCause,
    WireError, read_package, write_package,
};
use mx_base::{Bytes, Text};
use std::alloc::{AllocError, Global};

/// A message: the canonical spelling of what it says.
pub(crate) fn message_case(
    alloc: Global,
    out: &mut String,
    texts: &[Vec<u8>],
) -> Result<(), Fault> {
    let [text] = texts else {
        return Err(Fault::Form);
    };
    match read_package(alloc, text.as_slice()) {
        Ok(package) => written(alloc, out, &package),
        Err(error) => refused_message(alloc, out, error),
    }
}

pub(crate) fn refused_message(
    alloc: Global,
    out: &mut String,
    error: WireError,
) -> Result<(), Fault> {
    let (cause, field) = wire_cause(error.cause);
    if field.is_empty() {
        return refused(out, error.at, cause);
    }
    let cause = format!(in alloc; "{cause}({field})")?;
    refused(out, error.at, cause.as_str())
}

/// The cause, and the field that it is about.
fn wire_cause(cause: WireCause) -> (&'static str, &'static str) {
    match cause {
        WireCause::BadKey => ("BadKey", ""),
        WireCause::BadVarint => ("BadVarint", ""),
        WireCause::Truncated => ("Truncated", ""),
        WireCause::WrongWire(field) => ("WrongWire", field_name(field)),
        WireCause::BadUtf8(field) => ("BadUtf8", field_name(field)),
        WireCause::BadEnum => ("BadEnum", ""),
        WireCause::Missing(field) => ("Missing", field_name(field)),
        WireCause::OutOfMemory => ("OutOfMemory", ""),
    }
}

fn field_name(field: FieldName) -> &'static str {
    match field {
        FieldName::Releases => "Releases",
        FieldName::Name => "Name",
        FieldName::Repository => "Repository",
        FieldName::Version => "Version",
        FieldName::InnerChecksum => "InnerChecksum",
        FieldName::Dependencies => "Dependencies",
        FieldName::Retired => "Retired",
        FieldName::OuterChecksum => "OuterChecksum",
        FieldName::Package => "Package",
        FieldName::Requirement => "Requirement",
        FieldName::Optional => "Optional",
        FieldName::App => "App",
        FieldName::Reason => "Reason",
        FieldName::Message => "Message",
    }
}

fn written(alloc: Global, out: &mut String, package: &Package) -> Result<(), Fault> {
    if !is_writable(package) {
        return Err(Fault::Form);
    }
    let bytes = write_package(alloc, package)?;
    push_after(alloc, out, "ok ", bytes.as_slice())
}

/// A package's name and repository, of its one release the version, the inner checksum, the outer one, the number of
/// the reason why it was retired and the message, and of each of its dependencies the package, the requirement, `yes`
/// where it is optional, the app and the repository. What may be absent begins with `=` where it is there.
pub(crate) fn write_case(alloc: Global, out: &mut String, texts: &[Vec<u8>]) -> Result<(), Fault> {
    let mut package = Package {
        releases: Releases::new(alloc),
        name: no_text(alloc),
        repository: no_text(alloc),
    };
    fill_package(alloc, &mut package, texts)?;
    written(alloc, out, &package)
}

fn no_text(alloc: Global) -> Text {
    Text::from_vec(Vec::new(alloc))
}

fn fill_package(alloc: Global, package: &mut Package, texts: &[Vec<u8>]) -> Result<(), Fault> {
    let [name, repository, rest @ ..] = texts else {
        return Err(Fault::Form);
    };
    package.name = Text::from_slice(alloc, name.as_slice())?;
    package.repository = Text::from_slice(alloc, repository.as_slice())?;
    package.releases.push(release_of(alloc, rest)?)?;
    Ok(())
}

fn release_of(alloc: Global, texts: &[Vec<u8>]) -> Result<Release, Fault> {
    let mut release = Release {
        version: no_text(alloc),
        inner_checksum: Bytes::new(alloc),
        dependencies: Dependencies::new(alloc),
        retired: None,
        outer_checksum: None,
    };
    fill_release(alloc, &mut release, texts)?;
    Ok(release)
}

fn fill_release(alloc: Global, release: &mut Release, texts: &[Vec<u8>]) -> Result<(), Fault> {
    let [version, inner, outer, reason, message, rest @ ..] = texts else {
        return Err(Fault::Form);
    };
    release.version = Text::from_slice(alloc, version.as_slice())?;
    release.inner_checksum = Bytes::from_slice(alloc, inner.as_slice())?;
    release.outer_checksum = bytes_there(alloc, outer.as_slice())?;
    release.retired = retired(alloc, reason.as_slice(), message.as_slice())?;
    for five in rest.chunks(5) {
        release.dependencies.push(dependency_of(alloc, five)?)?;
    }
    Ok(())
}

fn dependency_of(alloc: Global, texts: &[Vec<u8>]) -> Result<Dependency, Fault> {
    let mut dependency = Dependency {
        package: no_text(alloc),
        requirement: no_text(alloc),
        optional: false,
        app: None,
        repository: None,
    };
    fill_dependency(alloc, &mut dependency, texts)?;
    Ok(dependency)
}

fn fill_dependency(
    alloc: Global,
    dependency: &mut Dependency,
    texts: &[Vec<u8>],
) -> Result<(), Fault> {
    let [package, requirement, optional, app, repository] = texts else {
        return Err(Fault::Form);
    };
    dependency.package = Text::from_slice(alloc, package.as_slice())?;
    dependency.requirement = Text::from_slice(alloc, requirement.as_slice())?;
    dependency.optional = optional.as_slice() == b"yes".as_slice();
    dependency.app = text_there(alloc, app.as_slice())?;
    dependency.repository = text_there(alloc, repository.as_slice())?;
    Ok(())
}

fn retired(alloc: Global, reason: &[u8], message: &[u8]) -> Result<Option<Retired>, AllocError> {
    let reason = match reason {
        b"0" => Reason::Other,
        b"1" => Reason::Invalid,
        b"2" => Reason::Security,
        b"3" => Reason::Deprecated,
        b"4" => Reason::Renamed,
        _ => return Ok(None),
    };
    Ok(Some(Retired {
        reason,
        message: text_there(alloc, message)?,
    }))
}

fn text_there(alloc: Global, text: &[u8]) -> Result<Option<Text>, AllocError> {
    match text.split_first() {
        Some((_, rest)) => Ok(Some(Text::from_slice(alloc, rest)?)),
        None => Ok(None),
    }
}

fn bytes_there(alloc: Global, bytes: &[u8]) -> Result<Option<Bytes>, AllocError> {
    match bytes.split_first() {
        Some((_, rest)) => Ok(Some(Bytes::from_slice(alloc, rest)?)),
        None => Ok(None),
    }
}
