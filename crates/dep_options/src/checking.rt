// Which option of a declaration is refused first.
ghost use Rattle.std.specs.Prelude.{◌≡◌, [], IfOk, bytes_eq};
ghost use Rattle.std.specs.List.{list_any};
ghost use Rattle.mx_base.specs.Blame.{Answers};
ghost use Rattle.term_values.specs.Views.{named};
ghost use Rattle.dep_options.specs.Blame.{cause_blame, Finds};
ghost use Rattle.dep_options.specs.Options.{fits, is_unsupported, fault_of, first_fault};

use crate::error::OptionCause;
use crate::kind::{Kind, kind_of};
use crate::values::{
    compile_of, folder_of, manager_of, names_of, package_of, truth_of, variables_of,
};
use crate::word::is_word;
use mx_base::{RelPath, Text, copy_text};
use std::alloc::{AllocError, Global};
use term_values::{Term, app_of};

/// Finds the first fault from the left. Of a repeated option the first counts, and the others are passed over.
pub(crate) fn check_options(
    alloc: Global,
    base: &RelPath,
    options: &[(&Text, &Term)],
) -> Result<(), OptionCause>
    ensures { Answers cause_blame result (Finds (first_fault base.now [] (named options.now))) }
{
    // No option without a fault has a name of its own, so these are few.
    let mut seen = Vec::new(alloc);
    for (name, value) in options {
        if !is_among(&seen, *name) {
            check_option(alloc, base, *name, *value)?;
            seen.push(*name)?;
        }
    }
    Ok(())
}

fn is_among(names: &[&Text], name: &Text) -> bool
    ensures { result ≡ list_any (λ other. bytes_eq name.now other.now) names.now }
{
    let name = name.as_slice();
    names.iter().any(|other| name == other.as_slice())
}

// What is wrong with an option.
fn check_option(alloc: Global, base: &RelPath, name: &Text, value: &Term) -> Result<(), OptionCause>
    ensures { Answers cause_blame result (Finds (fault_of base.now (name.now, value.now))) }
{
    let Some(kind) = kind_of(name.as_slice()) else {
        return Err(OptionCause::UnknownOption(copy_text(name)?));
    };
    if is_unsupported(kind, value) {
        return Err(OptionCause::UnsupportedSource(copy_text(name)?));
    }
    if fits(alloc, base, kind, value)? {
        Ok(())
    } else {
        Err(OptionCause::BadValue(copy_text(name)?))
    }
}

// Whether the value asks for a source that isn't supported.
fn is_unsupported(kind: Kind, value: &Term) -> bool
    ensures { result ≡ is_unsupported kind value.now }
{
    match kind {
        Kind::Unsupported => true,
        Kind::Registry => match value.as_string() {
            Some(text) => !is_word(text.as_slice(), b"hexpm"),
            None => false,
        },
        _ => false,
    }
}

// Whether an option of the kind may have the value.
fn fits(alloc: Global, base: &RelPath, kind: Kind, value: &Term) -> Result<bool, AllocError>
    ensures { IfOk result (λ is. is ≡ fits base.now kind value.now) }
{
    Ok(match kind {
        Kind::NameList => names_of(alloc, value)?.is_some(),
        Kind::Environment => app_of(alloc, value)?.is_some(),
        Kind::Truth => truth_of(value).is_some(),
        Kind::Compiling => compile_of(alloc, value)?.is_some(),
        Kind::Folder => folder_of(alloc, base, value)?.is_some(),
        Kind::Package => package_of(alloc, value)?.is_some(),
        Kind::Registry => value.as_string().is_some(),
        Kind::Managing => manager_of(value).is_some(),
        Kind::VariableList => variables_of(alloc, value)?.is_some(),
        Kind::Unsupported => true,
    })
}
