// Names of apps in terms.
ghost use Rattle.std.specs.Prelude.{◌≡◌, IfOk};
ghost use Rattle.term_values.specs.Apps.{app_of, if_app};

use crate::term::Term;
use mx_base::{AppName, NameError};
use std::alloc::{AllocError, Global};

/// The name of an app, where the text is one.
pub fn app_named(alloc: Global, text: &[u8]) -> Result<Option<AppName>, AllocError>
    ensures { IfOk result (λ found. found ≡ if_app text.now) }
{
    match AppName::of(alloc, text) {
        Ok(name) => Ok(Some(name)),
        Err(NameError::OutOfMemory) => Err(AllocError),
        Err(_) => Ok(None),
    }
}

/// The name of an app, where the term is an atom that is one.
pub fn app_of(alloc: Global, term: &Term) -> Result<Option<AppName>, AllocError>
    ensures { IfOk result (λ found. found ≡ app_of term.now) }
{
    match term.as_atom() {
        Some(name) => app_named(alloc, name.as_slice()),
        None => Ok(None),
    }
}
