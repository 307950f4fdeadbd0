// What stands in a declaration.
ghost use Rattle.std.specs.Prelude.{◌≡◌, IfOk, option_map, option_and_then, map};
ghost use Rattle.std.specs.Option.{option_copied};
ghost use Rattle.term_values.specs.Views.{keywords_of};
ghost use Rattle.term_values.specs.Apps.{app_of};
ghost use Rattle.dep_options.specs.Decls.{written_of};
ghost use Rattle.dep_options.specs.Stated.{written_by, written_as};

use mx_base::{AppName, Bytes, Text};
use std::alloc::{AllocError, Global};
use term_values::{Term, app_of};

/// A term of the shape of a declaration, where nothing but the app was read yet.
#[derive(Drop)]
pub(crate) struct Stated<'a> {
    pub(crate) app: AppName,
    pub(crate) requirement: Option<&'a Bytes>,
    pub(crate) options: Vec<(&'a Text, &'a Term)>,
}

/// What stands in a term, where it has the shape of a declaration.
pub(crate) fn read_stated(alloc: Global, term: &Term) -> Result<Option<Stated<'_>>, AllocError>
    ensures { IfOk result (λ found. option_map written_by found ≡ written_of term.now) }
{
    match term.as_tuple() {
        Some([app, second]) => match second.as_string() {
            Some(text) => with_app(alloc, app, Some(text), Vec::new(alloc)),
            None => with_options(alloc, app, None, second),
        },
        Some([app, requirement, options]) => match requirement.as_string() {
            Some(text) => with_options(alloc, app, Some(text), options),
            None => Ok(None),
        },
        _ => Ok(None),
    }
}

fn with_options<'a>(
    alloc: Global,
    app: &Term,
    requirement: Option<&'a Bytes>,
    options: &'a Term,
) -> Result<Option<Stated<'a>>, AllocError>
    ensures { IfOk result (λ found. option_map written_by found
        ≡ option_and_then (λ os. written_as (app_of app.now) (option_copied requirement.entry) os) (keywords_of options.entry.now)) }
{
    match options.keywords(alloc)? {
        Some(options) => with_app(alloc, app, requirement, options),
        None => Ok(None),
    }
}

fn with_app<'a>(
    alloc: Global,
    app: &Term,
    requirement: Option<&'a Bytes>,
    options: Vec<(&'a Text, &'a Term)>,
) -> Result<Option<Stated<'a>>, AllocError>
    ensures { IfOk result (λ found. option_map written_by found
        ≡ written_as (app_of app.now) (option_copied requirement.entry) (map (λ o. (o.0.now, o.1.now)) options.entry.items)) }
{
    match app_of(alloc, app)? {
        Some(app) => Ok(Some(Stated {
            app,
            requirement,
            options,
        })),
        None => Ok(None),
    }
}
