// The reader of declarations.
ghost use Rattle.std.specs.Prelude.{◌≡◌, ℕ, List, [], ◌∷◌, ◌++◌, Result, Ok, Err, IfOk, IfErr, OnOk};
ghost use Rattle.std.specs.Option.{option_copied};
ghost use Rattle.mx_base.specs.Blame.{Answers, AnswersBy};
ghost use Rattle.mx_base.specs.Blame.Blame.{Input};
ghost use Rattle.term_values.specs.declared.term.Term.{Term};
ghost use Rattle.dep_options.specs.declared.decl.Decl.{Decl};
ghost use Rattle.dep_options.specs.declared.error.OptionError.{OptionError};
ghost use Rattle.dep_options.specs.Blame.{cause_blame, blame_of};
ghost use Rattle.dep_options.specs.Decls.{IsRequirement, IsBadRequirement, has_source, IsDecl, AreDeclsFrom, AreDecls};
ghost use Rattle.dep_options.specs.Stated.{written_by};

use crate::checking::check_options;
use crate::decl::Decl;
use crate::declared::declared;
use crate::error::{OptionCause, OptionError};
use crate::given::first;
use crate::stated::{Stated, read_stated};
use mx_base::{Bytes, RelPath};
use std::alloc::Global;
use term_values::Term;
use version_req::{ReqError, Requirement, one_requirement};

/// Reads what the value of a manifest's `deps` declares in a folder, which paths are taken from. A term that is no
/// list is refused at 0 with `Shape`, and a list is read item by item.
///
/// Goes once over the items, and looks for an option's name among the earlier ones of its declaration.
pub fn decls(alloc: Global, base: &RelPath, term: &Term) -> Result<Vec<Decl>, OptionError>
    ensures { AnswersBy (λ decls. decls.items) blame_of result (AreDecls base.now term.now) }
{
    match term.as_list() {
        Some(terms) => decls_in(alloc, base, terms),
        None => Err(OptionError {
            index: 0,
            cause: OptionCause::Shape,
        }),
    }
}

// What the items of a list declare.
fn decls_in(alloc: Global, base: &RelPath, terms: &[Term]) -> Result<Vec<Decl>, OptionError>
    ensures { AnswersBy (λ decls. decls.items) blame_of result (AreDeclsFrom 0 base.now terms.now) }
{
    let mut decls = Vec::new(alloc);
    for (index, term) in terms.iter().enumerate() {
        match pushed(alloc, base, term, &mut decls) {
            Ok(()) => {}
            Err(cause) => {
                let index = index as u64;
                return Err(OptionError { index, cause });
            }
        }
    }
    Ok(decls)
}

// Adds what a term declares to the declarations.
fn pushed(
    alloc: Global,
    base: &RelPath,
    term: &Term,
    decls: &mut Vec<Decl>,
) -> Result<(), OptionCause>
    ensures ok { OnOk result
        ((d : Decl) × (decls.new.items ≡ decls.old.items ++ d ∷ []) × IsDecl base.now term.now (Ok d)) }
    ensures err { IfErr result (λ e. cause_blame e ≡ Input → IsDecl base.now term.now (Err e)) }
{
    decls.push(decl(alloc, base, term)?)?;
    Ok(())
}

// What a term declares.
fn decl(alloc: Global, base: &RelPath, term: &Term) -> Result<Decl, OptionCause>
    ensures { Answers cause_blame result (IsDecl base.now term.now) }
{
    let Some(stated) = read_stated(alloc, term)? else {
        return Err(OptionCause::Shape);
    };
    let requirement = requirement_of(alloc, stated.requirement)?;
    check_options(alloc, base, &stated.options)?;
    if !has_source(&stated) {
        return Err(OptionCause::NoSource);
    }
    let Stated { app, options, .. } = stated;
    Ok(declared(alloc, base, app, requirement, &options)?)
}

// Whether it is said where the dependency comes from.
fn has_source(stated: &Stated) -> bool
    ensures { result ≡ has_source (written_by stated.now) }
{
    stated.requirement.is_some()
        || first(&stated.options, b"path").is_some()
        || first(&stated.options, b"hex").is_some()
}

// The requirement that is written, where one is.
fn requirement_of(alloc: Global, text: Option<&Bytes>) -> Result<Option<Requirement>, OptionCause>
    ensures ok { IfOk result (IsRequirement (option_copied text.entry)) }
    ensures err { IfErr result (λ e. cause_blame e ≡ Input
        → IsBadRequirement (option_copied text.entry) × (e ≡ OptionCause.BadRequirement)) }
{
    let Some(text) = text else {
        return Ok(None);
    };
    match Requirement::parse(alloc, text.as_slice()) {
        Ok(requirement) => Ok(Some(requirement)),
        Err(ReqError::Refused { .. }) => Err(OptionCause::BadRequirement),
        Err(ReqError::OutOfMemory) => Err(OptionCause::OutOfMemory),
    }
}

/// No term declares two things, and none is refused in two ways.
pub fn one_answer()
    ensures { (base : List ℕ) (term : Term) (answer other : Result (List Decl) OptionError)
        → AreDecls base term answer → AreDecls base term other → answer ≡ other }
{
    one_requirement();
}

/// Each term declares something, or is refused.
pub fn some_answer()
    ensures { (base : List ℕ) (term : Term)
        → (answer : Result (List Decl) OptionError) × AreDecls base term answer }
{}
