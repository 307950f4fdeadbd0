// Scripts, read.
ghost use Rattle.std.specs.Prelude.{◌≡◌};
ghost use Rattle.mx_base.specs.Blame.{AnswersBy};
ghost use Rattle.session_script.specs.Blame.{script_blame};
ghost use Rattle.session_script.specs.Says.{AreEdits, SaysScript, TermSays};

use crate::edit::Edit;
use crate::elements::edit_of;
use crate::error::ScriptError;
use elixir_terms::{Term, read};
use std::alloc::Global;

/// The edits and compiles that a text asks for, in their order.
///
/// Goes once over the text.
///
/// # Errors
///
/// The text is no term, the term is no list, or the first element of another form, in this order.
pub fn read_script(alloc: Global, text: &[u8]) -> Result<Vec<Edit>, ScriptError>
    ensures { AnswersBy (λ edits. edits.items) script_blame result (SaysScript text.now) }
{
    let term = read(alloc, text)?;
    edits_of(alloc, &term)
}

// What a term asks for.
fn edits_of(alloc: Global, term: &Term) -> Result<Vec<Edit>, ScriptError>
    ensures { AnswersBy (λ edits. edits.items) script_blame result (TermSays term.now) }
{
    match term.as_list() {
        Some(elements) => edits_in(alloc, elements),
        None => Err(ScriptError::Shape),
    }
}

// What each element asks for, or the first that has none of the forms.
fn edits_in(alloc: Global, elements: &[Term]) -> Result<Vec<Edit>, ScriptError>
    ensures { AnswersBy (λ edits. edits.items) script_blame result (AreEdits elements.now) }
{
    let mut edits = Vec::new(alloc);
    for (place, element) in elements.iter().enumerate() {
        match edit_of(alloc, element)? {
            Some(edit) => edits.push(edit)?,
            None => {
                return Err(ScriptError::Form {
                    index: place as u64,
                });
            }
        }
    }
    Ok(edits)
}
