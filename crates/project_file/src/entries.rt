// The names and the values of a manifest or of settings.
ghost use Rattle.std.specs.Prelude.{◌≡◌, IfOk, option_map};
ghost use Rattle.std.specs.Option.{option_copied};
ghost use Rattle.dep_options.specs.Options.{first_of};
ghost use Rattle.term_values.specs.Views.{all_of, named, named_of};
ghost use Rattle.project_file.specs.Manifest.{entries_of};

use mx_base::Text;
use std::alloc::{AllocError, Global};
use term_values::Term;

/// The entries of a keyword list, or of a map whose keys are atoms.
pub(crate) fn entries(alloc: Global, term: &Term) -> Result<Option<Vec<(&Text, &Term)>>, AllocError>
    ensures { IfOk result (λ found. option_map (λ es. named es.items) found ≡ entries_of term.now) }
{
    if let Some(entries) = term.keywords(alloc)? {
        return Ok(Some(entries));
    }
    match term.as_map() {
        Some(pairs) => pair_entries(alloc, pairs),
        None => Ok(None),
    }
}

// The entries of a map, where its keys are atoms.
fn pair_entries(
    alloc: Global,
    pairs: &[(Term, Term)],
) -> Result<Option<Vec<(&Text, &Term)>>, AllocError>
    ensures { IfOk result (λ found. option_map (λ es. named es.items) found
        ≡ all_of named_of pairs.now) }
{
    let mut entries = Vec::new(alloc);
    for (key, value) in pairs {
        match key.as_atom() {
            Some(name) => entries.push((name, value))?,
            None => return Ok(None),
        }
    }
    Ok(Some(entries))
}

/// The value that stands first under a name.
#[tactic(auto, using(crate::proofs::EntryLemmas::named_rest))]
pub(crate) fn first<'a>(entries: &[(&'a Text, &'a Term)], name: &[u8]) -> Option<&'a Term>
    ensures { option_copied result ≡ first_of name.now (named entries.now) }
{
    for (key, value) in entries {
        if name == key.as_slice() {
            return Some(*value);
        }
    }
    None
}
