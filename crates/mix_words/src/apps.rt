// Names of apps, each once.
ghost use Rattle.std.specs.Prelude.{◌≡◌, ◌∷◌, ◌++◌, [], List, ℕ, IfOk};
ghost use Rattle.std.specs.BTreeSet.{contains_by};
ghost use Rattle.mx_base.specs.Order.{text_cmp};
ghost use Rattle.mix_words.specs.Choice.{is_among};

use mx_base::{AppName, Names};
use std::alloc::{AllocError, Global};
use std::collections::BTreeSet;

/// Names of apps in the order of the words, and the words, by which each is found in little time.
#[derive(Drop)]
pub(crate) struct Apps<'a> {
    pub(crate) names: Names,
    known: BTreeSet<&'a str>,
    ghost held: { (text : List ℕ) → contains_by (λ name. text_cmp text name.now) known
        ≡ is_among names text },
}

impl<'a> Apps<'a> {
    /// No apps. It takes no memory.
    pub(crate) fn new(alloc: Global) -> Apps<'a>
        ensures { result.names ≡ [] }
    {
        Apps {
            names: Names::new(alloc),
            known: BTreeSet::new(alloc),
        }
    }

    /// Whether a word is one of them.
    pub(crate) fn has(&self, word: &str) -> bool
        ensures { result ≡ is_among self.now.names word.now }
    {
        self.known.contains(word)
    }

    /// With the name that a word is.
    pub(crate) fn with(self, name: AppName, word: &'a str) -> Result<Apps<'a>, AllocError>
        requires { name ≡ word.now }
        ensures { IfOk result (λ apps. apps.names ≡ self.entry.names ++ name ∷ []) }
    {
        let Apps {
            mut names,
            mut known,
        } = self;
        names.push(name)?;
        known.insert(word)?;
        Ok(Apps { names, known })
    }

    /// The names alone.
    pub(crate) fn into_names(self) -> Names
        ensures { result ≡ self.entry.names }
    {
        let Apps { names, known: _ } = self;
        names
    }
}
