// The names of the commands, as a table.
ghost use Rattle.std.specs.Prelude.{◌≡◌, ◌∷◌, [], List, ℕ, IfSome, IfNone};
ghost use Rattle.mix_words.specs.Table.{name_of, takes_apps, takes_build, takes_run, takes_valued, verbs};

use crate::option::Valued;

/// The name of a command.
#[derive(Clone, Copy, Drop)]
pub(crate) enum Verb {
    Help,
    Deps,
    Stale,
    Compile,
    Clean,
}

/// The commands, in the order in which they are listed.
pub(crate) const VERBS: [Verb; 5] = [
    Verb::Help,
    Verb::Deps,
    Verb::Stale,
    Verb::Compile,
    Verb::Clean,
];

impl Verb {
    /// The word that names it.
    pub(crate) fn name(self) -> &'static str
        ensures { result.now ≡ name_of self }
    {
        match self {
            Verb::Help => "help",
            Verb::Deps => "deps",
            Verb::Stale => "deps.stale",
            Verb::Compile => "deps.compile",
            Verb::Clean => "deps.clean",
        }
    }

    /// The command that a word names.
    pub(crate) fn named(word: &str) -> Option<Verb>
        ensures some { IfSome result (λ verb. word.now ≡ name_of verb) }
        ensures none { IfNone result ((verb : Verb) → word.now ≡ name_of verb → ⊥) }
    {
        match word {
            "help" => Some(Verb::Help),
            "deps" => Some(Verb::Deps),
            "deps.stale" => Some(Verb::Stale),
            "deps.compile" => Some(Verb::Compile),
            "deps.clean" => Some(Verb::Clean),
            _ => None,
        }
    }

    /// Whether it takes an environment and a target.
    pub(crate) fn takes_build(self) -> bool
        ensures { result ≡ takes_build self }
    {
        matches!(self, Verb::Deps | Verb::Stale | Verb::Compile | Verb::Clean)
    }

    /// Whether it takes the options of a run.
    pub(crate) fn takes_run(self) -> bool
        ensures { result ≡ takes_run self }
    {
        matches!(self, Verb::Compile)
    }

    /// Whether it takes names of apps.
    pub(crate) fn takes_apps(self) -> bool
        ensures { result ≡ takes_apps self }
    {
        matches!(self, Verb::Clean)
    }
}
