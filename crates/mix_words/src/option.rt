// The options, and the words that are one.
ghost use Rattle.std.specs.Prelude.{◌≡◌, ◌++◌, ◌∷◌, List, ℕ, IfSome, IfNone};
ghost use Rattle.mix_words.specs.Piece.{flag_word, is_dashed, valued_word};

/// An option with a value.
#[derive(Clone, Copy, Drop)]
pub(crate) enum Valued {
    Env,
    Target,
    Partitions,
}

/// An option without one.
#[derive(Clone, Copy, Drop)]
pub(crate) enum Flag {
    Plain,
    Trace,
}

/// The option with a value that a word is.
pub(crate) fn option_named(word: &str) -> Option<Valued>
    ensures some { IfSome result (λ option. word.now ≡ valued_word option) }
    ensures none { IfNone result ((option : Valued) → word.now ≡ valued_word option → ⊥) }
{
    match word {
        "--env" => Some(Valued::Env),
        "--target" => Some(Valued::Target),
        "--partitions" => Some(Valued::Partitions),
        _ => None,
    }
}

/// The option without a value that a word is.
pub(crate) fn flag_named(word: &str) -> Option<Flag>
    ensures some { IfSome result (λ flag. word.now ≡ flag_word flag) }
    ensures none { IfNone result ((flag : Flag) → word.now ≡ flag_word flag → ⊥) }
{
    match word {
        "--plain" => Some(Flag::Plain),
        "--trace" => Some(Flag::Trace),
        _ => None,
    }
}

/// The option and its value that a word has round its first `=`.
pub(crate) fn split_value(word: &str) -> Option<(Valued, &str)>
    ensures some { IfSome result (λ pair. word.now ≡ valued_word pair.0 ++ 61 ∷ pair.1.now) }
    ensures none { IfNone result ((option : Valued) (value : List ℕ)
        → word.now ≡ valued_word option ++ 61 ∷ value → ⊥) }
{
    match word.split_once('=') {
        Some((name, value)) => match option_named(name) {
            Some(option) => Some((option, value)),
            None => None,
        },
        None => None,
    }
}

/// Whether a word begins as options do.
pub(crate) fn is_dashed(word: &str) -> bool
    ensures { result ≡ is_dashed word.now }
{
    match word.as_bytes() {
        [first, ..] => *first == b'-',
        [] => false,
    }
}
