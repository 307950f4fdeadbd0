// What holds of every list of words.
ghost use Rattle.std.specs.Prelude.{◌≡◌, ℕ, List};
ghost use Rattle.reading.specs.Refusal.{IsRefusedAt};
ghost use Rattle.mix_words.specs.declared.command.Command.{Command};
ghost use Rattle.mix_words.specs.Meaning.{IsMeant, Means};

/// No words mean two commands.
pub fn one_command()
    ensures { (words : List (List ℕ)) (a b : Command) → Means words a → Means words b → a ≡ b }
{}

/// Words are refused at one place.
pub fn one_place()
    ensures { (words : List (List ℕ)) (at other : ℕ) → IsRefusedAt IsMeant words at
        → IsRefusedAt IsMeant words other → at ≡ other }
{}

/// Words that are refused mean no command.
pub fn refused_means_nothing()
    ensures { (words : List (List ℕ)) (at : ℕ) (command : Command) → IsRefusedAt IsMeant words at
        → Means words command → ⊥ }
{}
