// What holds of every text.
ghost use Rattle.std.specs.Prelude.{◌≡◌, ◌⊎◌, ℕ, List, IsFalse};
ghost use Rattle.term_tokens.specs.declared.cause.TermCause.{TermCause};
ghost use Rattle.term_values.specs.declared.term.Term.{Term};
ghost use Rattle.term_tokens.specs.Refused.{is_memory};
ghost use Rattle.elixir_terms.specs.declared.error.TermError.{TermError};
ghost use Rattle.elixir_terms.specs.Refusals.{IsRefusal};
ghost use Rattle.term_print.specs.Spells.{Spells};
ghost use Rattle.elixir_terms.specs.Within.{Within};

/// No text is refused in two ways.
pub fn one_refusal()
    ensures { (text : List ℕ) (at place : ℕ) (why other : TermCause) → IsRefusal text at why
        → IsRefusal text place other → (at ≡ place) × (why ≡ other) }
{}

/// No text that spells a term within the limits is refused.
pub fn no_refusal()
    ensures { (text : List ℕ) (term : Term) (at : ℕ) (why : TermCause) → Spells text term
        → Within text term → IsRefusal text at why → ⊥ }
{}

/// Each text spells a term within the limits, or is refused, and not for want of memory.
pub fn some_answer()
    ensures { (text : List ℕ)
        → ((term : Term) × Spells text term × Within text term)
        ⊎ ((error : TermError) × IsFalse (is_memory error.cause)
        × IsRefusal text error.at error.cause) }
{}
