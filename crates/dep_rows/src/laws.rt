// What holds of the rows of a root, whoever lists them.
ghost use Rattle.std.specs.Prelude.{◌≡◌, ◌≤◌, ℕ, List, length};
ghost use Rattle.dep_options.specs.declared.decl.Decl.{Decl};
ghost use Rattle.dep_rows.specs.declared.row.Row.{Row};
ghost use Rattle.dep_rows.specs.Refusal.{HasOutcome};
ghost use Rattle.dep_rows.specs.Rows.{AnswersEach, AnswersOnce, AreRows, PassesLimit, Meets, most_rows};

use crate::children::Children;

/// A root has one list of rows, with one list of winners.
pub fn one_list<C: Children>()
    ensures { (known : C.Known) → AnswersOnce (C.children_of known) →
        (root : List Decl) (rows other : List Row) (winners other_winners : List ℕ) →
        AreRows (C.children_of known) root rows winners →
        AreRows (C.children_of known) root other other_winners →
        (rows ≡ other) × (winners ≡ other_winners) }
{}

/// Rows within the limit, rows that pass the limit, and a winner whose children aren't known
/// exclude one another, and there is one fault at most.
pub fn one_outcome<C: Children>()
    ensures rows_or_limit { (known : C.Known) → AnswersOnce (C.children_of known) →
        (root : List Decl) (rows : List Row) (winners : List ℕ) →
        AreRows (C.children_of known) root rows winners → length rows ≤ most_rows →
        PassesLimit (C.children_of known) root → ⊥ }
    ensures rows_or_fault { (known : C.Known) → AnswersOnce (C.children_of known) →
        (root : List Decl) (rows : List Row) (winners : List ℕ) (fault : C.Fault) →
        AreRows (C.children_of known) root rows winners →
        Meets (C.children_of known) root fault → ⊥ }
    ensures fault_or_limit { (known : C.Known) → AnswersOnce (C.children_of known) →
        (root : List Decl) (fault : C.Fault) → Meets (C.children_of known) root fault →
        PassesLimit (C.children_of known) root → ⊥ }
    ensures one_fault { (known : C.Known) → AnswersOnce (C.children_of known) →
        (root : List Decl) (fault other : C.Fault) → Meets (C.children_of known) root fault →
        Meets (C.children_of known) root other → fault ≡ other }
{}

/// Where each winner has an answer, a root has an outcome: rows within the limit, or the limit is
/// passed, or a winner is met whose children aren't known.
pub fn some_outcome<C: Children>()
    ensures { (known : C.Known) → AnswersEach (C.children_of known) → (root : List Decl) →
        HasOutcome (C.children_of known) root }
{}
