// What follows from honest marks.
ghost use Rattle.std.specs.Prelude.{◌≡◌, ◌≢◌, ◌++◌, ◌∷◌, [], ℕ, List, Some, None, Contains, IsTrue, length};
ghost use Rattle.mx_base.specs.Listing.{rows_of};
ghost use Rattle.compile_model.specs.declared.outcome.Outcome.{Outcome};
ghost use Rattle.compile_model.specs.Content.{Content};
ghost use Rattle.build_manifest.specs.Mark.{MarkView};
ghost use Rattle.build_manifest.specs.Text.{IsSpelled, Spells};
ghost use Rattle.staleness.specs.declared.kept.Kept.{Kept};
ghost use Rattle.staleness.specs.Matching.{matches};
ghost use Rattle.tree_store.specs.declared.holding.Holding.{Holding};
ghost use Rattle.tree_store.specs.declared.key.BuildKey.{BuildKey};
ghost use Rattle.tree_store.specs.Holding.{only_files};
ghost use Rattle.tree_store.specs.Moment.{Part, leaves};
ghost use Rattle.tree_store.specs.Moment.Write.{Mark};
ghost use Rattle.tree_store.specs.Slot.{Slot};
ghost use Rattle.honest_tree.specs.Given.{Given, NoClash, outcome_of};
ghost use Rattle.honest_tree.specs.Honest.{Honest, IsHonest, IsMarkOf};
ghost use Rattle.honest_tree.specs.KeptOf.{IsKept, kept_with};

/// What is honest for some inputs is honest for more.
pub fn honest_for_more()
    ensures holding { (compile : Content → Outcome) (known more : List Given) (held : Holding)
        → ((given : Given) → Contains known given → Contains more given)
        → IsHonest compile known held → IsHonest compile more held }
    ensures tree { (compile : Content → Outcome) (known more : List Given)
        (slots : BuildKey → Slot)
        → ((given : Given) → Contains known given → Contains more given)
        → Honest compile known slots → Honest compile more slots }
{}

/// A folder without a readable mark is honest, whatever was compiled.
pub fn unread_is_honest()
    ensures unmarked { (compile : Content → Outcome) (known : List Given) (held : Holding)
        → held.mark ≡ None → IsHonest compile known held }
    ensures unread { (compile : Content → Outcome) (known : List Given) (held : Holding)
        (bytes : List ℕ) → held.mark ≡ Some bytes → (IsSpelled bytes → ⊥)
        → IsHonest compile known held }
{}

/// While the mark of an input is written beside the files of its outcome, a stop at any moment leaves what is
/// honest for the inputs that have this one among them.
pub fn marking_is_honest()
    ensures { (compile : Content → Outcome) (known : List Given) (given : Given)
        → Contains known given → (outcome_of compile given).status ≡ 0
        → (bytes : List ℕ) (mark : MarkView) → Spells bytes mark
        → IsMarkOf given (outcome_of compile given) mark → (part : Part)
        → IsHonest compile known
        (leaves (Mark bytes) part (only_files (outcome_of compile given).files)) }
{}

/// Nothing or one thing is kept of a build, and one where its mark reads and has the listing of its files.
pub fn one_kept()
    ensures one { (held : Holding) (one other : Kept) → IsKept held one → IsKept held other
        → one ≡ other }
    ensures some { (held : Holding) (bytes : List ℕ) (mark : MarkView)
        → held.mark ≡ Some bytes → Spells bytes mark → mark.outputs ≡ rows_of held.files
        → IsKept held (kept_with mark held.files) }
{}

/// An honest folder whose mark reads is kept.
pub fn honest_is_kept()
    ensures { (compile : Content → Outcome) (known : List Given) (held : Holding)
        (bytes : List ℕ) (mark : MarkView) → IsHonest compile known held
        → held.mark ≡ Some bytes → Spells bytes mark
        → IsKept held (kept_with mark held.files) }
{}

/// What is kept of an honest folder, where its mark matches an input of its own, has that input's outcome, as
/// long as no two inputs of different contents have one description.
pub fn kept_is_the_outcome()
    ensures { (compile : Content → Outcome) (known : List Given) (held : Holding) (kept : Kept)
        (given : Given) → IsHonest compile known held → IsKept held kept
        → NoClash (given ∷ known) → length given.needs ≡ length given.job.need_apps
        → IsTrue (matches kept.mark given.job given.needs)
        → kept.outcome ≡ outcome_of compile given }
{}
