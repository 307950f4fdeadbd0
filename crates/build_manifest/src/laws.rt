// Laws of the texts of marks.
ghost use Rattle.std.specs.Prelude.{◌≡◌, ℕ, List, [], ◌++◌};
ghost use Rattle.compile_model.specs.declared.job.Job.{Job};
ghost use Rattle.compile_model.specs.declared.outcome.Outcome.{Outcome};
ghost use Rattle.build_manifest.specs.declared.mark.MarkFormat.TheVariants.{One};
ghost use Rattle.build_manifest.specs.Description.{description_of};
ghost use Rattle.build_manifest.specs.Mark.{MarkView};
ghost use Rattle.build_manifest.specs.MarkOf.{mark_in, mark_of, upgraded};
ghost use Rattle.build_manifest.specs.Text.{Spells};

/// No bytes are the text of two marks.
pub fn one_mark()
    ensures { (bytes : List ℕ) (a b : MarkView) → Spells bytes a → Spells bytes b → a ≡ b }
{}

/// No mark's text is a proper beginning of another's.
pub fn no_mark_begins_another()
    ensures { (bytes more : List ℕ) (a b : MarkView) → Spells bytes a → Spells (bytes ++ more) b
        → more ≡ [] }
{}

/// What was built has one mark: its mark in the first form, upgraded, is its mark.
pub fn upgrade_of_an_outcome()
    ensures { (job : Job) (needs : List Outcome) (outcome : Outcome)
        → upgraded (mark_in One (description_of job needs) outcome.rows outcome.text)
        ≡ mark_of job needs outcome }
{}
