// What a match means.
ghost use Rattle.std.specs.Prelude.{◌≡◌, ◌↔◌, IsTrue, List, Option, None, Some, length, map};
ghost use Rattle.build_manifest.specs.Mark.{MarkView};
ghost use Rattle.compile_model.specs.declared.job.Job.{Job};
ghost use Rattle.compile_model.specs.declared.outcome.Outcome.{Outcome};
ghost use Rattle.staleness.specs.declared.why.Why.{Why};
ghost use Rattle.staleness.specs.Matching.{matches, Describes};
ghost use Rattle.staleness.specs.Report.{IsWhy};

/// A mark matches exactly the inputs that it describes: those with its options text, its source rows, its
/// needs' apps and their output digests.
pub fn matches_what_it_describes()
    ensures { (mark : MarkView) (job : Job) (outcomes : List Outcome)
        → length outcomes ≡ length job.need_apps
        → IsTrue (matches mark job outcomes) ↔ Describes mark job outcomes }
{}

/// Where a mark matches an input, and the digests of the needs' outcomes are what stands for these needs,
/// a report has no reason to list the job.
pub fn lists_no_match()
    ensures { (job : Job) (mark : MarkView) (outcomes : List Outcome) (why : Option Why)
        → length outcomes ≡ length job.need_apps → IsTrue (matches mark job outcomes)
        → IsWhy (map (λ outcome. Some outcome.digest) outcomes) job (Some mark) why → why ≡ None }
{}
