// What was built before.
use build_manifest::Mark;
use compile_model::Outcome;
use mx_base::Shared;

/// An outcome of an earlier build, with its mark.
#[derive(Drop)]
pub struct Kept {
    /// What it was made from.
    pub mark: Mark,
    /// What was made.
    pub outcome: Shared<Outcome>,
}
