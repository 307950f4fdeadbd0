// Whether a mark describes an input.
ghost use Rattle.std.specs.Prelude.{◌≡◌, ◌↔◌, ◌<◌, ◌&&◌, IsTrue, length};
ghost use Rattle.std.specs.Str.{bytes_eq};
ghost use Rattle.staleness.specs.Matching.{same_rows, same_row, same_apps, job_matches, need_matches, needs_match, matches, Describes};

use build_manifest::Mark;
use compile_model::{Input, Job, Outcome};
use mx_base::{AppName, Digest32, FileRow, Shared};

/// Whether the mark is of the job, the outputs of its needs aside: the options text, the rows of the sources
/// and the apps of the needs are equal.
#[tactic(auto, using(crate::proofs::MatchingLemmas::as_many_needs))]
pub fn matches_job(mark: &Mark, job: &Job) -> bool
    ensures value { result ≡ job_matches mark.now job.now }
    ensures as_many { IsTrue result → length mark.now.needs ≡ length job.now.need_apps }
{
    mark.options.as_slice() == job.options.as_slice()
        && same_rows(mark.sources.as_slice(), job.rows.as_slice())
        && same_apps(mark.needs.as_slice(), job.need_apps.as_slice())
}

/// Whether the mark's need of this index has this outcome's digest.
pub fn matches_need(mark: &Mark, index: usize, outcome: &Outcome) -> bool
    requires { index < length mark.now.needs }
    ensures { result ≡ need_matches mark.now.needs index outcome.now }
{
    mark.needs.as_slice()[index].0.as_slice() == outcome.digest.as_slice()
}

/// Whether the mark describes the input.
#[tactic(auto, using(crate::proofs::MatchingLemmas::as_many_needs))]
pub fn matches_now(mark: &Mark, input: &Input) -> bool
    requires { length input.now.needs.now ≡ length input.now.job.now.need_apps }
    ensures { result ≡ matches mark.now input.now.job.now input.now.needs.now }
{
    matches_job(mark, input.job) && same_needs(mark, input.needs)
}

#[tactic(auto, using(crate::proofs::MatchingLemmas::needs_match_step))]
fn same_needs(mark: &Mark, outcomes: &[Shared<Outcome>]) -> bool
    requires { length outcomes.now ≡ length mark.now.needs }
    ensures { result ≡ needs_match mark.now.needs 0 outcomes.now }
{
    for (index, outcome) in outcomes.iter().enumerate() {
        if !matches_need(mark, index, outcome.get()) {
            return false;
        }
    }
    true
}

/// Whether rows are the same, one by one.
#[tactic(auto, using(crate::proofs::MatchingLemmas::rows_differ))]
pub fn same_rows(rows: &[FileRow], others: &[FileRow]) -> bool
    ensures { result ≡ same_rows rows.now others.now }
{
    if rows.len() != others.len() {
        return false;
    }
    for (at, row) in rows.iter().enumerate() {
        if !same_row(row, &others[at]) {
            return false;
        }
    }
    true
}

pub(crate) fn same_row(row: &FileRow, other: &FileRow) -> bool
    ensures { result ≡ same_row row.now other.now }
{
    row.length == other.length
        && row.digest.as_slice() == other.digest.as_slice()
        && row.path.as_str() == other.path.as_str()
}

#[tactic(auto, using(crate::proofs::MatchingLemmas::apps_differ))]
fn same_apps(needs: &[(Digest32, AppName)], apps: &[AppName]) -> bool
    ensures { result ≡ same_apps needs.now apps.now }
{
    if needs.len() != apps.len() {
        return false;
    }
    for (at, need) in needs.iter().enumerate() {
        if !same_app(&need.1, &apps[at]) {
            return false;
        }
    }
    true
}

fn same_app(app: &AppName, other: &AppName) -> bool
    ensures { result ≡ bytes_eq app.now other.now }
{
    app.as_str() == other.as_str()
}
