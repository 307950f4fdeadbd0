// What is stale of a plan.
ghost use Rattle.std.specs.Prelude.{◌≡◌, ◌<◌, ◌↔◌, length, map, slice_get, is_some, IsTrue, IfOk, OnOk, MatchOption, Some, None, if◌then◌else◌};
ghost use Rattle.std.specs.List.{All};
ghost use Rattle.std.specs.Option.{option_copied};
ghost use Rattle.std.specs.Ordering.{is_lt};
ghost use Rattle.mx_base.specs.Listing.{AreRowsInOrder};
ghost use Rattle.mx_base.specs.Order.{text_cmp};
ghost use Rattle.compile_model.specs.Planned.{ArePlanned, IsNamed};
ghost use Rattle.staleness.specs.Report.{IsChangedNeed, IsFirstChange, IsStaleReport, IsWhy, NeedStands, digest_at, marked_digest, with_reason};

use crate::matching::same_row;
use crate::why::Why;
use build_manifest::Mark;
use compile_model::{Job, Plan};
use mx_base::{AppName, Digest32, FileRow, RelPath, listing_digest};
use std::alloc::{AllocError, Global};

/// The jobs of a plan that would be compiled again, by their places, with the first reason for each, in
/// their order. There is one mark or none for each job.
pub fn stale_report(
    alloc: Global,
    plan: &Plan,
    marks: &[Option<Mark>],
) -> Result<Vec<(u32, Why)>, AllocError>
    requires planned { ArePlanned plan.now.jobs }
    requires each { length marks.now ≡ length plan.now.jobs }
    ensures { IfOk result (λ report. IsStaleReport plan.now.jobs marks.now report.items) }
{
    let mut report = Vec::new(alloc);
    let mut digests = Vec::with_capacity(alloc, marks.len())?;
    for (place, job) in plan.jobs.as_slice().iter().enumerate() {
        let mark = &marks[place];
        let reason = why(job, mark, digests.as_slice())?;
        let digest = standing(alloc, mark, &reason)?;
        digests.push(digest)?;
        list(&mut report, place as u32, reason)?;
    }
    Ok(report)
}

// What stands for a job from now on: the digest of its marked outputs, and none where it is listed.
fn standing(
    alloc: Global,
    mark: &Option<Mark>,
    reason: &Option<Why>,
) -> Result<Option<Digest32>, AllocError>
    ensures { IfOk result (λ digest. digest
        ≡ (if is_some reason.now then None else marked_digest mark.now)) }
{
    match (reason, mark) {
        (None, Some(mark)) => Ok(Some(listing_digest(alloc, &mark.outputs)?)),
        _ => Ok(None),
    }
}

// Lists a place, where there is a reason.
fn list(report: &mut Vec<(u32, Why)>, place: u32, reason: Option<Why>) -> Result<(), AllocError>
    ensures { OnOk result (report.new.items ≡ with_reason report.old.items place reason) }
{
    if let Some(why) = reason {
        report.push((place, why))?;
    }
    Ok(())
}

// Why a job would be compiled again, by the digests that stand for the jobs before it.
fn why(
    job: &Job,
    mark: &Option<Mark>,
    digests: &[Option<Digest32>],
) -> Result<Option<Why>, AllocError>
    requires before { All (λ need. need < length digests.now) job.now.needs }
    requires named { IsNamed job.now }
    ensures { IfOk result (IsWhy (map (digest_at digests.now) job.now.needs) job.now mark.now) }
{
    match mark {
        Some(mark) => what_differs(job, mark, digests),
        None => Ok(Some(Why::NoMark)),
    }
}

// In what a mark differs from what it would be now.
fn what_differs(
    job: &Job,
    mark: &Mark,
    digests: &[Option<Digest32>],
) -> Result<Option<Why>, AllocError>
    requires before { All (λ need. need < length digests.now) job.now.needs }
    requires named { IsNamed job.now }
    ensures { IfOk result
        (IsWhy (map (digest_at digests.now) job.now.needs) job.now (Some mark.now)) }
{
    if !same_options(mark, job) {
        return Ok(Some(Why::Options));
    }
    if let Some(path) = changed_source(mark, job) {
        return Ok(Some(Why::Sources(path.clone()?)));
    }
    match changed_need(mark, job, digests) {
        Some(app) => Ok(Some(Why::Need(app.clone()?))),
        None => Ok(None),
    }
}

fn same_options(mark: &Mark, job: &Job) -> bool
    ensures { IsTrue result ↔ (mark.now.options ≡ job.now.options) }
{
    mark.options.as_slice() == job.options.as_slice()
}

// The least source of which the mark says something else than the job.
fn changed_source<'a>(mark: &'a Mark, job: &'a Job) -> Option<&'a RelPath>
    ensures { MatchOption result (mark.now.sources ≡ job.now.rows)
        (λ path. IsFirstChange mark.now.sources job.now.rows path.now) }
{
    first_change(mark.sources.as_slice(), job.rows.as_slice())
}

// The least path whose rows differ, or that only one of two listings has.
fn first_change<'a>(rows: &'a [FileRow], others: &'a [FileRow]) -> Option<&'a RelPath>
    requires rows { AreRowsInOrder rows.now }
    requires others { AreRowsInOrder others.now }
    ensures { MatchOption result (rows.now ≡ others.now)
        (λ path. IsFirstChange rows.now others.now path.now) }
{
    let common = rows.len().min(others.len());
    for at in 0..common {
        if !same_row(&rows[at], &others[at]) {
            return Some(lesser(&rows[at].path, &others[at].path));
        }
    }
    match rows.get(common) {
        Some(row) => Some(&row.path),
        None => Some(&others.get(common)?.path),
    }
}

fn lesser<'a>(one: &'a RelPath, other: &'a RelPath) -> &'a RelPath
    ensures { result.now ≡ (if is_lt (text_cmp one.now other.now) then one.now else other.now) }
{
    if one < other { one } else { other }
}

// The first need of the job that doesn't stand, or else the first that only the mark has.
fn changed_need<'a>(
    mark: &'a Mark,
    job: &'a Job,
    digests: &[Option<Digest32>],
) -> Option<&'a AppName>
    requires before { All (λ need. need < length digests.now) job.now.needs }
    requires named { IsNamed job.now }
    ensures { IsChangedNeed job.now.need_apps (map (digest_at digests.now) job.now.needs)
        mark.now.needs (option_copied result) }
{
    first_fallen(mark.needs.as_slice(), job, digests)
}

// The same by the needs of a mark.
fn first_fallen<'a>(
    needs: &'a [(Digest32, AppName)],
    job: &'a Job,
    digests: &[Option<Digest32>],
) -> Option<&'a AppName>
    requires before { All (λ need. need < length digests.now) job.now.needs }
    requires named { IsNamed job.now }
    ensures { IsChangedNeed job.now.need_apps (map (digest_at digests.now) job.now.needs) needs.now
        (option_copied result) }
{
    let (places, apps) = (job.needs.as_slice(), job.need_apps.as_slice());
    for (at, app) in apps.iter().enumerate() {
        if !stands(needs, at, app, digests[places[at] as usize]) {
            return Some(app);
        }
    }
    match needs.get(apps.len()) {
        Some(need) => Some(&need.1),
        None => None,
    }
}

// Whether a mark's need of this index is this app, with the digest that stands for it.
fn stands(
    needs: &[(Digest32, AppName)],
    index: usize,
    app: &AppName,
    digest: Option<Digest32>,
) -> bool
    ensures { IsTrue result ↔ NeedStands (slice_get needs.now index) app.now digest }
{
    let Some(need) = needs.get(index) else {
        return false;
    };
    match digest {
        Some(digest) => is_need(need, app, &digest),
        None => false,
    }
}

fn is_need(need: &(Digest32, AppName), app: &AppName, digest: &Digest32) -> bool
    ensures { IsTrue result ↔ (need.now ≡ (digest.now, app.now)) }
{
    need.1.as_str() == app.as_str() && need.0.as_slice() == digest.as_slice()
}
