// The report of a compile.
ghost use Rattle.std.specs.Prelude.{◌≡◌, ◌++◌, length, count_by, true, IfOk, OnOk};
ghost use Rattle.mix_report.specs.Report.{report, jobs_text, job_text, fate_text, shown_text, shown_after, failed_text, skipped_text, count_text, totals, is_built, is_failed, is_skipped};

use crate::app::app_at;
use compile_model::{Fate, Job, Outcome, Plan};
use mx_base::{Bytes, push_decimal};
use std::alloc::{AllocError, Global};

/// What became of each job in order, with the lines of its outcome's text, and last how many ended in each way.
///
/// It takes one fate for each job. Its only error is want of memory.
pub fn report(alloc: Global, plan: &Plan, fates: &[Fate]) -> Result<Bytes, AllocError>
    requires { length fates.now ≡ length plan.now.jobs }
    ensures { IfOk result (λ text. text ≡ report plan.now.jobs fates.now) }
{
    let jobs = plan.jobs.as_slice();
    let mut text = Vec::new(alloc);
    push_jobs(alloc, &mut text, jobs, fates)?;
    push_totals(alloc, &mut text, jobs, fates)?;
    Ok(Bytes::from_vec(text))
}

fn push_jobs(
    alloc: Global,
    text: &mut Vec<u8>,
    jobs: &[Job],
    fates: &[Fate],
) -> Result<(), AllocError>
    requires { length fates.now ≡ length jobs.now }
    ensures { OnOk result (text.new.items ≡ text.old.items
        ++ jobs_text jobs.now jobs.now fates.now) }
{
    for (place, job) in jobs.iter().enumerate() {
        push_job(alloc, text, jobs, job, &fates[place])?;
    }
    Ok(())
}

fn push_job(
    alloc: Global,
    text: &mut Vec<u8>,
    jobs: &[Job],
    job: &Job,
    fate: &Fate,
) -> Result<(), AllocError>
    ensures { OnOk result (text.new.items ≡ text.old.items ++ job_text jobs.now job.now fate.now) }
{
    text.extend_from_slice(b"==> ")?;
    text.extend_from_slice(job.app.as_str().as_bytes())?;
    text.extend_from_slice(b" ")?;
    text.extend_from_slice(job.version.as_slice())?;
    push_fate(alloc, text, jobs, fate)?;
    Ok(())
}

fn push_fate(alloc: Global, text: &mut Vec<u8>, jobs: &[Job], fate: &Fate) -> Result<(), AllocError>
    ensures { OnOk result (text.new.items ≡ text.old.items ++ fate_text jobs.now fate.now) }
{
    match fate {
        Fate::Built(outcome) => {
            text.extend_from_slice(b" built\n")?;
            push_shown(text, &outcome.get().text)
        }
        Fate::Failed(outcome) => push_failed(alloc, text, outcome.get()),
        Fate::Skipped { need } => push_skipped(text, jobs, *need),
    }
}

fn push_failed(alloc: Global, text: &mut Vec<u8>, outcome: &Outcome) -> Result<(), AllocError>
    ensures { OnOk result (text.new.items ≡ text.old.items
        ++ failed_text outcome.now.status outcome.now.text) }
{
    text.extend_from_slice(b" failed with status ")?;
    push_decimal(alloc, text, outcome.status as u64)?;
    text.extend_from_slice(b"\n")?;
    push_shown(text, &outcome.text)?;
    Ok(())
}

fn push_skipped(text: &mut Vec<u8>, jobs: &[Job], need: u32) -> Result<(), AllocError>
    ensures { OnOk result (text.new.items ≡ text.old.items ++ skipped_text jobs.now need) }
{
    text.extend_from_slice(b" skipped, needs ")?;
    text.extend_from_slice(app_at(jobs, need))?;
    text.extend_from_slice(b"\n")?;
    Ok(())
}

// Each line after two spaces.
#[tactic(auto, using(crate::proofs::ReportLemmas::shown_lines))]
fn push_shown(text: &mut Vec<u8>, shown: &Bytes) -> Result<(), AllocError>
    ensures { OnOk result (text.new.items ≡ text.old.items ++ shown_text shown.now) }
{
    push_bytes_shown(text, shown.as_slice())
}

fn push_bytes_shown(text: &mut Vec<u8>, shown: &[u8]) -> Result<(), AllocError>
    ensures { OnOk result (text.new.items ≡ text.old.items ++ shown_after true shown.now) }
{
    let mut begins = true;
    for byte in shown {
        if begins {
            text.extend_from_slice(b"  ")?;
        }
        text.push(*byte)?;
        begins = *byte == b'\n';
    }
    if begins {
        Ok(())
    } else {
        text.extend_from_slice(b"\n")
    }
}

fn push_totals(
    alloc: Global,
    text: &mut Vec<u8>,
    jobs: &[Job],
    fates: &[Fate],
) -> Result<(), AllocError>
    ensures { OnOk result (text.new.items ≡ text.old.items ++ totals jobs.now fates.now) }
{
    let counts = tally_of(fates);
    push_count(alloc, text, jobs.len(), b" dependencies: ")?;
    push_count(alloc, text, counts.built, b" built, ")?;
    push_count(alloc, text, counts.failed, b" failed, ")?;
    push_count(alloc, text, counts.skipped, b" skipped\n")?;
    Ok(())
}

// How many dependencies ended in each way.
#[derive(Clone, Copy)]
struct Tally {
    built: usize,
    failed: usize,
    skipped: usize,
}

fn tally_of(fates: &[Fate]) -> Tally
    ensures built { result.built ≡ count_by is_built fates.now }
    ensures failed { result.failed ≡ count_by is_failed fates.now }
    ensures skipped { result.skipped ≡ count_by is_skipped fates.now }
{
    let mut built = 0;
    let mut failed = 0;
    let mut skipped = 0;
    for fate in fates {
        match fate {
            Fate::Built(_) => built += 1,
            Fate::Failed(_) => failed += 1,
            Fate::Skipped { .. } => skipped += 1,
        }
    }
    Tally {
        built,
        failed,
        skipped,
    }
}

fn push_count(
    alloc: Global,
    text: &mut Vec<u8>,
    count: usize,
    label: &[u8],
) -> Result<(), AllocError>
    ensures { OnOk result (text.new.items ≡ text.old.items ++ count_text count label.now) }
{
    push_decimal(alloc, text, count as u64)?;
    text.extend_from_slice(label)
}
