// Compiling one job after another.
ghost use Rattle.std.specs.Prelude.{◌≡◌, None, [], ◌∷◌, true, false, IsTrue, IfOk, IfErr, IfSome, length, vec_len};
ghost use Rattle.mx_base.specs.Blame.{fails};
ghost use Rattle.mx_base.specs.Causes.{Counted};
ghost use Rattle.std.specs.List.{All};
ghost use Rattle.compile_model.specs.Blame.{compile_blame, seq_blame};
ghost use Rattle.compile_model.specs.Calls.{after_calls, call_at, calls_by, calls_unless};
ghost use Rattle.compile_model.specs.Planned.{IsNamed};
ghost use Rattle.compile_model.specs.Seq.{seq, first_unbuilt, outcome_at, outcomes_of, fate_of, DiedAt};
ghost use Rattle.std.specs.Option.{option_copied};

use crate::compiler::{CompileFault, Compiler, Input};
use crate::job::{Job, Plan};
use crate::outcome::{Fate, Outcome};
use mx_base::Shared;
use std::alloc::{AllocError, AllocFailed, Global};

/// Why the jobs were not all compiled.
#[derive(Clone, Copy, PartialEq, Eq)]
pub enum SeqFault {
    /// The compiler died at the job of this place.
    Died { place: usize },
    OutOfMemory,
}

impl From<AllocError> for SeqFault {
    ghost use Rattle.std.specs.Prelude.{◌≡◌};
    ghost use Rattle.compile_model.specs.declared.seq.SeqFault.TheVariants.{OutOfMemory};

    ghost from_gives = { λ _ e. e ≡ OutOfMemory };

    fn from(_: AllocError) -> SeqFault {
        SeqFault::OutOfMemory
    }
}

impl<T: Drop> From<AllocFailed<T>> for SeqFault {
    ghost use Rattle.std.specs.Prelude.{◌≡◌};
    ghost use Rattle.compile_model.specs.declared.seq.SeqFault.TheVariants.{OutOfMemory};

    ghost from_gives = { λ _ e. e ≡ OutOfMemory };

    fn from(_: AllocFailed<T>) -> SeqFault {
        SeqFault::OutOfMemory
    }
}

/// Compiles job after job. A job with a need that isn't built is skipped.
#[tactic(auto, using(crate::proofs::SeqLemmas::seq_take_more, crate::proofs::CallLemmas::called_more,))]
pub fn seq_build<C: Compiler>(
    alloc: Global,
    plan: &Plan,
    compiler: &mut C,
) -> Result<Vec<Fate>, SeqFault>
    requires { All IsNamed plan.now.jobs }
    ensures fates { IfOk result (λ fates. fates.items ≡ seq C.compile_of plan.now.jobs) }
    ensures length { IfOk result (λ fates. vec_len fates ≡ length plan.now.jobs) }
    ensures died { IfErr result (DiedAt C.compile_of plan.now.jobs (C.deaths compiler.old)
        (C.deaths compiler.new)) }
    ensures cause { Counted (C.deaths compiler.old) (C.deaths compiler.new)
        (fails seq_blame result) }
    ensures calls { IfSome (calls_by C.compile_of plan.now.jobs result) (λ calls.
        C.calls compiler.new ≡ after_calls (C.calls compiler.old) calls) }
{
    let mut fates = Vec::new(alloc);
    for (place, job) in plan.jobs.as_slice().iter().enumerate() {
        match fate(alloc, fates.as_slice(), job, compiler) {
            Ok(fate) => fates.push(fate)?,
            Err(CompileFault::Died) => return Err(SeqFault::Died { place }),
            Err(CompileFault::OutOfMemory) => return Err(SeqFault::OutOfMemory),
        }
    }
    Ok(fates)
}

// What becomes of a job, after what became of those before it.
#[tactic(auto, using(crate::proofs::SeqLemmas::one_outcome_each))]
fn fate<C: Compiler>(
    alloc: Global,
    fates: &[Fate],
    job: &Job,
    compiler: &mut C,
) -> Result<Fate, CompileFault>
    requires { IsNamed job.now }
    ensures fate { IfOk result (λ fate. fate ≡ fate_of C.compile_of fates.now job.now) }
    ensures started { IsTrue (fails compile_blame result)
        → first_unbuilt fates.now job.now.needs ≡ None }
    ensures cause { Counted (C.deaths compiler.old) (C.deaths compiler.new)
        (fails compile_blame result) }
    ensures lived { IfOk result (λ fate. C.calls compiler.new ≡ after_calls (C.calls compiler.old)
        (calls_unless (first_unbuilt fates.now job.now.needs) (call_at fates.now job.now false))) }
    ensures died { IsTrue (fails compile_blame result) → C.calls compiler.new
        ≡ after_calls (C.calls compiler.old) (call_at fates.now job.now true ∷ []) }
{
    if let Some(need) = missing(fates, job.needs.as_slice()) {
        return Ok(Fate::Skipped { need });
    }
    let needs = outcomes(alloc, fates, job.needs.as_slice())?;
    let input = Input {
        job,
        needs: needs.as_slice(),
    };
    let outcome = compiler.compile(alloc, &input)?;
    let built = outcome.status == 0;
    let shared = Shared::new(alloc, outcome)?;
    if built {
        Ok(Fate::Built(shared))
    } else {
        Ok(Fate::Failed(shared))
    }
}

// The first need that isn't built.
fn missing(fates: &[Fate], needs: &[u32]) -> Option<u32>
    ensures { result ≡ first_unbuilt fates.now needs.now }
{
    for need in needs {
        if built(fates, *need).is_none() {
            return Some(*need);
        }
    }
    None
}

/// The outcomes of those needs that are built, in their order.
pub fn outcomes(
    alloc: Global,
    fates: &[Fate],
    needs: &[u32],
) -> Result<Vec<Shared<Outcome>>, AllocError>
    ensures { IfOk result (λ outcomes. outcomes.items ≡ outcomes_of fates.now needs.now) }
{
    let mut outcomes = Vec::new(alloc);
    for need in needs {
        if let Some(outcome) = built(fates, *need) {
            outcomes.push(outcome.clone()?)?;
        }
    }
    Ok(outcomes)
}

fn built(fates: &[Fate], place: u32) -> Option<&Shared<Outcome>>
    ensures { option_copied result ≡ outcome_at fates.now place }
{
    match fates.get(place as usize)? {
        Fate::Built(outcome) => Some(outcome),
        _ => None,
    }
}
