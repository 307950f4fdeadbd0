// A spawner in memory.
ghost use Rattle.std.specs.Prelude.{◌≡◌, ◌<◌, ◌≤◌, ◌++◌, ◌∷◌, [], List, Some, IfOk, IfSome, length, vec_len};
ghost use Rattle.partition_face.specs.declared.spawner.ProgramRun.{ProgramRun};
ghost use Rattle.partition_face.specs.Spawners.{most_output, spawner_of};

use crate::spawner::{MOST_OUTPUT, ProgramRun, SpawnFault, Spawner, Start};
use compile_model::{Texts, Verdict};
use mx_base::{Bytes, FaultPlan, Faults, Text, Variable, Variables, copy_text};
use std::alloc::{AllocError, Global};

/// Gives the verdicts of a list, one after another, and keeps what it was asked to run. It fails at the calls of a
/// list, numbered from 1, and where no verdict is left.
#[derive(Drop)]
pub struct MemSpawner {
    verdicts: Vec<Verdict>,
    runs: Vec<ProgramRun>,
    plan: FaultPlan,
}

impl MemSpawner {
    ghost use Rattle.partition_face.specs.MemSpawners.{runs_of};

    /// A spawner that has run nothing.
    pub fn new(alloc: Global, verdicts: Vec<Verdict>, failing: Vec<u64>) -> MemSpawner
        ensures { ⟦<MemSpawner as Spawner>⟧.known result ≡ spawner_of (Some []) 0 }
    {
        MemSpawner {
            verdicts,
            runs: Vec::new(alloc),
            plan: FaultPlan::new(failing),
        }
    }

    /// What it was asked to run, in order.
    pub fn runs(&self) -> &[ProgramRun]
        ensures { result.now ≡ runs_of self.now }
    {
        self.runs.as_slice()
    }
}

impl Spawner for MemSpawner {
    ghost known = { λ spawner. spawner_of (Some spawner.runs.items) spawner.plan };

    fn run(
        &mut self,
        alloc: Global,
        words: &[Text],
        variables: &[Variable],
    ) -> Result<Verdict, SpawnFault> {
        let start = start_of(alloc, words, variables)?;
        let answer = answer_of(alloc, self.verdicts.get(self.runs.len()))?;
        self.runs.push(ProgramRun {
            start,
            verdict: None,
        })?;
        if self.plan.fails() {
            return Err(SpawnFault::Failed);
        }
        let Some((kept, verdict)) = answer else {
            self.plan.raise();
            return Err(SpawnFault::Failed);
        };
        settle_last(&mut self.runs, kept);
        Ok(verdict)
    }
}

// How a program is started, copied.
fn start_of(alloc: Global, words: &[Text], variables: &[Variable]) -> Result<Start, AllocError>
    ensures { IfOk result (λ start.
        start ≡ record { words = words.now; variables = variables.now }) }
{
    Ok(Start {
        words: copied_words(alloc, words)?,
        variables: copied_variables(alloc, variables)?,
    })
}

fn copied_words(alloc: Global, words: &[Text]) -> Result<Texts, AllocError>
    ensures { IfOk result (λ copied. copied ≡ words.now) }
{
    let mut copied = Texts::new(alloc);
    for word in words {
        copied.push(copy_text(word)?)?;
    }
    Ok(copied)
}

fn copied_variables(alloc: Global, variables: &[Variable]) -> Result<Variables, AllocError>
    ensures { IfOk result (λ copied. copied ≡ variables.now) }
{
    let mut copied = Variables::new(alloc);
    for variable in variables {
        copied.push(variable.clone()?)?;
    }
    Ok(copied)
}

// The verdict that is to be answered, with no more text than a spawner keeps, twice: to be kept and to be handed out.
fn answer_of(
    alloc: Global,
    verdict: Option<&Verdict>,
) -> Result<Option<(Verdict, Verdict)>, AllocError>
    ensures same { IfOk result (λ answer. IfSome answer (λ both. both.0 ≡ both.1)) }
    ensures short { IfOk result (λ answer. IfSome answer (λ both.
        length both.1.text ≤ most_output)) }
{
    let Some(verdict) = verdict else {
        return Ok(None);
    };
    let text = first_bytes(verdict.text.as_slice());
    let kept = verdict_of(alloc, verdict.status, text)?;
    let answer = verdict_of(alloc, verdict.status, text)?;
    Ok(Some((kept, answer)))
}

fn first_bytes(text: &[u8]) -> &[u8]
    ensures { length result.now ≤ most_output }
{
    if text.len() <= MOST_OUTPUT {
        text
    } else {
        &text[..MOST_OUTPUT]
    }
}

fn verdict_of(alloc: Global, status: u32, text: &[u8]) -> Result<Verdict, AllocError>
    ensures { IfOk result (λ verdict. verdict ≡ record { status = status; text = text.now }) }
{
    Ok(Verdict {
        status,
        text: Bytes::from_slice(alloc, text)?,
    })
}

// Writes the verdict of the last run, which came to its end.
fn settle_last(runs: &mut Vec<ProgramRun>, verdict: Verdict)
    requires { 0 < vec_len runs.old }
    ensures { (before : List ProgramRun) (run : ProgramRun) → runs.old.items ≡ before ++ run ∷ []
        → runs.new.items ≡ before ++ record run { verdict = Some verdict } ∷ [] }
{
    let last = runs.len() - 1;
    runs[last].verdict = Some(verdict);
}
