// The plan of a project.
ghost use Rattle.std.specs.Prelude.{◌≡◌, List, length, IfOk, IsFalse, Ok};
ghost use Rattle.std.specs.List.{All};
ghost use Rattle.mx_base.specs.Blame.{AnswersBy, fails};
ghost use Rattle.mx_base.specs.BuildName.{HasBuildName, build_name};
ghost use Rattle.mx_base.specs.declared.file.File.{File};
ghost use Rattle.compile_model.specs.Planned.{ArePlanned};
ghost use Rattle.tree_store.specs.Known.{Told, OnlyReads};
ghost use Rattle.converger.specs.Divergence.{parts_in};
ghost use Rattle.project_file.specs.Files.{AreSettings};
ghost use Rattle.build_plan.specs.Blame.{blame_of};
ghost use Rattle.build_plan.specs.Found.{AreFoundFor, IsFound};
ghost use Rattle.build_plan.specs.Jobs.{AllFit};
ghost use Rattle.build_plan.specs.Plan.{IsPlan, IsPlanOf, build_of};
ghost use Rattle.build_plan.specs.Stages.{LiveWith, LivesTogether, MakesJobs, Schedules, Then};

use crate::dependencies::dependencies;
use crate::error::PlanError;
use crate::found::Found;
use crate::jobs::jobs;
use crate::lines::lines;
use crate::root::{root, settings};
use crate::scene::Scene;
use crate::versions::versions;
use compile_model::{Job, Jobs, Plan};
use converger::{ConvergeError, Converged, converge, divergences};
use dep_options::Decl;
use dep_rows::Rows;
use mx_base::{AppName, NameError, build_name};
use project_file::Settings;
use semver::Version;
use std::alloc::{AllocError, Global};
use tree_store::Store;

/// Reads what a project and its dependencies declare, and plans a job for each app that the environment reaches for the
/// target. The plan is named as their build.
///
/// # Errors
///
/// What is met first: `Settings`, `NoProject` or `Project` of the root, then row by row `PathMissing`, `Project` of a
/// dependency's manifest, `NotLocked` or `TooManyRows`, then `Diverged`, `Cycle`, and in the order of the plan
/// `TooLarge`. `Read` comes where the store failed, `OutOfMemory` where there was not enough memory.
pub fn plan<S: Store>(
    alloc: Global,
    store: &mut S,
    env: &AppName,
    target: &AppName,
) -> Result<Plan, PlanError>
    requires { HasBuildName env.now target.now }
    ensures name { IfOk result (λ plan. plan.env ≡ build_name env.now target.now) }
    ensures planned { IfOk result (λ plan. ArePlanned plan.jobs) }
    ensures fit { IfOk result (λ plan. AllFit plan.jobs) }
    ensures answer { AnswersBy (λ plan. plan.jobs) blame_of result
        (Told (S.known store.old) (λ files. IsPlan files env.now target.now)) }
    // Nothing is written.
    ensures reads { OnlyReads (S.known store.old) (S.known store.new) (fails blame_of result) }
{
    let settings = settings(alloc, store)?;
    let root = root(alloc, store)?;
    planned(alloc, store, &settings, root.decls.as_slice(), env, target)
}

/// The same over these declarations in place of the root's: what they and those of the dependencies come to.
///
/// # Errors
///
/// Those of `plan` without `NoProject` and the root's `Project`.
pub fn plan_of<S: Store>(
    alloc: Global,
    store: &mut S,
    root: &[Decl],
    env: &AppName,
    target: &AppName,
) -> Result<Plan, PlanError>
    requires { HasBuildName env.now target.now }
    ensures name { IfOk result (λ plan. plan.env ≡ build_name env.now target.now) }
    ensures planned { IfOk result (λ plan. ArePlanned plan.jobs) }
    ensures fit { IfOk result (λ plan. AllFit plan.jobs) }
    ensures answer { AnswersBy (λ plan. plan.jobs) blame_of result
        (Told (S.known store.old)
        (λ files. IsPlanOf files root.now (build_of env.now target.now))) }
    // Nothing is written.
    ensures reads { OnlyReads (S.known store.old) (S.known store.new) (fails blame_of result) }
{
    let settings = settings(alloc, store)?;
    planned(alloc, store, &settings, root, env, target)
}

/// The plan with these settings.
fn planned<S: Store>(
    alloc: Global,
    store: &mut S,
    settings: &Settings,
    root: &[Decl],
    env: &AppName,
    target: &AppName,
) -> Result<Plan, PlanError>
    requires { HasBuildName env.now target.now }
    ensures name { IfOk result (λ plan. plan.env ≡ build_name env.now target.now) }
    ensures answer { AnswersBy (λ plan. plan.jobs) blame_of result (Told (S.known store.old)
        (λ files answer. AreSettings files (Ok settings.now)
        → IsPlanOf files root.now (build_of env.now target.now) answer)) }
    ensures planned { IfOk result (λ plan. ArePlanned plan.jobs) }
    ensures fit { IfOk result (λ plan. AllFit plan.jobs) }
    ensures reads { OnlyReads (S.known store.old) (S.known store.new) (fails blame_of result) }
{
    let name = name_of(alloc, env, target)?;
    let jobs = jobs_of(alloc, store, settings, root, env, target)?;
    Ok(Plan {
        env: name,
        jobs: Jobs::from_vec(jobs),
    })
}

/// The name of the build, which has one.
pub fn name_of(alloc: Global, env: &AppName, target: &AppName) -> Result<AppName, AllocError>
    requires { HasBuildName env.now target.now }
    ensures { IfOk result (λ name. name ≡ build_name env.now target.now) }
{
    match build_name(alloc, env, target) {
        Ok(name) => Ok(name),
        Err(NameError::OutOfMemory) => Err(AllocError),
        Err(NameError::Empty) => unreachable!(),
        Err(NameError::TooLong) => unreachable!(),
        Err(NameError::BadByte { .. }) => unreachable!(),
    }
}

/// The jobs of a project with these settings and these declarations.
fn jobs_of<S: Store>(
    alloc: Global,
    store: &mut S,
    settings: &Settings,
    root: &[Decl],
    env: &AppName,
    target: &AppName,
) -> Result<Vec<Job>, PlanError>
    ensures answer { AnswersBy (λ jobs. jobs.items) blame_of result (Told (S.known store.old)
        (λ files answer. AreSettings files (Ok settings.now)
        → IsPlanOf files root.now (build_of env.now target.now) answer)) }
    ensures planned { IfOk result (λ jobs. ArePlanned jobs.items) }
    ensures fit { IfOk result (λ jobs. AllFit jobs.items) }
    ensures reads { OnlyReads (S.known store.old) (S.known store.new) (fails blame_of result) }
{
    let all = dependencies(alloc, store, root)?;
    let converged = converged(alloc, all.rows, &all.found)?;
    jobs_for(alloc, store, settings, &converged, &all.found, env, target)
}

/// The rows, where they live together.
fn converged(alloc: Global, rows: Rows, found: &[Found]) -> Result<Converged, PlanError>
    requires { AreFoundFor rows found.now }
    ensures rows { IfOk result (λ converged. converged.rows ≡ rows) }
    ensures answer { (files : List File) → All (IsFound files) found.now →
        AnswersBy (λ converged. converged.rows) blame_of result (LivesTogether files rows) }
    ensures alone { IsFalse (fails blame_of result) }
{
    let versions = versions(alloc, found)?;
    judge(alloc, &rows, versions.as_slice())?;
    match converge(alloc, rows, versions) {
        Ok(converged) => Ok(converged),
        Err(ConvergeError::OutOfMemory) => Err(PlanError::OutOfMemory),
        Err(ConvergeError::Diverged(_)) => unreachable!(),
        Err(ConvergeError::NoVersion { .. }) => unreachable!(),
    }
}

/// Refuses rows that can't live together.
fn judge(alloc: Global, rows: &Rows, versions: &[Option<Version>]) -> Result<(), PlanError>
    requires { length versions.now ≡ length rows.now.winners }
    ensures answer { AnswersBy (λ _. rows.now) blame_of result (LiveWith rows.now
        (parts_in versions.now)) }
    ensures alone { IsFalse (fails blame_of result) }
{
    let list = divergences(alloc, rows, versions)?;
    if list.as_slice().is_empty() {
        return Ok(());
    }
    let lines = lines(alloc, rows.rows(), list.as_slice())?;
    Err(PlanError::Diverged(lines))
}

/// The jobs of the winners that the environment reaches for the target.
fn jobs_for<S: Store>(
    alloc: Global,
    store: &mut S,
    settings: &Settings,
    converged: &Converged,
    found: &[Found],
    env: &AppName,
    target: &AppName,
) -> Result<Vec<Job>, PlanError>
    requires found { AreFoundFor converged.now.rows found.now }
    requires meant { Told (S.known store.old) (λ files. All (IsFound files)) found.now }
    ensures answer { AnswersBy (λ jobs. jobs.items) blame_of result (Told (S.known store.old)
        (λ files. Then (Schedules settings.now converged.now.rows.rows env.now target.now)
        (MakesJobs files))) }
    ensures planned { IfOk result (λ jobs. ArePlanned jobs.items) }
    ensures fit { IfOk result (λ jobs. AllFit jobs.items) }
    ensures reads { OnlyReads (S.known store.old) (S.known store.new) (fails blame_of result) }
{
    let scene = Scene::of(alloc, settings, converged, found, env, target)?;
    jobs(alloc, store, &scene)
}
