// Cases of whole projects: their plan, and what running the command does.
ghost use Rattle.std.specs.Prelude.{IfOk};
ghost use Rattle.compile_model.specs.Planned.{ArePlanned};
ghost use Rattle.tree_store.specs.Slot.{AllHere};

use crate::mortal::MortalCompiler;
use build_plan::{DivergedLine, PlanError, plan};
use case_texts::{
    Fault, app_name, calls_of, folder, push_after, refused_project, refused_settings, rule_name,
    say, store_of, word,
};
use compile_model::{Compiler, Plan};
use mix_main::run;
use mx_base::{AppName, FaultPlan, File, Files, HOST, MemSink, NameError, build_name};
use std::alloc::Global;
use tree_store::{Folder, Store, StoreFault};

/// The calls of the store that fail, an environment, and files: the plan, each job with the places and the apps of its
/// needs.
pub(crate) fn plan_case(alloc: Global, out: &mut String, texts: &[Vec<u8>]) -> Result<(), Fault> {
    let [calls, env, files @ ..] = texts else {
        return Err(Fault::Form);
    };
    let env = app_name(alloc, env.as_slice())?;
    let target = app_name(alloc, HOST.as_bytes())?;
    let mut store = store_of(alloc, calls.as_slice(), b"", files)?;
    push_plan(alloc, out, &mut store, &env, &target)
}

/// The same for a target, which stands behind the environment.
pub(crate) fn plan_for_case(
    alloc: Global,
    out: &mut String,
    texts: &[Vec<u8>],
) -> Result<(), Fault> {
    let [calls, env, target, files @ ..] = texts else {
        return Err(Fault::Form);
    };
    let env = app_name(alloc, env.as_slice())?;
    let target = app_name(alloc, target.as_slice())?;
    let mut store = store_of(alloc, calls.as_slice(), b"", files)?;
    push_plan(alloc, out, &mut store, &env, &target)
}

fn push_plan<S: Store>(
    alloc: Global,
    out: &mut String,
    store: &mut S,
    env: &AppName,
    target: &AppName,
) -> Result<(), Fault> {
    match planned(alloc, store, env, target)? {
        Ok(plan) => push_jobs(alloc, out, &plan),
        Err(error) => refused_plan(alloc, out, &error),
    }
}

/// What a project plans, where the environment and the target have a build name.
pub(crate) fn planned<S: Store>(
    alloc: Global,
    store: &mut S,
    env: &AppName,
    target: &AppName,
) -> Result<Result<Plan, PlanError>, Fault>
    ensures { IfOk result (λ answer. IfOk answer (λ plan. ArePlanned plan.jobs)) }
{
    match build_name(alloc, env, target) {
        Ok(_) => Ok(plan(alloc, store, env, target)),
        Err(NameError::OutOfMemory) => Err(Fault::Memory),
        Err(_) => Err(Fault::Form),
    }
}

/// Each job: its app and folder, the places and the apps of its needs, and its options text.
fn push_jobs(alloc: Global, out: &mut String, plan: &Plan) -> Result<(), Fault> {
    say(out, "ok")?;
    for job in plan.jobs.as_slice() {
        push_name(out, job.app.as_str())?;
        push_name(out, job.dir.as_str())?;
        for need in job.needs.as_slice() {
            write!(out, " {need}")?;
        }
        for app in job.need_apps.as_slice() {
            push_name(out, app.as_str())?;
        }
        push_after(alloc, out, " ", job.options.as_slice())?;
        say(out, ";")?;
    }
    Ok(())
}

fn refused_plan(alloc: Global, out: &mut String, error: &PlanError) -> Result<(), Fault> {
    match error {
        PlanError::Read => say(out, "refused - Read"),
        PlanError::Settings(error) => refused_settings(out, error),
        PlanError::NoProject => say(out, "refused - NoProject"),
        PlanError::Project { path, fault } => {
            refused_project(alloc, out, fault)?;
            push_name(out, path.as_str())
        }
        PlanError::PathMissing { app, dir } => {
            refused_app(out, "PathMissing", app)?;
            push_name(out, dir.as_str())
        }
        PlanError::NotLocked(app) => refused_app(out, "NotLocked", app),
        PlanError::TooManyRows => say(out, "refused - TooManyRows"),
        PlanError::Diverged(lines) => refused_lines(out, lines.as_slice()),
        PlanError::Cycle(apps) => {
            say(out, "refused - Cycle")?;
            for app in apps.as_slice() {
                push_name(out, app.as_str())?;
            }
            Ok(())
        }
        PlanError::TooLarge(app) => refused_app(out, "TooLarge", app),
        PlanError::OutOfMemory => Err(Fault::Memory),
    }
}

fn push_name(out: &mut String, name: &str) -> Result<(), Fault> {
    write!(out, " {name}")?;
    Ok(())
}

fn refused_app(out: &mut String, cause: &str, app: &AppName) -> Result<(), Fault> {
    say(out, "refused -")?;
    push_name(out, cause)?;
    push_name(out, app.as_str())
}

fn refused_lines(out: &mut String, lines: &[DivergedLine]) -> Result<(), Fault> {
    say(out, "refused - Diverged")?;
    for line in lines {
        let rule = rule_name(line.rule);
        let app = line.app.as_str();
        let winner_by = declarer(&line.winner_by);
        let winner = line.winner_index;
        let other_by = declarer(&line.other_by);
        let other = line.other_index;
        write!(
            out,
            " {rule} {app}: {winner_by} at {winner}, {other_by} at {other};"
        )?;
    }
    Ok(())
}

fn declarer(by: &Option<AppName>) -> &str {
    match by {
        Some(app) => app.as_str(),
        None => "(root)",
    }
}

/// The calls that fail of the store, of each folder, of the compiler and of the sink, the words with a space between two,
/// and files: the status, the text and the builds of `dev` after the command, and after it is run once more, when the
/// sink doesn't fail.
pub(crate) fn run_case(alloc: Global, out: &mut String, texts: &[Vec<u8>]) -> Result<(), Fault> {
    let [
        store_calls,
        folder_calls,
        deaths,
        sink_calls,
        words,
        files @ ..,
    ] = texts
    else {
        return Err(Fault::Form);
    };
    let mut store = store_of(
        alloc,
        store_calls.as_slice(),
        folder_calls.as_slice(),
        files,
    )?;
    let dying = FaultPlan::new(calls_of(alloc, deaths.as_slice())?);
    let mut compiler = MortalCompiler { dying };
    let words = word(words.as_slice())?;
    run_twice(
        alloc,
        out,
        words,
        sink_calls.as_slice(),
        &mut store,
        &mut compiler,
    )
}

fn run_twice<S: Store, C: Compiler>(
    alloc: Global,
    out: &mut String,
    words: &str,
    sink_calls: &[u8],
    store: &mut S,
    compiler: &mut C,
) -> Result<(), Fault>
    requires { AllHere (S.known store.old).slot }
{
    let words = words_of(alloc, words)?;
    let words = words.as_slice();
    say(out, "ok")?;
    push_run(alloc, out, words, sink_calls, store, compiler)?;
    say(out, " then")?;
    push_run(alloc, out, words, b"", store, compiler)
}

/// How a run ends, what it says, and the builds that it leaves.
fn push_run<S: Store, C: Compiler>(
    alloc: Global,
    out: &mut String,
    words: &[String],
    sink_calls: &[u8],
    store: &mut S,
    compiler: &mut C,
) -> Result<(), Fault>
    requires { AllHere (S.known store.old).slot }
    ensures { AllHere (S.known store.new).slot }
{
    let mut sink = MemSink::new(alloc, calls_of(alloc, sink_calls)?);
    let code = run(alloc, words, store, compiler, &mut sink).code();
    write!(out, " {code}")?;
    push_after(alloc, out, " ", sink.as_slice())?;
    push_builds(alloc, out, store)
}

fn words_of(alloc: Global, text: &str) -> Result<Vec<String>, Fault> {
    let mut words = Vec::new(alloc);
    for word in text.split_whitespace() {
        words.push(String::from_str(alloc, word)?)?;
    }
    Ok(words)
}

/// The files of all builds of `dev`, or that they can't be read.
fn push_builds<S: Store>(alloc: Global, out: &mut String, store: &mut S) -> Result<(), Fault>
    requires { AllHere (S.known store.old).slot }
    ensures { AllHere (S.known store.new).slot }
{
    let env = app_name(alloc, b"dev")?;
    let apps = match store.apps(alloc, &env) {
        Ok(apps) => apps,
        Err(fault) => return push_unread(out, fault),
    };
    for app in &apps {
        push_build(alloc, out, store, &env, app)?;
    }
    Ok(())
}

fn push_unread(out: &mut String, fault: StoreFault) -> Result<(), Fault> {
    match fault {
        StoreFault::Failed => say(out, " unread"),
        StoreFault::OutOfMemory => Err(Fault::Memory),
    }
}

fn push_build<S: Store>(
    alloc: Global,
    out: &mut String,
    store: &mut S,
    env: &AppName,
    app: &AppName,
) -> Result<(), Fault>
    requires { AllHere (S.known store.old).slot }
    ensures { AllHere (S.known store.new).slot }
{
    match files_of(alloc, store, env, app) {
        Ok(files) => push_files(alloc, out, app, files.as_slice()),
        Err(fault) => push_unread(out, fault),
    }
}

/// The files of a build, whose folder is back.
fn files_of<S: Store>(
    alloc: Global,
    store: &mut S,
    env: &AppName,
    app: &AppName,
) -> Result<Files, StoreFault>
    requires { AllHere (S.known store.old).slot }
    ensures { AllHere (S.known store.new).slot }
{
    let mut folder = store.folder(alloc, env, app)?;
    let files = folder.files(alloc);
    store.give_back(folder);
    files
}

fn push_files(alloc: Global, out: &mut String, app: &AppName, files: &[File]) -> Result<(), Fault> {
    for file in files {
        push_name(out, app.as_str())?;
        say(out, "/")?;
        say(out, file.path.as_str())?;
        push_after(alloc, out, "=", file.bytes.as_slice())?;
    }
    Ok(())
}
