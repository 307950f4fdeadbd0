// Compiling a dependency by a program.
ghost use Rattle.std.specs.Prelude.{◌≡◌, ◌++◌, ◌∷◌, [], codes, flat_map, IfOk, OnOk};
ghost use Rattle.compile_model.specs.Planned.{words_of};
ghost use Rattle.partition_face.specs.Spawners.{Spawns};
ghost use Rattle.compiler_drive.specs.Drive.{IsDriven, job_words, need_words, outputs_of, start_for, with_value};

use compile_model::{How, Verdict};
use mx_base::{AppName, BUILD, RelPath, Text};
use partition_face::{SpawnFault, Spawner};
use partition_frames::Frame;
use std::alloc::{AllocError, Global};

/// Compiles the job of a frame by its program, to the program's end. The words are those of the program, then
/// `--app APP --env ENV --src DIR --out DIR`, then `--need APP DIR` for each need, in their order; the variables are
/// the job's. An app's outputs lie in `_build/ENV/lib/APP`.
///
/// # Errors
///
/// `Failed` where the spawner failed, which is counted.
pub fn drive<W: Spawner>(alloc: Global, spawner: &mut W, job: &Frame) -> Result<Verdict, SpawnFault>
    requires { IsDriven job.now }
    ensures { Spawns (start_for job.now) (W.known spawner.old) (W.known spawner.new) result }
{
    let Frame::Job {
        env,
        app,
        how,
        system_env,
        dir,
        needs,
        ..
    } = job
    else {
        unreachable!()
    };
    let words = words_for(alloc, how, env, app, dir, needs.as_slice())?;
    spawner.run(alloc, words.as_slice(), system_env.as_slice())
}

// The words of the program, then those of the job, then those of each need.
fn words_for(
    alloc: Global,
    how: &How,
    env: &AppName,
    app: &AppName,
    dir: &RelPath,
    needs: &[AppName],
) -> Result<Vec<Text>, AllocError>
    ensures { IfOk result (λ words.
        words.items ≡ (words_of how.now ++ job_words env.now app.now dir.now) ++ flat_map (need_words env.now) needs.now) }
{
    let mut words = program_words(alloc, how)?;
    words.append(&mut job_words(alloc, env, app, dir)?)?;
    push_needs(alloc, &mut words, env, needs)?;
    Ok(words)
}

// The program and the words that it is given, none where none compiles the job.
fn program_words(alloc: Global, how: &How) -> Result<Vec<Text>, AllocError>
    ensures { IfOk result (λ words. words.items ≡ words_of how.now) }
{
    match how {
        How::Program(words) => Ok(words.clone()?.into_vec()),
        _ => Ok(Vec::new(alloc)),
    }
}

// The job that is meant, where its sources lie and where its outputs go.
fn job_words(
    alloc: Global,
    env: &AppName,
    app: &AppName,
    dir: &RelPath,
) -> Result<Vec<Text>, AllocError>
    ensures { IfOk result (λ words. words.items ≡ job_words env.now app.now dir.now) }
{
    let mut words = Vec::new(alloc);
    push_option(alloc, &mut words, "--app", app.as_str().as_bytes())?;
    push_option(alloc, &mut words, "--env", env.as_str().as_bytes())?;
    push_option(alloc, &mut words, "--src", dir.as_str().as_bytes())?;
    let outputs = outputs_of(alloc, env, app)?;
    push_option(alloc, &mut words, "--out", outputs.as_slice())?;
    Ok(words)
}

// Each need, and where its outputs lie.
fn push_needs(
    alloc: Global,
    words: &mut Vec<Text>,
    env: &AppName,
    needs: &[AppName],
) -> Result<(), AllocError>
    ensures { OnOk result (words.new.items ≡ words.old.items ++ flat_map (need_words env.now) needs.now) }
{
    for need in needs {
        push_need(alloc, words, env, need)?;
    }
    Ok(())
}

fn push_need(
    alloc: Global,
    words: &mut Vec<Text>,
    env: &AppName,
    need: &AppName,
) -> Result<(), AllocError>
    ensures { OnOk result (words.new.items ≡ words.old.items ++ need_words env.now need.now) }
{
    push_option(alloc, words, "--need", need.as_str().as_bytes())?;
    words.push(outputs_of(alloc, env, need)?)?;
    Ok(())
}

fn push_option(
    alloc: Global,
    words: &mut Vec<Text>,
    option: &str,
    value: &[u8],
) -> Result<(), AllocError>
    ensures { OnOk result (words.new.items ≡ words.old.items ++ with_value option.now value.now) }
{
    words.push(Text::from_slice(alloc, option.as_bytes())?)?;
    words.push(Text::from_slice(alloc, value)?)?;
    Ok(())
}

// The folder of an app's outputs.
fn outputs_of(alloc: Global, env: &AppName, app: &AppName) -> Result<Text, AllocError>
    ensures { IfOk result (λ folder. folder ≡ outputs_of env.now app.now) }
{
    let mut folder = Vec::new(alloc);
    folder.extend_from_slice(BUILD.as_bytes())?;
    folder.extend_from_slice(b"/")?;
    folder.extend_from_slice(env.as_str().as_bytes())?;
    folder.extend_from_slice(b"/lib/")?;
    folder.extend_from_slice(app.as_str().as_bytes())?;
    Ok(Text::from_vec(folder))
}
