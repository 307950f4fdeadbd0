// The command `deps`.
ghost use Rattle.std.specs.Prelude.{◌≡◌, ◌++◌, IfOk, OnOk, flat_map};
ghost use Rattle.mx_base.specs.BuildName.{HasBuildName};
ghost use Rattle.build_plan.specs.Plan.{build_of};
ghost use Rattle.mix_answer.specs.Answer.{reply_in};
ghost use Rattle.mix_plain.specs.Tells.{SaysDeps, Tells};
ghost use Rattle.mix_plain.specs.Texts.{dep_line, deps_text, origin_text};

use build_plan::plan;
use compile_model::{Job, Origin};
use mix_answer::{Answer, Status, Stop, refuse};
use mx_base::AppName;
use std::alloc::{AllocError, Global};
use tree_store::Store;

/// Tells the dependencies of a project that a build compiles, one a line, with their versions and where they come
/// from. It only reads.
pub fn deps<S: Store>(
    alloc: Global,
    env: &AppName,
    target: &AppName,
    store: &mut S,
) -> Result<Answer, Stop>
    requires { HasBuildName env.now target.now }
    ensures { Tells (build_of env.now target.now) SaysDeps (S.known store.old)
        (S.known store.new) (reply_in result) }
{
    match plan(alloc, store, env, target) {
        Ok(plan) => Ok(Answer {
            status: Status::Done,
            text: deps_text(alloc, plan.jobs.as_slice())?,
        }),
        Err(error) => refuse(alloc, &error),
    }
}

fn deps_text(alloc: Global, jobs: &[Job]) -> Result<Vec<u8>, AllocError>
    ensures { IfOk result (λ text. text.items ≡ deps_text jobs.now) }
{
    let mut text = Vec::new(alloc);
    for job in jobs {
        push_dep(&mut text, job)?;
    }
    Ok(text)
}

fn push_dep(text: &mut Vec<u8>, job: &Job) -> Result<(), AllocError>
    ensures { OnOk result (text.new.items ≡ text.old.items ++ dep_line job.now) }
{
    text.extend_from_slice(b"* ")?;
    text.extend_from_slice(job.app.as_str().as_bytes())?;
    text.extend_from_slice(b" ")?;
    text.extend_from_slice(job.version.as_slice())?;
    text.extend_from_slice(b" (")?;
    push_origin(text, job)?;
    text.extend_from_slice(b")\n")
}

fn push_origin(text: &mut Vec<u8>, job: &Job) -> Result<(), AllocError>
    ensures { OnOk result (text.new.items ≡ text.old.items ++ origin_text job.now.origin job.now.dir) }
{
    match &job.origin {
        Origin::Path => {
            text.extend_from_slice(b"path ")?;
            text.extend_from_slice(job.dir.as_str().as_bytes())
        }
        Origin::Hex { package } => {
            text.extend_from_slice(b"hex ")?;
            text.extend_from_slice(package.as_str().as_bytes())
        }
    }
}
