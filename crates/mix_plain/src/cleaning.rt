// The command `deps.clean`.
ghost use Rattle.std.specs.Prelude.{◌≡◌, IfOk};
ghost use Rattle.mx_base.specs.BuildName.{HasBuildName, build_name};
ghost use Rattle.kept_tree.specs.Clearing.{ClearsPartly, is_cleaned};
ghost use Rattle.kept_tree.specs.Faults.{KeepsRest};
ghost use Rattle.mix_answer.specs.Answer.{reply_in};
ghost use Rattle.tree_store.specs.Slot.{AllHere};
ghost use Rattle.mix_plain.specs.Cleans.{Cleans};

use mix_answer::{Answer, Status, Stop};
use mx_base::{AppName, NameError, Names, build_name};
use std::alloc::{AllocError, Global};
use tree_store::Store;

/// Empties the builds of these apps in an environment for a target, or all of its builds where no app is named. No
/// manifest is read. An app without a build is no fault.
pub fn clean<S: Store>(
    alloc: Global,
    env: &AppName,
    target: &AppName,
    apps: &Names,
    store: &mut S,
) -> Result<Answer, Stop>
    requires here { AllHere (S.known store.old).slot }
    requires named { HasBuildName env.now target.now }
    ensures cleans { Cleans (build_name env.now target.now) apps.now (S.known store.old)
        (S.known store.new) (reply_in result) }
    ensures part { ClearsPartly (is_cleaned (build_name env.now target.now) apps.now)
        (S.known store.old).slot (S.known store.new).slot }
    ensures keeps { KeepsRest (S.known store.old) (S.known store.new) }
{
    let name = name_of(alloc, env, target)?;
    kept_tree::clean(alloc, store, &name, apps)?;
    Ok(Answer {
        status: Status::Done,
        text: Vec::from_slice(alloc, b"cleaned\n")?,
    })
}

// The name of the build, which has one.
fn name_of(alloc: Global, env: &AppName, target: &AppName) -> Result<AppName, AllocError>
    requires { HasBuildName env.now target.now }
    ensures { IfOk result (λ name. name ≡ build_name env.now target.now) }
{
    match build_name(alloc, env, target) {
        Ok(name) => Ok(name),
        Err(NameError::OutOfMemory) => Err(AllocError),
        Err(NameError::Empty) => unreachable!(),
        Err(NameError::TooLong) => unreachable!(),
        Err(NameError::BadByte { .. }) => unreachable!(),
    }
}
