// The files of a task's needs.
ghost use Rattle.std.specs.Prelude.{◌≡◌, IfOk, IfSome};
ghost use Rattle.std.specs.List.{AllZip};
ghost use Rattle.compile_model.specs.declared.outcome.Outcome.{Outcome};
ghost use Rattle.tree_store.specs.Slot.{AllHere};
ghost use Rattle.kept_tree.specs.Faults.{ReadsBuilds};
ghost use Rattle.unitc_call.specs.Reading.{AreFilesAt};

use compile_model::Outcome;
use kept_tree::KeptFault;
use mx_base::{AppName, Bytes, Files, Shared};
use std::alloc::{AllocError, Global};
use tree_store::{Folder, Store};

/// For each app an outcome with the files that its build has in the environment.
pub(crate) fn read_needs<S: Store>(
    alloc: Global,
    store: &mut S,
    env: &AppName,
    apps: &[AppName],
) -> Result<Vec<Shared<Outcome>>, KeptFault>
    requires { AllHere (S.known store.old).slot }
    ensures built { IfOk result (λ needs. AllZip (λ app need.
        AreFilesAt ((S.known store.old).slot (record { env = env.now; app = app })) need.files)
        apps.now needs.items) }
    ensures reads { ReadsBuilds result (S.known store.old) (S.known store.new) }
{
    let mut needs = Vec::new(alloc);
    for app in apps {
        let files = read_build(alloc, store, env, app)?;
        needs.push(outcome_of(alloc, files)?)?;
    }
    Ok(needs)
}

// The files that the build of an app has.
fn read_build<S: Store>(
    alloc: Global,
    store: &mut S,
    env: &AppName,
    app: &AppName,
) -> Result<Files, KeptFault>
    requires { AllHere (S.known store.old).slot }
    ensures files { IfOk result (AreFilesAt ((S.known store.old).slot
        (record { env = env.now; app = app.now }))) }
    ensures reads { ReadsBuilds result (S.known store.old) (S.known store.new) }
{
    let mut folder = store.folder(alloc, env, app)?;
    let files = folder.files(alloc);
    store.give_back(folder);
    Ok(files?)
}

// A built outcome with these files.
fn outcome_of(alloc: Global, files: Files) -> Result<Shared<Outcome>, AllocError>
    ensures { IfOk result (λ outcome. outcome.files ≡ files) }
{
    let outcome = Outcome::of(alloc, 0, Bytes::new(alloc), files)?;
    Shared::new(alloc, outcome)
}
