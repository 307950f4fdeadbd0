// Putting the files of an outcome.
ghost use Rattle.std.specs.Prelude.{◌≡◌, OnOk};
ghost use Rattle.tree_store.specs.Slot.{AllHere, emptied_slot};
ghost use Rattle.kept_tree.specs.Faults.{CountsWrites, KeepsRest};
ghost use Rattle.unitc_call.specs.Compile.{IsUnmarkedAt, Leaves, OnlyAt};

use kept_tree::KeptFault;
use mx_base::{AppName, Files};
use std::alloc::Global;
use tree_store::{Store, put_files};

/// Puts files into the build of an app, which is empty.
pub(crate) fn fill<S: Store>(
    alloc: Global,
    store: &mut S,
    env: &AppName,
    app: &AppName,
    files: &Files,
) -> Result<(), KeptFault>
    requires here { AllHere (S.known store.old).slot }
    requires empty { (S.known store.old).slot (record { env = env.now; app = app.now })
        ≡ emptied_slot ((S.known store.old).slot (record { env = env.now; app = app.now })) }
    ensures filled { OnOk result (Leaves (record { env = env.now; app = app.now }) files.now
        (S.known store.old).slot (S.known store.new).slot) }
    ensures unmarked { IsUnmarkedAt ((S.known store.new).slot
        (record { env = env.now; app = app.now })) }
    ensures others { OnlyAt (record { env = env.now; app = app.now }) (S.known store.old).slot
        (S.known store.new).slot }
    ensures keeps { KeepsRest (S.known store.old) (S.known store.new) }
    ensures counts { CountsWrites result (S.known store.old) (S.known store.new) }
{
    let mut folder = store.folder(alloc, env, app)?;
    let filled = put_files(alloc, files.as_slice(), &mut folder);
    store.give_back(folder);
    match filled {
        Ok(()) => Ok(()),
        Err(fault) => Err(KeptFault::of_write(fault)),
    }
}
