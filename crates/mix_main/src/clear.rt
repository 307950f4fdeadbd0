// Emptying an environment.
ghost use Rattle.std.specs.Prelude.{◌≡◌, OnErr, OnOk, false, option_map};
ghost use Rattle.mx_base.specs.Blame.{fails};
ghost use Rattle.mx_base.specs.Causes.{Counted};
ghost use Rattle.tree_store.specs.Blame.{blame_of};
ghost use Rattle.tree_store.specs.Holding.{nothing};
ghost use Rattle.tree_store.specs.declared.key.BuildKey.{BuildKey};
ghost use Rattle.tree_store.specs.Key.{is_same_build};
ghost use Rattle.tree_store.specs.Slot.{ChangesSlot, AllHere, emptied_slot};
ghost use Rattle.tree_store.specs.Slot.Slot.{Out};
ghost use Rattle.mix_main.specs.Answer.{Fails};
ghost use Rattle.mix_main.specs.World.{Keeps};
ghost use Rattle.mix_main.specs.Tree.{ClearsEnv, EachLeavesPart, HoldsPart, StaysElsewhere};

use crate::answer::Stop;
use mx_base::AppName;
use std::alloc::Global;
use tree_store::{Folder, Store, StoreFault};

/// Empties the folder of every app of the environment.
#[tactic(auto, using(crate::proofs::TreeLemmas::elsewhere_more, crate::proofs::PartLemmas::part_more))]
pub(crate) fn clear_env<S: Store>(alloc: Global, env: &AppName, store: &mut S) -> Result<(), Stop>
    requires { AllHere (S.known store.old).slot }
    ensures cleared { OnOk result (ClearsEnv env.now (S.known store.old).slot
        (S.known store.new).slot) }
    ensures part { EachLeavesPart (S.known store.old).slot (S.known store.new).slot }
    ensures elsewhere { StaysElsewhere env.now (S.known store.old).slot (S.known store.new).slot }
    ensures keeps { Keeps (S.known store.old) (S.known store.new) }
    ensures fails { Fails result (S.known store.old) (S.known store.new) }
{
    let apps = store.apps(alloc, env)?;
    for app in &apps {
        clear_app(alloc, env, app, store)?;
    }
    Ok(())
}

fn clear_app<S: Store>(
    alloc: Global,
    env: &AppName,
    app: &AppName,
    store: &mut S,
) -> Result<(), Stop>
    requires { AllHere (S.known store.old).slot }
    ensures cleared { OnOk result (ChangesSlot (record { env = env.now; app = app.now })
        emptied_slot (S.known store.old).slot (S.known store.new).slot) }
    ensures part { EachLeavesPart (S.known store.old).slot (S.known store.new).slot }
    ensures others { (q : BuildKey) → is_same_build (record { env = env.now; app = app.now }) q
        ≡ false → (S.known store.new).slot q ≡ (S.known store.old).slot q }
    ensures keeps { Keeps (S.known store.old) (S.known store.new) }
    ensures fails { Fails result (S.known store.old) (S.known store.new) }
{
    let mut folder = store.folder(alloc, env, app)?;
    let cleared = empty(alloc, &mut folder);
    store.give_back(folder);
    match cleared {
        Ok(()) => Ok(()),
        Err(fault) => Err(Stop::of_folder(fault)),
    }
}

// Takes the mark of a folder away, and then its files.
#[tactic(auto, using(crate::proofs::PartLemmas::emptied_by_both))]
fn empty<F: Folder>(alloc: Global, folder: &mut F) -> Result<(), StoreFault>
    ensures emptied { OnOk result ((F.known folder.new).held
        ≡ option_map (λ held. nothing) (F.known folder.old).held) }
    ensures part { OnErr result (HoldsPart (F.known folder.old).held (F.known folder.new).held) }
    ensures key { (F.known folder.new).key ≡ (F.known folder.old).key }
    ensures cause { Counted (F.known folder.old).faults (F.known folder.new).faults
        (fails blame_of result) }
{
    folder.unmark(alloc)?;
    folder.clear(alloc)
}
