// Emptying builds.
ghost use Rattle.std.specs.Prelude.{◌≡◌, ℕ, List, IfOk, OnOk, filter, map, not, option_map};
ghost use Rattle.std.specs.BTreeSet.{contains_by};
ghost use Rattle.mx_base.specs.Blame.{fails};
ghost use Rattle.mx_base.specs.Causes.{Counted};
ghost use Rattle.mx_base.specs.Order.{text_cmp};
ghost use Rattle.tree_store.specs.Blame.{blame_of};
ghost use Rattle.tree_store.specs.FolderKnown.{StopsIn};
ghost use Rattle.tree_store.specs.Holding.{nothing};
ghost use Rattle.tree_store.specs.Key.{is_same_build};
ghost use Rattle.tree_store.specs.Slot.{AllHere};
ghost use Rattle.kept_tree.specs.Clearing.{Clears, ClearsPartly, IsLeftIn, is_among, is_apart, is_cleaned, is_of};
ghost use Rattle.kept_tree.specs.Faults.{CountsWrites, KeepsRest};

use crate::fault::KeptFault;
use mx_base::{AppName, Names};
use std::alloc::{AllocError, Global};
use std::collections::BTreeSet;
use tree_store::{Folder, Store, StoreFault};

/// Empties the builds of these apps in the environment, and all of its builds where no app is named. An app
/// without a build is no fault.
///
/// # Errors
///
/// `Read` where the store failed, `Tree` where a folder did: each of these builds is then as it was, or has some of
/// its files and no mark.
pub fn clean<S: Store>(
    alloc: Global,
    store: &mut S,
    env: &AppName,
    apps: &Names,
) -> Result<(), KeptFault>
    requires { AllHere (S.known store.old).slot }
    ensures cleared { OnOk result (Clears (is_cleaned env.now apps.now)
        (S.known store.old).slot (S.known store.new).slot) }
    ensures part { ClearsPartly (is_cleaned env.now apps.now)
        (S.known store.old).slot (S.known store.new).slot }
    ensures keeps { KeepsRest (S.known store.old) (S.known store.new) }
    ensures counts { CountsWrites result (S.known store.old) (S.known store.new) }
{
    if apps.as_slice().is_empty() {
        clear_apart(alloc, store, env, &[])
    } else {
        clear_each(alloc, store, env, apps.as_slice())
    }
}

/// Empties each build of the environment that has a file or a mark, but for those of the apps that stay.
///
/// # Errors
///
/// Those of `clean`.
pub fn clear_apart<S: Store>(
    alloc: Global,
    store: &mut S,
    env: &AppName,
    stays: &[&AppName],
) -> Result<(), KeptFault>
    requires { AllHere (S.known store.old).slot }
    ensures cleared { OnOk result (Clears (is_apart env.now (map (λ name. name.now) stays.now))
        (S.known store.old).slot (S.known store.new).slot) }
    ensures part { ClearsPartly (is_apart env.now (map (λ name. name.now) stays.now))
        (S.known store.old).slot (S.known store.new).slot }
    ensures keeps { KeepsRest (S.known store.old) (S.known store.new) }
    ensures counts { CountsWrites result (S.known store.old) (S.known store.new) }
{
    let apps = store.apps(alloc, env)?;
    let apart = apart_from(alloc, apps, stays)?;
    clear_each(alloc, store, env, &apart)
}

// Those of the apps that aren't among the ones that stay.
fn apart_from(
    alloc: Global,
    mut apps: Vec<AppName>,
    stays: &[&AppName],
) -> Result<Vec<AppName>, AllocError>
    ensures { IfOk result (λ apart. apart.items
        ≡ filter (λ app. not (is_among (map (λ name. name.now) stays.now) app)) apps.items) }
{
    let stays = index_of(alloc, stays)?;
    apps.retain(|app| !stays.contains(app.as_str()));
    Ok(apps)
}

// The names, by which each is found in little time.
fn index_of<'a>(alloc: Global, names: &[&'a AppName]) -> Result<BTreeSet<&'a str>, AllocError>
    ensures { IfOk result (λ index. (text : List ℕ) →
        contains_by (λ name. text_cmp text name.now) index
        ≡ is_among (map (λ name. name.now) names.now) text) }
{
    let mut index = BTreeSet::new(alloc);
    for name in names {
        index.insert(name.as_str())?;
    }
    Ok(index)
}

fn clear_each<S: Store>(
    alloc: Global,
    store: &mut S,
    env: &AppName,
    apps: &[AppName],
) -> Result<(), KeptFault>
    requires { AllHere (S.known store.old).slot }
    ensures cleared { OnOk result (Clears (is_of env.now apps.now)
        (S.known store.old).slot (S.known store.new).slot) }
    ensures part { ClearsPartly (is_of env.now apps.now)
        (S.known store.old).slot (S.known store.new).slot }
    ensures keeps { KeepsRest (S.known store.old) (S.known store.new) }
    ensures counts { CountsWrites result (S.known store.old) (S.known store.new) }
{
    for app in apps {
        clear_app(alloc, store, env, app)?;
    }
    Ok(())
}

/// Empties the build of an app. An app without a build is no fault.
///
/// # Errors
///
/// Those of `clean`.
pub fn clear_app<S: Store>(
    alloc: Global,
    store: &mut S,
    env: &AppName,
    app: &AppName,
) -> Result<(), KeptFault>
    requires { AllHere (S.known store.old).slot }
    ensures cleared { OnOk result (Clears (is_same_build (record { env = env.now; app = app.now }))
        (S.known store.old).slot (S.known store.new).slot) }
    ensures part { ClearsPartly (is_same_build (record { env = env.now; app = app.now }))
        (S.known store.old).slot (S.known store.new).slot }
    ensures keeps { KeepsRest (S.known store.old) (S.known store.new) }
    ensures counts { CountsWrites result (S.known store.old) (S.known store.new) }
{
    let mut folder = store.folder(alloc, env, app)?;
    let cleared = empty(alloc, &mut folder);
    store.give_back(folder);
    match cleared {
        Ok(()) => Ok(()),
        Err(fault) => Err(KeptFault::of_write(fault)),
    }
}

/// Takes the mark of a folder away, and then its files. A stop on the way leaves what was there, or some of the files
/// and no mark.
pub fn empty<F: Folder>(alloc: Global, folder: &mut F) -> Result<(), StoreFault>
    ensures emptied { OnOk result ((F.known folder.new).held
        ≡ option_map (λ held. nothing) (F.known folder.old).held) }
    ensures stops { StopsIn (IsLeftIn (F.known folder.old).held) (F.known folder.old)
        (F.known folder.new) }
    ensures cause { Counted (F.known folder.old).faults (F.known folder.new).faults
        (fails blame_of result) }
{
    folder.unmark(alloc)?;
    folder.clear(alloc)
}
