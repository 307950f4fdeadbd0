// Writing older marks again.
ghost use Rattle.std.specs.Prelude.{◌≡◌, IfOk, IfSome, OnOk, false, option_map};
ghost use Rattle.mx_base.specs.Blame.{fails};
ghost use Rattle.mx_base.specs.Causes.{Counted};
ghost use Rattle.tree_store.specs.Blame as store;
ghost use Rattle.tree_store.specs.FolderKnown.{Looks, StopsIn};
ghost use Rattle.tree_store.specs.Holding.{marked};
ghost use Rattle.tree_store.specs.declared.key.BuildKey.{BuildKey};
ghost use Rattle.tree_store.specs.Key.{is_same_build};
ghost use Rattle.tree_store.specs.Slot.{AllHere};
ghost use Rattle.kept_tree.specs.Blame.{blame_of};
ghost use Rattle.kept_tree.specs.Faults.{KeepsRest};
ghost use Rattle.build_manifest.specs.MarkOf.{upgraded};
ghost use Rattle.build_manifest.specs.Text.{Spells};
ghost use Rattle.kept_tree.specs.Rewriting.{CountsRewriting, IsReplacingIn, IsRewritingAt, IsRewritingIn, IsRewrittenAt, IsRewrittenIn, IsTextFor, IsTextIn};

use crate::fault::KeptFault;
use crate::kept::mark_of_folder;
use build_manifest::{Mark, MarkFormat, upgrade, write_mark};
use mx_base::{AppName, Bytes};
use std::alloc::{AllocError, Global};
use tree_store::{Folder, Store, StoreFault};

/// Writes the mark of an app's build in the environment again in the second form, where it reads and is in the first.
///
/// # Errors
///
/// `Read` where the store failed or the mark wasn't read, `Tree` where it wasn't written: the build is then as it was,
/// or has the same files with no mark or a part of the new one.
pub fn rewrite<S: Store>(
    alloc: Global,
    store: &mut S,
    env: &AppName,
    app: &AppName,
) -> Result<(), KeptFault>
    requires { AllHere (S.known store.old).slot }
    ensures rewritten { OnOk result (IsRewrittenAt
        ((S.known store.old).slot (record { env = env.now; app = app.now }))
        ((S.known store.new).slot (record { env = env.now; app = app.now }))) }
    ensures part { IsRewritingAt
        ((S.known store.old).slot (record { env = env.now; app = app.now }))
        ((S.known store.new).slot (record { env = env.now; app = app.now })) }
    ensures others { (q : BuildKey) → is_same_build (record { env = env.now; app = app.now }) q
        ≡ false → (S.known store.new).slot q ≡ (S.known store.old).slot q }
    ensures keeps { KeepsRest (S.known store.old) (S.known store.new) }
    ensures counts { CountsRewriting result (S.known store.old) (S.known store.new) }
{
    let mut folder = store.folder(alloc, env, app)?;
    let rewritten = rewrite_mark(alloc, &mut folder);
    store.give_back(folder);
    match rewritten {
        Ok(()) => Ok(()),
        Err(fault) => Err(fault),
    }
}

/// Writes the mark of a folder again in the second form, where it reads and is in the first. A stop on the way leaves
/// what was there, or the same files with no mark or a part of the new one.
///
/// # Errors
///
/// `Read` where the mark wasn't read, `Tree` where it wasn't written.
pub fn rewrite_mark<F: Folder>(alloc: Global, folder: &mut F) -> Result<(), KeptFault>
    ensures rewritten { OnOk result (IsRewrittenIn (F.known folder.old).held
        (F.known folder.new).held) }
    ensures stops { StopsIn (IsRewritingIn (F.known folder.old).held) (F.known folder.old)
        (F.known folder.new) }
    ensures cause { Counted (F.known folder.old).faults (F.known folder.new).faults
        (fails blame_of result) }
{
    let Some(text) = newer_text(alloc, folder)? else {
        return Ok(());
    };
    match replace(alloc, folder, text.as_slice()) {
        Ok(()) => Ok(()),
        Err(fault) => Err(KeptFault::of_write(fault)),
    }
}

// The text of a folder's mark in the second form, where it reads and is in the first.
fn newer_text<F: Folder>(alloc: Global, folder: &mut F) -> Result<Option<Bytes>, StoreFault>
    ensures text { IfOk result (λ text. IfSome (F.known folder.old).held
        (λ held. IsTextIn held text)) }
    ensures looks { Looks (F.known folder.old) (F.known folder.new) (fails store.blame_of result) }
{
    let Some(mark) = mark_of_folder(alloc, folder)? else {
        return Ok(None);
    };
    Ok(text_for(alloc, &mark)?)
}

fn text_for(alloc: Global, mark: &Mark) -> Result<Option<Bytes>, AllocError>
    ensures { IfOk result (IsTextFor mark.now) }
{
    match &mark.format {
        MarkFormat::One => Ok(Some(text_of_newer(alloc, mark)?)),
        MarkFormat::Two { .. } => Ok(None),
    }
}

fn text_of_newer(alloc: Global, mark: &Mark) -> Result<Bytes, AllocError>
    ensures { IfOk result (λ text. Spells text (upgraded mark.now)) }
{
    let newer = upgrade(alloc, mark)?;
    write_mark(alloc, &newer)
}

// Puts another text in place of a folder's mark.
fn replace<F: Folder>(alloc: Global, folder: &mut F, text: &[u8]) -> Result<(), StoreFault>
    ensures replaced { OnOk result ((F.known folder.new).held
        ≡ option_map (marked text.now) (F.known folder.old).held) }
    ensures stops { StopsIn (IsReplacingIn text.now (F.known folder.old).held)
        (F.known folder.old) (F.known folder.new) }
    ensures cause { Counted (F.known folder.old).faults (F.known folder.new).faults
        (fails store.blame_of result) }
{
    folder.unmark(alloc)?;
    folder.mark(alloc, text)
}
