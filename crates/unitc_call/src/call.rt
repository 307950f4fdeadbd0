// The call.
ghost use Rattle.std.specs.Prelude.{◌≡◌, ◌≤◌, Contains, IfErr, IfOk, map, string_bytes};
ghost use Rattle.tree_store.specs.Slot.{AllHere};
ghost use Rattle.kept_tree.specs.Faults.{KeepsRest};
ghost use Rattle.unitc_call.specs.Compile.{reply_of};
ghost use Rattle.unitc_call.specs.Ends.{Breaks, Comes, Ends, Says, StandsFor, bad_words, status_of, statuses, world_of};
ghost use Rattle.unitc_call.specs.Words.{task_of};

use crate::compile::{Reply, compile};
use crate::words::read_task;
use kept_tree::KeptFault;
use mx_base::{Bytes, Sink};
use std::alloc::{AllocError, Global};
use tree_store::Store;

/// Compiles the unit files of a folder as the words say that a build adds to a compiler's own:
/// `--app APP --env ENV --src DIR --out DIR`, and `--need APP DIR` for each need.
///
/// The answer is the status of the program: 0 or 1 of what was compiled, whose text the sink then took and whose files
/// the app's build then holds; 2 exactly where the words have another form; 5 where the store failed or a folder that
/// is read, 6 where a folder failed that is written; 8 where memory ran out; 10 exactly where the sink failed. What it
/// tells of the builds and of the sink is the relation `Ends`, a way to end for each of its constructors. After any
/// status only the build of the words' app changed (`stands`): it holds what it held, some of that and no mark, or
/// files of what was compiled and no mark. The project's files are as they were, and each folder is given back.
pub fn unitc_run<S: Store, K: Sink>(
    alloc: Global,
    words: &[String],
    store: &mut S,
    out: &mut K,
) -> u32
    requires { AllHere (S.known store.old).slot }
    ensures ends { Ends (map (λ word. string_bytes word) words.now)
        (world_of (S.known store.old) (K.known out.old))
        (world_of (S.known store.new) (K.known out.new)) result }
    ensures status { Contains statuses result }
    ensures stands { StandsFor (task_of (map (λ word. string_bytes word) words.now))
        (S.known store.old) (S.known store.new) }
    ensures keeps { KeepsRest (S.known store.old) (S.known store.new) }
{
    match answer(alloc, words, store) {
        Ok(reply) => say(out, &reply),
        Err(fault) => status_of(fault),
    }
}

// What the words come to.
fn answer<S: Store>(alloc: Global, words: &[String], store: &mut S) -> Result<Reply, KeptFault>
    requires { AllHere (S.known store.old).slot }
    ensures comes { IfOk result (λ reply. Comes (map (λ word. string_bytes word) words.now)
        (S.known store.old) (S.known store.new) (reply_of reply)) }
    ensures few { IfOk result (λ reply. reply.status ≤ 2) }
    ensures breaks { IfErr result (Breaks (map (λ word. string_bytes word) words.now)
        (S.known store.old) (S.known store.new)) }
    ensures stands { StandsFor (task_of (map (λ word. string_bytes word) words.now))
        (S.known store.old) (S.known store.new) }
    ensures keeps { KeepsRest (S.known store.old) (S.known store.new) }
{
    match read_task(alloc, words)? {
        Some(task) => compile(alloc, &task, store),
        None => Ok(misread(alloc)?),
    }
}

fn misread(alloc: Global) -> Result<Reply, AllocError>
    ensures { IfOk result (λ reply. reply_of reply ≡ bad_words) }
{
    Ok(Reply {
        status: 2,
        text: Bytes::from_slice(alloc, b"unitc: bad words\n")?,
    })
}

fn say<K: Sink>(out: &mut K, reply: &Reply) -> u32
    ensures { Says (reply_of reply.now) (K.known out.old) (K.known out.new) result }
{
    match out.write(reply.text.as_slice()) {
        Ok(()) => reply.status,
        Err(_) => 10,
    }
}

fn status_of(fault: KeptFault) -> u32
    ensures { result ≡ status_of fault }
{
    match fault {
        KeptFault::Read => 5,
        KeptFault::Tree => 6,
        KeptFault::OutOfMemory => 8,
    }
}
