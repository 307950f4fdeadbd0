// The top call.
ghost use Rattle.std.specs.Prelude.{◌≡◌, map, string_bytes};
ghost use Rattle.mx_base.specs.BuildName.{HasBuildName, build_name, host};
ghost use Rattle.tree_store.specs.Slot.{AllHere};
ghost use Rattle.build_plan.specs.Plan.{build_of};
ghost use Rattle.mix_main.specs.Answer.{reply_in, status_in, text_in};
ghost use Rattle.mix_main.specs.Compile.{Compiles, MayStand};
ghost use Rattle.mix_main.specs.Ends.{Comes, Does, Ends, IsNamed, Misread, Says};
ghost use Rattle.mix_main.specs.Tree.{StaysElsewhere};
ghost use Rattle.mix_main.specs.Words.{dev};
ghost use Rattle.mix_main.specs.World.{Keeps, Site, passage_of, site_of, world_of};

use crate::answer::{Answer, Stop};
use crate::command::{Command, WordsError, name, read_words};
use crate::compile::compile;
use crate::help::help;
use crate::status::Status;
use compile_model::Compiler;
use mx_base::{AppName, HOST, Sink, push_decimal};
use std::alloc::Global;
use tree_store::Store;

/// Does what the words of the command line say, in the environment `dev` for the target `host`, and writes what there is to say of it.
///
/// The answer is the status of the program. What it tells of the tree, of the sink and of what failed is the relation
/// `Ends`, a way to end for each of its constructors. After any status the builds of `dev` hold some of the files that
/// they held, each whole, or each the first output files of its app, of which the last may be cut off (`stands`);
/// elsewhere nothing changed, nor in the project's files, and each folder is given back.
pub fn run<S: Store, C: Compiler, K: Sink>(
    alloc: Global,
    words: &[String],
    store: &mut S,
    compiler: &mut C,
    out: &mut K,
) -> Status
    requires { AllHere (S.known store.old).slot }
    ensures ends { Ends (Comes C.compile_of (map (λ word. string_bytes word) words.now))
        (world_of (S.known store.old) (C.deaths compiler.old) (K.known out.old))
        (world_of (S.known store.new) (C.deaths compiler.new) (K.known out.new)) result }
    ensures stands { MayStand C.compile_of (build_of dev host) (S.known store.old)
        (S.known store.new) }
    ensures elsewhere { StaysElsewhere dev (S.known store.old).slot (S.known store.new).slot }
    ensures keeps { Keeps (S.known store.old) (S.known store.new) }
{
    let answer = answer(alloc, words, store, compiler);
    say(out, &answer)
}

/// Compiles the dependencies of a project for a target one after another from an empty environment, and writes the report.
pub fn plain_compile<S: Store, C: Compiler, K: Sink>(
    alloc: Global,
    env: &AppName,
    target: &AppName,
    store: &mut S,
    compiler: &mut C,
    out: &mut K,
) -> Status
    requires here { AllHere (S.known store.old).slot }
    requires named { HasBuildName env.now target.now }
    ensures ends { Ends (Compiles C.compile_of (build_of env.now target.now))
        (world_of (S.known store.old) (C.deaths compiler.old) (K.known out.old))
        (world_of (S.known store.new) (C.deaths compiler.new) (K.known out.new)) result }
    ensures stands { MayStand C.compile_of (build_of env.now target.now) (S.known store.old)
        (S.known store.new) }
    ensures elsewhere { StaysElsewhere (build_name env.now target.now) (S.known store.old).slot
        (S.known store.new).slot }
    ensures keeps { Keeps (S.known store.old) (S.known store.new) }
{
    let built = compile(alloc, env, target, store, compiler);
    say(out, &built)
}

// What the words come to.
#[tactic(auto, using(crate::proofs::CallLemmas::asks_named))]
fn answer<S: Store, C: Compiler>(
    alloc: Global,
    words: &[String],
    store: &mut S,
    compiler: &mut C,
) -> Result<Answer, Stop>
    requires { AllHere (S.known store.old).slot }
    ensures comes { Comes C.compile_of (map (λ word. string_bytes word) words.now)
        (passage_of (site_of (S.known store.old) (C.deaths compiler.old))
        (site_of (S.known store.new) (C.deaths compiler.new))) (reply_in result) }
    ensures keeps { Keeps (S.known store.old) (S.known store.new) }
{
    match read_words(alloc, words) {
        Ok(command) => answer_to(alloc, &command, store, compiler),
        Err(WordsError::Refused { at }) => misread(alloc, at),
        Err(WordsError::OutOfMemory) => Err(Stop::Memory),
    }
}

// What a command comes to.
fn answer_to<S: Store, C: Compiler>(
    alloc: Global,
    command: &Command,
    store: &mut S,
    compiler: &mut C,
) -> Result<Answer, Stop>
    requires here { AllHere (S.known store.old).slot }
    requires named { IsNamed command.now }
    ensures does { Does C.compile_of command.now
        (passage_of (site_of (S.known store.old) (C.deaths compiler.old))
        (site_of (S.known store.new) (C.deaths compiler.new))) (reply_in result) }
    ensures keeps { Keeps (S.known store.old) (S.known store.new) }
{
    match command {
        Command::Help => help(alloc),
        Command::Compile { env } => compile_here(alloc, env, store, compiler),
    }
}

// What compiling for the machine at hand comes to.
fn compile_here<S: Store, C: Compiler>(
    alloc: Global,
    env: &AppName,
    store: &mut S,
    compiler: &mut C,
) -> Result<Answer, Stop>
    requires here { AllHere (S.known store.old).slot }
    requires named { HasBuildName env.now host }
    ensures ends { Compiles C.compile_of (build_of env.now host)
        (passage_of (site_of (S.known store.old) (C.deaths compiler.old))
        (site_of (S.known store.new) (C.deaths compiler.new))) (reply_in result) }
    ensures keeps { Keeps (S.known store.old) (S.known store.new) }
{
    let target = name(alloc, HOST.as_bytes())?;
    compile(alloc, env, &target, store, compiler)
}

// The place of the first word that fits no command.
fn misread(alloc: Global, at: u64) -> Result<Answer, Stop>
    ensures { (site : Site) → Misread at (passage_of site site) (reply_in result) }
{
    let mut text = Vec::from_slice(alloc, b"mixc: bad words at ")?;
    push_decimal(alloc, &mut text, at)?;
    text.extend_from_slice(b"\n")?;
    Ok(Answer {
        status: Status::BadWords,
        text,
    })
}

// Writes the text of an answer, with which its status goes.
fn say<K: Sink>(out: &mut K, answer: &Result<Answer, Stop>) -> Status
    ensures { Says (reply_in answer.now) (K.known out.old) (K.known out.new) result }
{
    match out.write(text_in(answer)) {
        Ok(()) => status_in(answer),
        Err(_) => Status::WriteFault,
    }
}

fn status_in(answer: &Result<Answer, Stop>) -> Status
    ensures { result ≡ status_in answer.now }
{
    match answer {
        Ok(answer) => answer.status,
        Err(stop) => stop.status(),
    }
}

fn text_in(answer: &Result<Answer, Stop>) -> &[u8]
    ensures { result.now ≡ text_in answer.now }
{
    match answer {
        Ok(answer) => &answer.text,
        Err(stop) => stop.line(),
    }
}
