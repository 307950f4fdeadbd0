//! The program `unitc`: the unit compiler for a build that starts it, over the folder that it is run in and standard
//! output. It hands the words after its own name to `unitc_run`, and ends with the status.
//! Its stored run is without words: status 2.
#![tactic(auto)]

ghost use Rattle.std.specs.Prelude.{◌≡◌, ◌≤◌, IfOk};
ghost use Rattle.std.specs.Process.{exit_status};

use std::alloc::AllocError;
use std::process::ExitCode;
use tree_host::{HostSink, HostStore, host_words};
use unitc_call::unitc_run;

/// The status where memory ran out before the call was made.
const OUT_OF_MEMORY: u32 = 8;

fn main(rt: HostRuntime) -> ExitCode {
    match status(&rt) {
        Ok(status) => exit_of(status),
        Err(_) => exit_of(OUT_OF_MEMORY),
    }
}

#[tactic(auto, using(unitc_call::proofs::CallLemmas::small_status))]
fn status(rt: &HostRuntime) -> Result<u32, AllocError>
    ensures { IfOk result (λ status. status ≤ 10) }
{
    let words = host_words(rt)?;
    let mut store = HostStore::new(rt.clone()?, rt.alloc(), ".")?;
    let mut out = HostSink::new(rt.clone()?);
    Ok(unitc_run(rt.alloc(), &words, &mut store, &mut out))
}

// What the program exits with.
fn exit_of(status: u32) -> ExitCode
    requires { status ≤ 10 }
    ensures { exit_status result ≡ status }
{
    ExitCode::from(status as u8)
}
