//! The program `mixc` again, for its stored run on words that are no command: status 2.
#![tactic(auto)]

use mixc_call::run_here;
use std::process::ExitCode;

fn main(rt: HostRuntime) -> ExitCode {
    run_here(&rt)
}
