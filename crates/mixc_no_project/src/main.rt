//! The program `mixc` again, for its stored run in a folder without a project: status 9.
#![tactic(auto)]

use mixc_call::run_here;
use std::process::ExitCode;

fn main(rt: HostRuntime) -> ExitCode {
    run_here(&rt)
}
