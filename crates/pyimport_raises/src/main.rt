//! The program, run on a script that an error leaves: it ends with status 1.
#![tactic(auto)]

use pyimport::run_program;
use std::process::ExitCode;

fn main(rt: HostRuntime) -> ExitCode {
    run_program(rt, &rt)
}
