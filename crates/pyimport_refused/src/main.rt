//! The program, run on a script that is not there: it ends with status 2.
#![tactic(auto)]

use pyimport::run_program;
use std::process::ExitCode;

fn main(rt: HostRuntime) -> ExitCode {
    run_program(rt, &rt)
}
