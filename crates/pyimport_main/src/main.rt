//! The program `pyimport`: runs scripts over the files of the current folder.
#![tactic(auto)]

use pyimport::run_program;
use std::process::ExitCode;

fn main(rt: HostRuntime) -> ExitCode {
    run_program(rt, &rt)
}
