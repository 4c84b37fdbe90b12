//! Whole calls of `pyimport` over trees and sinks in memory: of the program and its words, of scripts of each form of the
//! language, and of trees of files and what imports make of them. `row` begins with an empty tree, `file` and the lines
//! behind it put files into it, `words` are those of the call, and `run` makes the call and writes what comes.
#![tactic(auto)]

mod budgets;
mod calls;
mod failing;
mod outcomes;
mod runs;
mod schedules;

use crate::runs::Runs;
use rows_words::{Row, answer_rows_by};
use std::alloc::Global;
use std::process::ExitCode;

fn main(rt: HostRuntime) -> ExitCode {
    let mut runs = Runs::new(rt.alloc());
    answer_rows_by(
        rt,
        |alloc: Global, row: &mut Row<'_>| runs.answer(&rt, alloc, row),
    )
}
