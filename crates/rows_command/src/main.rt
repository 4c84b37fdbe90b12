//! The words of a command line, and the workloads that some of them ask for.
#![tactic(auto)]

mod command_lines;
mod workloads;

use base_types::Text;
use rows_words::{Row, RowError, Table, answer_rows};
use std::alloc::Global;
use std::process::ExitCode;

/// Each row stands alone.
#[derive(Drop)]
struct CommandRows;

impl Table for CommandRows {
    fn answer(&mut self, alloc: Global, row: &mut Row<'_>) -> Result<Option<Text>, RowError> {
        if row.left().starts_with(b"scripts") || row.left().starts_with(b"file") {
            workloads::answer(alloc, row)
        } else {
            command_lines::answer(alloc, row)
        }
    }
}

fn main(rt: HostRuntime) -> ExitCode {
    answer_rows(rt, &mut CommandRows)
}
