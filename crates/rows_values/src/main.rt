//! Operators, the texts of values, names and spellings: each row is one call, and what it answers.
#![tactic(auto)]

mod expressions;
mod names;
mod operands;
mod spellings;

use base_types::Text;
use rows_words::{Row, RowError, Table, answer_rows};
use std::alloc::Global;
use std::process::ExitCode;

/// Each row stands alone.
#[derive(Drop)]
struct Values;

impl Table for Values {
    fn answer(&mut self, alloc: Global, row: &mut Row<'_>) -> Result<Option<Text>, RowError> {
        let mut behind = *row;
        let first = behind.word()?;
        if names::is_call(first) {
            *row = behind;
            return Ok(Some(names::answer(alloc, first, row)?));
        }
        if spellings::is_call(first) {
            *row = behind;
            return Ok(Some(spellings::answer(alloc, first, row)?));
        }
        Ok(Some(expressions::answer(alloc, row)?))
    }
}

fn main(rt: HostRuntime) -> ExitCode {
    answer_rows(rt, &mut Values)
}
