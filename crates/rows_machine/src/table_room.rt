//! The tables of modules and loads, call by call. A row `table` begins with new ones, and a call behind it is one of them.

use crate::tables;
use base_types::{Seq, Text};
use rows_words::{Row, RowError};
use std::alloc::Global;

/// The tables as the rows so far have left them.
#[derive(Drop)]
pub struct TableRoom {
    table: module_table::Table,
}

impl TableRoom {
    fn begin(&mut self, alloc: Global) -> Result<Option<Text>, RowError> {
        self.table = module_table::Table::new(Seq::new(alloc));
        Ok(None)
    }

    fn call(&mut self, alloc: Global, row: &mut Row<'_>) -> Result<Option<Text>, RowError> {
        tables::answer(alloc, &mut self.table, row)
    }

    /// A row that begins with `table`.
    pub fn answer(&mut self, alloc: Global, row: &mut Row<'_>) -> Result<Option<Text>, RowError> {
        row.must("table")?;
        if row.is_done() {
            self.begin(alloc)
        } else {
            self.call(alloc, row)
        }
    }

    pub fn new(alloc: Global) -> Self {
        Self {
            table: module_table::Table::new(Seq::new(alloc)),
        }
    }
}
