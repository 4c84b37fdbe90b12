//! Calls on the search path and the epoch.

use crate::tables::{Answered, number, yes};
use base_types::{Text, Wide};
use module_table::Table;
use py_value::Value;
use rows_words::{Row, RowError};
use std::alloc::Global;

/// The highest epoch that rows raise the epoch to.
const HIGHEST: u64 = 1000;

/// The search path, as numbers.
fn shown(alloc: Global, table: &Table) -> Answered {
    let mut told = Text::from_str(alloc, "path")?;
    for item in table.path().as_slice() {
        if let Value::Int(n) = item {
            let n = n.get();
            told.push_str(format!(in alloc; " {n}")?.as_str())?;
        }
    }
    Ok(Some(told))
}

fn place(row: &mut Row<'_>) -> Result<Option<Wide>, RowError> {
    if row.takes("last ") {
        Ok(None)
    } else {
        Ok(Some(Wide::of(row.integer()?)))
    }
}

/// Adds a number to the path, before an index or last.
fn add(alloc: Global, table: &mut Table, row: &mut Row<'_>) -> Answered {
    let at = place(row)?;
    yes(
        alloc,
        table.path_add(at, Value::Int(Wide::of(row.integer()?)))?,
    )
}

/// Puts a number into the path at an index.
fn insert(table: &mut Table, at: usize, n: i128) -> Answered {
    if at > table.path().len() {
        return Err(RowError::Unknown);
    }
    table.path_insert(at, Value::Int(Wide::of(n)))?;
    Ok(None)
}

fn raise(table: &mut Table) -> Answered {
    if table.epoch() >= HIGHEST {
        return Err(RowError::Unknown);
    }
    table.raise_epoch();
    Ok(None)
}

/// A call on the path or the epoch.
pub fn answer(alloc: Global, table: &mut Table, row: &mut Row<'_>) -> Answered {
    match row.word()? {
        "shown" => shown(alloc, table),
        "add" => add(alloc, table, row),
        "insert" => insert(table, row.small()? as usize, row.integer()?),
        "epoch" => number(alloc, table.epoch()),
        "raise" => raise(table),
        _ => Err(RowError::Unknown),
    }
}
