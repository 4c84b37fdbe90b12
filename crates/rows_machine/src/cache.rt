//! Calls on the cache of modules.

use crate::tables::{Answered, dotted, text};
use machine_events::Slot;
use module_table::Table;
use rows_words::{Row, RowError};
use spec_core::Dotted;
use std::alloc::Global;

fn word(slot: Option<&Slot>) -> &'static str {
    match slot {
        None => "none",
        Some(Slot::Absent) => "absent",
        Some(Slot::Halted) => "halted",
        Some(Slot::Module(_)) => "module",
    }
}

/// What an entry is.
pub fn entry(alloc: Global, table: &Table, name: &Dotted) -> Answered {
    text(alloc, word(table.entry(name)))
}

fn halt(table: &mut Table, name: &Dotted) -> Answered {
    table.set_entry(name, Slot::Halted)?;
    Ok(None)
}

fn drop_entry(alloc: Global, table: &mut Table, name: &Dotted) -> Answered {
    let was = table.drop_entry(name);
    text(alloc, word(was.as_ref()))
}

fn on_name(alloc: Global, table: &mut Table, call: &str, name: &Dotted) -> Answered {
    match call {
        "entry" => entry(alloc, table, name),
        "halt" => halt(table, name),
        "drop" => drop_entry(alloc, table, name),
        _ => Err(RowError::Unknown),
    }
}

/// A call on an entry.
pub fn answer(alloc: Global, table: &mut Table, row: &mut Row<'_>) -> Answered {
    let call = row.word()?;
    let name = dotted(alloc, row)?;
    on_name(alloc, table, call, &name)
}
