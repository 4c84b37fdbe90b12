//! Calls on the reloads of modules.

use crate::tables::{Answered, by, dotted, source, text, yes};
use base_types::Text;
use module_table::{Reload, Table};
use rows_words::{Row, RowError};
use spec_core::{Dotted, Spec};
use std::alloc::Global;

fn told(alloc: Global, reload: &Reload) -> Result<Text, RowError> {
    let (thread, mid) = (reload.thread, reload.mid);
    let told = match reload.load {
        None => format!(in alloc; "thread {thread}, module {mid}")?,
        Some(load) => format!(in alloc; "thread {thread}, module {mid}, load {load}")?,
    };
    Ok(Text::from_string(told)?)
}

/// Who reloads the name, which module, and the load that its body is.
fn reloading(alloc: Global, table: &Table, name: &Dotted) -> Answered {
    match table.reloading(name) {
        Some(reload) => Ok(Some(told(alloc, &reload)?)),
        None => text(alloc, "none"),
    }
}

fn enter(alloc: Global, table: &mut Table, row: &mut Row<'_>) -> Answered {
    let name = dotted(alloc, row)?;
    let (mid, thread) = by(row)?;
    table.reload_enter(&name, thread, mid)?;
    Ok(None)
}

fn leave(table: &mut Table, name: &Dotted) -> Answered {
    table.reload_leave(name);
    Ok(None)
}

fn restart(table: &mut Table, mid: u32, spec: &Spec, load: u32) -> Answered {
    let restart = table.restart_of(mid, spec)?;
    table.restart(mid, restart, spec.name(), load);
    Ok(None)
}

/// A module's body begins again, as this load.
fn again(alloc: Global, table: &mut Table, row: &mut Row<'_>) -> Answered {
    let mid = row.small()?;
    let spec = source(alloc, row)?;
    row.must("load ")?;
    restart(table, mid, &spec, row.small()?)
}

/// A call on a reload.
pub fn answer(alloc: Global, table: &mut Table, row: &mut Row<'_>) -> Answered {
    match row.word()? {
        "of" => reloading(alloc, table, &dotted(alloc, row)?),
        "by" => yes(alloc, table.reloads(row.small()?)),
        "enter" => enter(alloc, table, row),
        "leave" => leave(table, &dotted(alloc, row)?),
        "again" => again(alloc, table, row),
        _ => Err(RowError::Unknown),
    }
}
