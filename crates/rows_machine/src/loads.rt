//! Calls on loads, and on the modules that are made with them.

use crate::tables::{Answered, by, lines, number, source, text};
use base_types::Text;
use module_table::{Load, LoadKind, LoadStage, Phase, Table};
use rows_words::{Row, RowError};
use std::alloc::Global;

fn stage(of: LoadStage) -> &'static str {
    match of {
        LoadStage::Resting => "resting",
        LoadStage::Open => "open",
        LoadStage::Ended => "ended",
    }
}

fn told(alloc: Global, load: &Load) -> Result<Text, RowError> {
    let (thread, len) = (load.thread, load.text.len());
    let stage = stage(load.stage);
    Ok(Text::from_string(format!(in alloc; "thread {thread}, {stage}, {len} bytes")?)?)
}

/// Whose load it is, how far it is, and how long its text is.
fn of(alloc: Global, table: &Table, load: u32) -> Answered {
    match table.find_load(load) {
        Some(load) => Ok(Some(told(alloc, load)?)),
        None => text(alloc, "none"),
    }
}

/// A load of this thread that rests.
fn rest(alloc: Global, table: &mut Table, thread: u32) -> Answered {
    let text = lines(alloc, 0)?;
    let load = table.add_load(Load {
        kind: LoadKind::Lazy,
        thread,
        mid: 0,
        text,
        stage: LoadStage::Resting,
    })?;
    number(alloc, load as u64)
}

/// A module with its open load and its entry.
fn unit(alloc: Global, table: &mut Table, row: &mut Row<'_>) -> Answered {
    let spec = source(alloc, row)?;
    row.must("by ")?;
    let thread = row.small()?;
    let text = lines(alloc, 0)?;
    let (kind, stage) = (LoadKind::Plain, LoadStage::Open);
    let (load, mid) = table.add_unit(spec, Phase::Initialising, kind, thread, text, stage)?;
    Ok(Some(Text::from_string(format!(in alloc; "load {load}, module {mid}")?)?))
}

/// A module runs as a thread's program, with a text of so many line ends.
fn program(alloc: Global, table: &mut Table, row: &mut Row<'_>) -> Answered {
    let thread = row.small()?;
    let spec = source(alloc, row)?;
    let text = lines(alloc, row.small()?)?;
    table.set_main(thread, &spec, text)?;
    Ok(None)
}

fn open(table: &mut Table, row: &mut Row<'_>) -> Answered {
    let (load, thread) = by(row)?;
    table.open_load(load, thread);
    Ok(None)
}

fn set_text(alloc: Global, table: &mut Table, row: &mut Row<'_>) -> Answered {
    let load = row.small()?;
    let text = lines(alloc, row.small()?)?;
    table.set_text(load, text);
    Ok(None)
}

fn finish(table: &mut Table, load: u32) -> Answered {
    table.end_load(load);
    Ok(None)
}

fn drop_last(table: &mut Table) -> Answered {
    table.drop_load();
    Ok(None)
}

/// How many loads there are, by both calls that say it.
fn count(alloc: Global, table: &Table) -> Answered {
    let listed = table.all_loads().len();
    let counted = table.loads();
    Ok(Some(Text::from_string(format!(in alloc; "{counted}, {listed} listed")?)?))
}

fn changes(alloc: Global, table: &mut Table, call: &str, row: &mut Row<'_>) -> Answered {
    match call {
        "open" => open(table, row),
        "text" => set_text(alloc, table, row),
        "finish" => finish(table, row.small()?),
        "drop" => drop_last(table),
        "program" => program(alloc, table, row),
        _ => Err(RowError::Unknown),
    }
}

/// A call on a load.
pub fn answer(alloc: Global, table: &mut Table, row: &mut Row<'_>) -> Answered {
    match row.word()? {
        "of" => of(alloc, table, row.small()?),
        "count" => count(alloc, table),
        "rest" => rest(alloc, table, row.small()?),
        "unit" => unit(alloc, table, row),
        call => changes(alloc, table, call, row),
    }
}
