//! Calls on modules: their variables, phases and namespace states.

use crate::tables::{Answered, number, source, text};
use base_types::{Seq, Text, Wide};
use module_table::{Phase, Table};
use py_value::{NsState, Value};
use rows_words::{Row, RowError};
use std::alloc::Global;

fn put_all(mut told: Text, texts: &[Text]) -> Result<Text, RowError> {
    for text in texts {
        told.push_str(" ")?;
        told.push_str(text.as_str())?;
    }
    Ok(told)
}

/// The variables of a module.
fn names(alloc: Global, table: &Table, mid: u32) -> Answered {
    if (mid as u64) >= table.objects() {
        return text(alloc, "none");
    }
    let names = table.names(mid)?;
    Ok(Some(put_all(Text::from_str(alloc, "names")?, names.as_slice())?))
}

fn value(alloc: Global, value: Option<&Value>) -> Answered {
    match value {
        Some(Value::Int(n)) => {
            let n = n.get();
            Ok(Some(Text::from_string(format!(in alloc; "{n}")?)?))
        }
        Some(_) => text(alloc, "another value"),
        None => text(alloc, "none"),
    }
}

fn phase(alloc: Global, table: &Table, mid: u32) -> Answered {
    if (mid as u64) >= table.objects() {
        return text(alloc, "none");
    }
    match table.phase(mid) {
        Phase::Lazy => text(alloc, "lazy"),
        Phase::Initialising => text(alloc, "initialising"),
        Phase::Ready => text(alloc, "ready"),
    }
}

fn named(alloc: Global, table: &Table, mid: u32) -> Answered {
    if (mid as u64) >= table.objects() {
        return text(alloc, "none");
    }
    text(alloc, table.spec(mid).name().text())
}

fn ready(table: &mut Table, mid: u32) -> Answered {
    table.set_phase(mid, Phase::Ready);
    Ok(None)
}

fn phase_word(word: &str) -> Result<Phase, RowError> {
    match word {
        "lazy" => Ok(Phase::Lazy),
        "initialising" => Ok(Phase::Initialising),
        "ready" => Ok(Phase::Ready),
        _ => Err(RowError::Unknown),
    }
}

/// A new module, and its number.
fn add(alloc: Global, table: &mut Table, row: &mut Row<'_>) -> Answered {
    let spec = source(alloc, row)?;
    let phase = phase_word(row.word()?)?;
    number(alloc, table.add_module(spec, phase)? as u64)
}

/// Sets a variable to a number.
fn set(table: &mut Table, mid: u32, name: Text, n: i128) -> Answered {
    table.set(mid, name, Value::Int(Wide::of(n)))?;
    Ok(None)
}

fn get(alloc: Global, table: &Table, mid: u32, name: &Text) -> Answered {
    value(alloc, table.get(mid, name))
}

/// The number that was in a variable.
fn del(alloc: Global, table: &mut Table, mid: u32, name: &Text) -> Answered {
    let was = table.del(mid, name);
    value(alloc, was.as_ref())
}

fn on_variable(alloc: Global, table: &mut Table, call: &str, row: &mut Row<'_>) -> Answered {
    let mid = row.small()?;
    let name = row.text(alloc)?;
    match call {
        "set" => set(table, mid, name, row.integer()?),
        "get" => get(alloc, table, mid, &name),
        "del" => del(alloc, table, mid, &name),
        _ => Err(RowError::Unknown),
    }
}

/// The epoch of a namespace's state.
fn state(alloc: Global, table: &Table, mid: u32) -> Answered {
    match table.ns(mid) {
        Some(state) => {
            let epoch = state.epoch();
            Ok(Some(Text::from_string(format!(in alloc; "epoch {epoch}")?)?))
        }
        None => text(alloc, "none"),
    }
}

/// Sets a namespace's state to one of this epoch.
fn set_state(alloc: Global, table: &mut Table, mid: u32, epoch: u64) -> Answered {
    let state = NsState::of(Seq::new(alloc), epoch, Seq::new(alloc))?;
    table.set_ns(mid, state);
    Ok(None)
}

fn namespace(alloc: Global, table: &mut Table, row: &mut Row<'_>) -> Answered {
    let mid = row.small()?;
    row.must("epoch ")?;
    set_state(alloc, table, mid, row.number()?)
}

fn on_number(alloc: Global, table: &mut Table, call: &str, mid: u32) -> Answered {
    match call {
        "names" => names(alloc, table, mid),
        "phase" => phase(alloc, table, mid),
        "named" => named(alloc, table, mid),
        "state" => state(alloc, table, mid),
        _ => ready(table, mid),
    }
}

/// A call on a module.
pub fn answer(alloc: Global, table: &mut Table, row: &mut Row<'_>) -> Answered {
    match row.word()? {
        "count" => number(alloc, table.objects()),
        "add" => add(alloc, table, row),
        "namespace" => namespace(alloc, table, row),
        call => match call {
            "names" | "phase" | "named" | "state" | "ready" => {
                on_number(alloc, table, call, row.small()?)
            }
            _ => on_variable(alloc, table, call, row),
        },
    }
}
