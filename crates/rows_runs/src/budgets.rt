//! A call with each budget that is too small, and with the one that is just enough.

use crate::calls::{Call, sink, tree, with_option};
use base_types::Text;
use machine_events::{Entry, Event, Outcome, Reply};
use pyimport::{OpenGate, Report, pyimport};
use rows_words::RowError;
use std::alloc::Global;
use std::sync::Wait;
use std::thread::Threads;
use tree_files::MemSink;

/// Budgets below this one are tried.
const MOST_UNITS: u64 = 1000;

/// The statuses of a script that ended well, and of one whose budget was spent.
const GOOD: u8 = 0;

const SPENT: u8 = 3;

/// Whether an event takes a lock once more, by its reply.
fn takes(entry: &Entry) -> bool {
    matches!(
        (&entry.event, &entry.reply),
        (Event::Take(_), Reply::Mine(_))
            | (Event::Rouse(_), Reply::Yours(_, _))
            | (Event::ReloadTake { .. }, Reply::Load(_, _))
    )
}

/// Whether an event gives a lock back once.
fn gives(entry: &Entry) -> bool {
    matches!(
        &entry.event,
        Event::Release(_)
            | Event::Finish { .. }
            | Event::AddLazy { .. }
            | Event::ReloadEnd { load: Some(_), .. }
    )
}

/// Whether locks were given back as often as they were taken.
fn is_free(history: &[Entry]) -> bool {
    let taken = history.iter().filter(|entry| takes(*entry)).count();
    let given = history.iter().filter(|entry| gives(*entry)).count();
    taken == given
}

/// Whether the last event says that a budget of so many units is spent.
fn ends_spent(history: &[Entry], units: u64) -> bool {
    let Some(entry) = history.last() else {
        return false;
    };
    match &entry.event {
        Event::End {
            outcome: Outcome::Fuel,
            spent,
        } => *spent == units,
        _ => false,
    }
}

/// The call with a budget.
fn tried<R: Threads + Wait + Sync>(
    rt: &R,
    alloc: Global,
    call: &Call,
    units: u64,
    out: &mut MemSink,
) -> Result<Report, RowError> {
    let budget = format!(in alloc; "--fuel={units}")?;
    let words = with_option(alloc, call.words.as_slice(), budget.as_str())?;
    let mut tree = tree(alloc, call)?;
    let mut err = sink(alloc, None);
    Ok(pyimport(
        rt,
        alloc,
        words.as_slice(),
        &mut tree,
        out,
        &mut err,
        &OpenGate,
    ))
}

/// Whether so many units are enough, `None` where the call ends neither well nor with a budget that is spent, or leaves a
/// lock behind.
fn is_enough(report: &Report, units: u64) -> Option<bool> {
    let history = report.history.as_ref()?.as_slice();
    if !is_free(history) {
        return None;
    }
    if report.status == GOOD {
        return Some(true);
    }
    if report.status == SPENT && ends_spent(history, units) {
        return Some(false);
    }
    None
}

/// The least budget that is enough. With each smaller one the budget must be spent and the output a prefix, and no lock
/// may be left.
pub fn each_budget<R: Threads + Wait + Sync>(
    rt: &R,
    alloc: Global,
    call: &Call,
) -> Result<Text, RowError> {
    let mut before = sink(alloc, None);
    for units in 1..MOST_UNITS {
        let mut out = sink(alloc, None);
        let report = tried(rt, alloc, call, units, &mut out)?;
        let enough = is_enough(&report, units);
        if !out.bytes().starts_with(before.bytes()) || enough.is_none() {
            break;
        }
        if enough == Some(true) {
            return Ok(Text::from_string(format!(in alloc; "{units} units, and no lock is left")?)?);
        }
        before = out;
    }
    Ok(Text::from_str(alloc, "otherwise")?)
}
