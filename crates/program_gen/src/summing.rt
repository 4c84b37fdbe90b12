//! The line about a run.
ghost use Rattle.std.specs.Prelude.{◌≡◌, ◌≤◌};
ghost use Rattle.program_run.specs.Runs.{finished};
ghost use Rattle.program_run.specs.Sinks.{at};
ghost use Rattle.program_gen.specs.MadeRuns.{status_after, Summed};

use crate::worst::worst_in;
use crate::write_summary;
use machine_desk::Flow;
use machine_events::Entry;
use program_run::{SINK_FAULT, WANT_OF_MEMORY, say_line};
use std::alloc::Global;
use tree_files::Sink;

/// The status of a run, by what became of the line about it.
fn status_after(status: u8, flow: Flow) -> u8
    ensures { result ≡ status_after status flow }
{
    match flow {
        Flow::Open => status,
        Flow::Failed => SINK_FAULT,
        Flow::Short => WANT_OF_MEMORY,
    }
}

/// Writes the line about a run, unless memory was wanting in it, and gives the status.
pub(crate) fn sum_up<K: Sink>(
    alloc: Global,
    out: &mut K,
    modules: u32,
    scripts: u32,
    history: &[Entry],
    status: u8,
) -> u8
    ensures told { Summed modules scripts (at K.Sink out.old) (at K.Sink out.new) (finished history.now status) result }
    ensures faults_grow { K.faults out.old ≤ K.faults out.new }
{
    if status == WANT_OF_MEMORY {
        return WANT_OF_MEMORY;
    }
    let line = write_summary(alloc, modules, scripts, history, worst_in(history, scripts));
    status_after(status, say_line(out, line))
}
