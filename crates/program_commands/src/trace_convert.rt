//! The call that writes a stored trace anew.
ghost use Rattle.std.specs.Prelude.{◌≡◌, ◌≤◌, ℕ, List, None, Some};
ghost use Rattle.import_words.specs.declared.plan.Plan.TheVariants as plans;
ghost use Rattle.program_run.specs.Sinks.{at, moment, status_by, Gets, Moment, Passes};
ghost use Rattle.program_run.specs.Statuses.{normal_end, sink_fault};
ghost use Rattle.machine_desk.specs.Outgo.{Kept};
ghost use Rattle.trace_text.specs.Trace.{trace};
ghost use Rattle.program_commands.specs.Converting.{Converts, ConvertsText};
ghost use Rattle.program_commands.specs.Opening.{NoTrace};

use crate::refusal::refusal_line;
use crate::trace_open::open_trace;
use base_types::Text;
use import_words::Plan;
use machine_desk::{Flow, Outlet};
use machine_events::Entry;
use program_run::{
    ERROR_END, NORMAL_END, Out, REFUSAL, Report, SINK_FAULT, TREE_FAULT, Unopened, WANT_OF_MEMORY,
    joined, tell, without_run,
};
use std::alloc::Global;
use trace_read::{TraceError, read_trace};
use tree_files::{Sink, Tree};

/// Puts entries into an outlet, one after another.
fn put_all<O: Outlet>(out: &mut O, entries: &[Entry])
    ensures { Kept O.piece (O.out out.old) (O.out out.new) entries.now }
{
    for entry in entries {
        out.put(entry);
    }
}

/// Writes entries as a trace, line by line.
fn say_trace<K: Sink>(alloc: Global, sink: &mut K, entries: &[Entry]) -> Flow
    ensures gets { Gets (at K.Sink sink.old) (trace entries.now) (at K.Sink sink.new) result }
    ensures faults_grow { K.faults sink.old ≤ K.faults sink.new }
{
    let mut out = Out::open(alloc, sink, true);
    put_all(&mut out, entries);
    out.close(sink)
}

/// The status where only standard output was written, by what became of it.
fn status_by(flow: Flow) -> u8
    ensures { result ≡ status_by normal_end sink_fault flow Flow.Open }
{
    match flow {
        Flow::Open => NORMAL_END,
        Flow::Failed => SINK_FAULT,
        Flow::Short => WANT_OF_MEMORY,
    }
}

/// Writes the trace that a text is, or the line about its refusal.
fn rewrite<O: Sink, K: Sink>(
    alloc: Global,
    bytes: &[u8],
    plan: Option<Plan>,
    out: &mut O,
    err: &mut K,
) -> Report
    ensures answers { (old new : Moment) → old.out ≡ at O.Sink out.old
        → new.out ≡ at O.Sink out.new → old.err ≡ at K.Sink err.old
        → new.err ≡ at K.Sink err.new → ConvertsText bytes.now old new result.status }
    ensures plan { result.plan ≡ plan }
    ensures history { result.history ≡ None }
    ensures out_faults { O.faults out.old ≤ O.faults out.new }
    ensures err_faults { K.faults err.old ≤ K.faults err.new }
{
    match read_trace(alloc, bytes) {
        Ok(trace) => {
            let flow = say_trace(alloc, out, trace.entries.as_slice());
            without_run(status_by(flow), plan)
        }
        Err(TraceError::At { line, cause }) => {
            let refusal = refusal_line(alloc, line, cause);
            tell(err, refusal, plan, ERROR_END, SINK_FAULT)
        }
        Err(TraceError::NoMemory) => without_run(WANT_OF_MEMORY, plan),
    }
}

/// Tells why a trace was not opened.
fn unopened<K: Sink>(alloc: Global, why: Unopened, plan: Option<Plan>, err: &mut K) -> Report
    ensures answers { (word : List ℕ) (old new : Moment) → NoTrace old.files word old.faults new.faults why
        → new.out ≡ old.out → old.err ≡ at K.Sink err.old
        → new.err ≡ at K.Sink err.new → Converts word old new result.status }
    ensures plan { result.plan ≡ plan }
    ensures history { result.history ≡ None }
    ensures err_faults { K.faults err.old ≤ K.faults err.new }
{
    match why {
        Unopened::Refused(line) => tell(err, Ok(line), plan, REFUSAL, REFUSAL),
        Unopened::Unread => {
            let line = joined(alloc, "pyimport: file fault", "", "");
            tell(err, line, plan, TREE_FAULT, SINK_FAULT)
        }
        Unopened::NoMemory => without_run(WANT_OF_MEMORY, plan),
    }
}

/// The plan that asks for this call.
fn plan_of(trace_file: Text) -> Option<Plan>
    ensures { result ≡ Some (plans.Convert trace_file) }
{
    Some(Plan::Convert { trace_file })
}

/// Reads the trace that a word names in a tree, and writes its entries to `out` in the newest format.
/// What is no file or no trace is told in a line on `err`.
pub fn convert<T: Tree, O: Sink, K: Sink>(
    alloc: Global,
    trace_file: Text,
    tree: &mut T,
    out: &mut O,
    err: &mut K,
) -> Report
    ensures answers { Converts trace_file
        (moment T.Tree O.Sink K.Sink tree.old out.old err.old) (moment T.Tree O.Sink K.Sink tree.new out.new err.new)
        result.status }
    ensures plan { result.plan ≡ Some (plans.Convert trace_file) }
    ensures history { result.history ≡ None }
    ensures passes { Passes
        (moment T.Tree O.Sink K.Sink tree.old out.old err.old) (moment T.Tree O.Sink K.Sink tree.new out.new err.new) }
    ensures lists { T.lists tree.new ≡ T.lists tree.old }
{
    match open_trace(alloc, tree, &trace_file) {
        Ok(bytes) => rewrite(alloc, bytes.as_slice(), plan_of(trace_file), out, err),
        Err(why) => unopened(alloc, why, plan_of(trace_file), err),
    }
}
