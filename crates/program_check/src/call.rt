//! The call that judges a stored trace.
ghost use Rattle.std.specs.Prelude.{◌≡◌, ◌≤◌, [], None, Some, IfOk};
ghost use Rattle.import_words.specs.declared.plan.Plan.TheVariants as plans;
ghost use Rattle.program_run.specs.Scripts.{AreFew};
ghost use Rattle.program_run.specs.Sinks.{at, moment, status_by, Gets, Leaves, Moment, Passes};
ghost use Rattle.program_run.specs.Statuses.{sink_fault};
ghost use Rattle.program_check.specs.Lines.{verdict_line, status_of};
ghost use Rattle.program_check.specs.Checking.{Checks, ChecksText, Says, Unmade};
ghost use Rattle.program_check.specs.Opened.{Fit, Opens};

use crate::followed::Followed;
use crate::lines::{status_of, verdict_line};
use crate::opened::{Opened, open_scripts};
use crate::text::{Said, judge};
use base_types::{Seq, Text};
use import_words::{Plan, RunPlan};
use machine_desk::Flow;
use program_commands::open_trace;
use program_run::{
    REFUSAL, Report, SINK_FAULT, TREE_FAULT, Unopened, WANT_OF_MEMORY, joined, say_line, tell,
    without_run,
};
use std::alloc::Global;
use tree_files::{Grove, Sink, TreeFault};

/// The status where only standard output was written, by what became of it.
fn status_by(good: u8, flow: Flow) -> u8
    ensures { result ≡ status_by good sink_fault flow Flow.Open }
{
    match flow {
        Flow::Open => good,
        Flow::Failed => SINK_FAULT,
        Flow::Short => WANT_OF_MEMORY,
    }
}

/// The plan that asks for this call.
fn plan_of(run: RunPlan, trace_file: Text) -> Option<Plan>
    ensures { result ≡ Some (plans.Check run trace_file) }
{
    Some(Plan::Check { run, trace_file })
}

/// Tells why a trace or a script was not opened, or that a call of the tree failed.
fn unopened<K: Sink>(alloc: Global, why: Unopened, plan: Option<Plan>, err: &mut K) -> Report
    ensures tells { (old new : Moment) → new.out ≡ old.out → old.err ≡ at K.Sink err.old
        → new.err ≡ at K.Sink err.new → Unmade why old new result.status }
    ensures plan { result.plan ≡ plan }
    ensures history { result.history ≡ None }
    ensures err_faults { K.faults err.old ≤ K.faults err.new }
{
    match why {
        Unopened::Refused(line) => tell(err, Ok(line), plan, REFUSAL, REFUSAL),
        Unopened::Unread => {
            let line = joined(alloc, "pyimport: file fault", "", "");
            tell(err, line, plan, TREE_FAULT, SINK_FAULT)
        }
        Unopened::NoMemory => without_run(WANT_OF_MEMORY, plan),
    }
}

/// Writes the line about a judged trace.
fn say<O: Sink>(alloc: Global, said: &Said, plan: Option<Plan>, out: &mut O) -> Report
    ensures says { (old new : Moment) → old.out ≡ at O.Sink out.old → new.out ≡ at O.Sink out.new → new.err ≡ old.err
        → Says said.now.entries said.now.verdict old new result.status }
    ensures plan { result.plan ≡ plan }
    ensures history { result.history ≡ None }
    ensures out_faults { O.faults out.old ≤ O.faults out.new }
{
    let line = verdict_line(alloc, said.entries, &said.verdict);
    let flow = say_line(out, line);
    without_run(status_by(status_of(&said.verdict), flow), plan)
}

/// Judges the text of a trace, and writes the line about it.
fn check_text<F: Followed, T: Grove, O: Sink, K: Sink>(
    alloc: Global,
    bytes: Seq<u8>,
    run: RunPlan,
    trace_file: Text,
    it: &Opened,
    tree: &mut T,
    out: &mut O,
    err: &mut K,
) -> Report
    requires opened { Opens (T.files tree.old) run it.now.rounds it.now.texts }
    requires fit { Fit it.now.rounds it.now.texts }
    ensures answers { ChecksText F.means bytes run
        (moment T.Tree O.Sink K.Sink tree.old out.old err.old) (moment T.Tree O.Sink K.Sink tree.new out.new err.new)
        result.status }
    ensures plan { result.plan ≡ Some (plans.Check run trace_file) }
    ensures history { result.history ≡ None }
    ensures passes { Passes
        (moment T.Tree O.Sink K.Sink tree.old out.old err.old) (moment T.Tree O.Sink K.Sink tree.new out.new err.new) }
{
    let judged = judge::<F, T>(alloc, &run, it, tree, bytes);
    let plan = plan_of(run, trace_file);
    match judged {
        Ok(said) => say(alloc, &said, plan, out),
        Err(TreeFault::Failed) => unopened(alloc, Unopened::Unread, plan, err),
        Err(TreeFault::NoMemory) => unopened(alloc, Unopened::NoMemory, plan, err),
    }
}

/// Opens the rounds file of a plan, where there is one, and the scripts, and judges the text of a trace.
fn check_opened<F: Followed, T: Grove, O: Sink, K: Sink>(
    alloc: Global,
    bytes: Seq<u8>,
    run: RunPlan,
    trace_file: Text,
    tree: &mut T,
    out: &mut O,
    err: &mut K,
) -> Report
    requires few { run.rounds ≡ None → AreFew run.scripts }
    ensures answers { ChecksText F.means bytes run
        (moment T.Tree O.Sink K.Sink tree.old out.old err.old) (moment T.Tree O.Sink K.Sink tree.new out.new err.new)
        result.status }
    ensures plan { result.plan ≡ Some (plans.Check run trace_file) }
    ensures history { result.history ≡ None }
    ensures passes { Passes
        (moment T.Tree O.Sink K.Sink tree.old out.old err.old) (moment T.Tree O.Sink K.Sink tree.new out.new err.new) }
{
    match open_scripts(alloc, tree, &run) {
        Ok(it) => check_text::<F, T, O, K>(alloc, bytes, run, trace_file, &it, tree, out, err),
        Err(why) => unopened(alloc, why, plan_of(run, trace_file), err),
    }
}

/// Judges the trace that a word names in a tree against the scripts of a plan, each over the files of its
/// own round, and writes one line to `out`: that it is a history of the machine which each script
/// follows, with its counts, or the first line that is wrong. What cannot be opened is told in a line on
/// `err`.
pub fn check<F: Followed, T: Grove, O: Sink, K: Sink>(
    alloc: Global,
    run: RunPlan,
    trace_file: Text,
    tree: &mut T,
    out: &mut O,
    err: &mut K,
) -> Report
    requires few { run.rounds ≡ None → AreFew run.scripts }
    ensures answers { Checks F.means trace_file run
        (moment T.Tree O.Sink K.Sink tree.old out.old err.old) (moment T.Tree O.Sink K.Sink tree.new out.new err.new)
        result.status }
    ensures plan { result.plan ≡ Some (plans.Check run trace_file) }
    ensures history { result.history ≡ None }
    ensures passes { Passes
        (moment T.Tree O.Sink K.Sink tree.old out.old err.old) (moment T.Tree O.Sink K.Sink tree.new out.new err.new) }
{
    match open_trace(alloc, tree, &trace_file) {
        Ok(bytes) => check_opened::<F, T, O, K>(alloc, bytes, run, trace_file, tree, out, err),
        Err(why) => unopened(alloc, why, plan_of(run, trace_file), err),
    }
}
