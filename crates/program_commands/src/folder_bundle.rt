//! The call.
ghost use Rattle.std.specs.Prelude.{◌≡◌, ◌≤◌, ◌++◌, ◌∷◌, [], ℕ, List, codes, None, Some};
ghost use Rattle.tree_files.specs.Count.{Rose};
ghost use Rattle.import_words.specs.declared.plan.Plan.TheVariants as plans;
ghost use Rattle.program_run.specs.Sinks.{at, moment, status_by, Leaves, Moment, Passes};
ghost use Rattle.program_run.specs.Statuses.{normal_end, refusal, sink_fault};
ghost use Rattle.program_commands.specs.Making.{Makes};
ghost use Rattle.program_commands.specs.Bundling.{Bundles, line_about};

use crate::make::{Made, make};
use base_types::Text;
use import_words::Plan;
use machine_desk::Flow;
use program_run::{
    NORMAL_END, REFUSAL, Report, SINK_FAULT, TREE_FAULT, WANT_OF_MEMORY, joined, say_line, tell,
    without_run,
};
use std::alloc::Global;
use tree_files::{Sink, Tree, TreeFault};

/// The status where only standard output was written, by what became of it.
fn status_by(flow: Flow) -> u8
    ensures { result ≡ status_by normal_end sink_fault flow Flow.Open }
{
    match flow {
        Flow::Open => NORMAL_END,
        Flow::Failed => SINK_FAULT,
        Flow::Short => WANT_OF_MEMORY,
    }
}

/// The plan that asks for this call.
fn plan_of(dir: Text) -> Option<Plan>
    ensures { result ≡ Some (plans.Bundle dir) }
{
    Some(Plan::Bundle { dir })
}

/// Tells that no bundle is made of a word.
fn refused<K: Sink>(alloc: Global, first: &str, dir: Text, err: &mut K) -> Report
    ensures leaves { (old new : Moment) → new.out ≡ old.out → old.err ≡ at K.Sink err.old → new.err ≡ at K.Sink err.new
        → Leaves (status_by refusal refusal) [] (line_about first.now dir) old new result.status }
    ensures plan { result.plan ≡ Some (plans.Bundle dir) }
    ensures history { result.history ≡ None }
    ensures faults_grow { K.faults err.old ≤ K.faults err.new }
{
    let line = joined(alloc, first, dir.as_str(), "'");
    tell(err, line, plan_of(dir), REFUSAL, REFUSAL)
}

/// Writes the bundle, or the line about its refusal.
fn write_made<O: Sink, K: Sink>(
    alloc: Global,
    dir: Text,
    made: Made,
    out: &mut O,
    err: &mut K,
) -> Report
    ensures answers { (old new : Moment) → Makes old.files dir made → old.out ≡ at O.Sink out.old
        → new.out ≡ at O.Sink out.new → old.err ≡ at K.Sink err.old
        → new.err ≡ at K.Sink err.new → Bundles dir old new result.status }
    ensures plan { result.plan ≡ Some (plans.Bundle dir) }
    ensures history { result.history ≡ None }
    ensures out_faults { O.faults out.old ≤ O.faults out.new }
    ensures err_faults { K.faults err.old ≤ K.faults err.new }
{
    match made {
        Made::Bytes(bytes) => {
            let flow = say_line(out, Ok(bytes));
            without_run(status_by(flow), plan_of(dir))
        }
        Made::Missing => refused(alloc, "pyimport: cannot open folder '", dir, err),
        Made::Unfit => refused(alloc, "pyimport: cannot bundle '", dir, err),
    }
}

/// Tells why nothing was made.
fn unmade<K: Sink>(alloc: Global, dir: Text, why: TreeFault, err: &mut K) -> Report
    ensures answers { (old new : Moment) → (why ≡ TreeFault.Failed → Rose old.faults new.faults)
        → new.out ≡ old.out → old.err ≡ at K.Sink err.old
        → new.err ≡ at K.Sink err.new → Bundles dir old new result.status }
    ensures plan { result.plan ≡ Some (plans.Bundle dir) }
    ensures history { result.history ≡ None }
    ensures err_faults { K.faults err.old ≤ K.faults err.new }
{
    match why {
        TreeFault::Failed => {
            let line = joined(alloc, "pyimport: file fault", "", "");
            tell(err, line, plan_of(dir), TREE_FAULT, SINK_FAULT)
        }
        TreeFault::NoMemory => without_run(WANT_OF_MEMORY, plan_of(dir)),
    }
}

/// Writes all files below the folder that a word names as a bundle to `out`, with their paths below it. They are read
/// before anything is written. A word that names no folder, and a folder that cannot be bundled, are told in a line on
/// `err`.
pub fn bundle<T: Tree, O: Sink, K: Sink>(
    alloc: Global,
    dir: Text,
    tree: &mut T,
    out: &mut O,
    err: &mut K,
) -> Report
    ensures answers { Bundles dir
        (moment T.Tree O.Sink K.Sink tree.old out.old err.old) (moment T.Tree O.Sink K.Sink tree.new out.new err.new)
        result.status }
    ensures plan { result.plan ≡ Some (plans.Bundle dir) }
    ensures history { result.history ≡ None }
    ensures passes { Passes
        (moment T.Tree O.Sink K.Sink tree.old out.old err.old) (moment T.Tree O.Sink K.Sink tree.new out.new err.new) }
    ensures lists { T.lists tree.old ≤ T.lists tree.new }
{
    match make(alloc, tree, &dir) {
        Ok(made) => write_made(alloc, dir, made, out, err),
        Err(why) => unmade(alloc, dir, why, err),
    }
}
