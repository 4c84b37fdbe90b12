//! The call that reports the imports of a folder.
ghost use Rattle.std.specs.Prelude.{◌≡◌, ◌≤◌, ℕ, List, None, Some};
ghost use Rattle.import_words.specs.Words.{Word};
ghost use Rattle.import_words.specs.declared.plan.Plan.TheVariants as plans;
ghost use Rattle.machine_desk.specs.declared.outlet.Flow.TheVariants as flows;
ghost use Rattle.program_run.specs.Sinks.{at, moment, status_by, Moment, Passes};
ghost use Rattle.program_run.specs.Statuses.{tree_fault, sink_fault};
ghost use Rattle.program_commands.specs.FolderOpening.{NoFolder};
ghost use Rattle.program_commands.specs.Telling.{found_status, Ends};
ghost use Rattle.program_commands.specs.Reporting.{Reports};

use crate::folder_open::open_folder;
use crate::telling::{Told, tell_report};
use base_types::{Text, Texts};
use import_words::Plan;
use machine_desk::Flow;
use program_run::{
    ERROR_END, NORMAL_END, REFUSAL, Report, SINK_FAULT, TREE_FAULT, Unopened, WANT_OF_MEMORY,
    joined, say_line, tell, without_run,
};
use std::alloc::Global;
use tree_files::{Sink, Tree};

/// The status where a call of the tree failed, by what became of the line about it.
fn unread_status(said: Flow) -> u8
    ensures { result ≡ status_by tree_fault sink_fault flows.Open said }
{
    match said {
        Flow::Open => TREE_FAULT,
        Flow::Failed => SINK_FAULT,
        Flow::Short => WANT_OF_MEMORY,
    }
}

/// The status where all lines are told, by whether each is found.
fn found_status(found: bool) -> u8
    ensures { result ≡ found_status found }
{
    if found { NORMAL_END } else { ERROR_END }
}

/// The status of a report, by what became of it. A call of the tree that failed is told.
fn end_report<K: Sink>(alloc: Global, told: Told, err: &mut K) -> u8
    ensures ends { Ends told (at K.Sink err.old) (at K.Sink err.new) result }
    ensures err_faults { K.faults err.old ≤ K.faults err.new }
{
    match told {
        Told::All(found) => found_status(found),
        Told::Unread => {
            let line = joined(alloc, "pyimport: file fault", "", "");
            unread_status(say_line(err, line))
        }
        Told::Cut => SINK_FAULT,
        Told::Short => WANT_OF_MEMORY,
    }
}

/// Tells why a folder was not opened.
fn unopened<K: Sink>(alloc: Global, why: Unopened, plan: Option<Plan>, err: &mut K) -> Report
    ensures answers { (word : Word) (path : List Word) (old new : Moment)
        → NoFolder old.files word old.faults new.faults why → new.lists ≡ old.lists → new.out ≡ old.out
        → old.err ≡ at K.Sink err.old → new.err ≡ at K.Sink err.new → Reports word path old new result.status }
    ensures plan { result.plan ≡ plan }
    ensures history { result.history ≡ None }
    ensures err_faults { K.faults err.old ≤ K.faults err.new }
{
    match why {
        Unopened::Refused(line) => tell(err, Ok(line), plan, REFUSAL, REFUSAL),
        Unopened::Unread => {
            let line = joined(alloc, "pyimport: file fault", "", "");
            tell(err, line, plan, TREE_FAULT, SINK_FAULT)
        }
        Unopened::NoMemory => without_run(WANT_OF_MEMORY, plan),
    }
}

/// The plan that asks for this call.
fn plan_of(path: Texts, dir: Text) -> Option<Plan>
    ensures { result ≡ Some (plans.Report path dir) }
{
    Some(Plan::Report { path, dir })
}

/// Reports the folder that a word names in a tree: one line on `out` for each name that an import statement under it
/// asks for, by what names mean on this path. Nothing is run. What is no folder, and a call of the tree that failed,
/// is told in a line on `err`.
pub fn report_imports<T: Tree, O: Sink, K: Sink>(
    alloc: Global,
    path: Texts,
    dir: Text,
    tree: &mut T,
    out: &mut O,
    err: &mut K,
) -> Report
    ensures answers { Reports dir path
        (moment T.Tree O.Sink K.Sink tree.old out.old err.old) (moment T.Tree O.Sink K.Sink tree.new out.new err.new)
        result.status }
    ensures plan { result.plan ≡ Some (plans.Report path dir) }
    ensures history { result.history ≡ None }
    ensures passes { Passes
        (moment T.Tree O.Sink K.Sink tree.old out.old err.old) (moment T.Tree O.Sink K.Sink tree.new out.new err.new) }
    ensures lists { T.lists tree.old ≤ T.lists tree.new }
{
    match open_folder(alloc, tree, &dir) {
        Ok(folder) => {
            let told = tell_report(alloc, &folder, &path, tree, out);
            let status = end_report(alloc, told, err);
            without_run(status, plan_of(path, dir))
        }
        Err(why) => unopened(alloc, why, plan_of(path, dir), err),
    }
}
