//! The calls of the program.
ghost use Rattle.std.specs.Prelude.{◌≡◌, ◌≤◌, None, length, map};
ghost use Rattle.std.specs.String.{string_bytes};
ghost use Rattle.import_words.specs.Plans.{plan_of};
ghost use Rattle.program_run.specs.Answers.{left_of};
ghost use Rattle.program_run.specs.Runs.{Gives};
ghost use Rattle.program_run.specs.Sinks.{at, moment, Passes};
ghost use Rattle.program_rounds.specs.Rounds.{AreBelowRoot, AreFew, AreSingle, CanRun, scripts_of};
ghost use Rattle.program_rounds.specs.Runs as in_rounds;
ghost use Rattle.meaning_script.specs.Meaning.{meaning};
ghost use Rattle.step_calls.specs.Sources.{sources};
ghost use Rattle.pyimport.specs.Answers.{Answers, ReadsItself, ReadsNoFolder};

use crate::bundled::call_bundled;
use crate::bundled_modules::run_modules_bundled;
use crate::module::Module;
use crate::script::Script;
use crate::task::{Numbers, Reported, Stored, Task, task_of};
use base_types::Seq;
use drive_round::Gate;
use import_words::{Round, RunPlan};
use program_check::check;
use program_commands::{bundle, convert, report_imports, run_modules};
use program_gen::call_made;
use program_rounds::{call, run_rounds as run_in_rounds, run_rounds_alone};
use program_run::{
    Report, WANT_OF_MEMORY, plan_for, run_alone, run_scripts, with_plan, without_run,
};
use std::alloc::Global;
use std::sync::Wait;
use std::thread::Threads;
use tree_files::{Grove, Sink, Tree};

/// Runs one script over a tree. What it prints goes to `out` as it is printed, and a line where its
/// end is not normal to `err`. It always returns. The report has no plan: that is the caller's.
pub fn solo<T: Tree, K: Sink>(
    alloc: Global,
    plan: &RunPlan,
    texts: Seq<Seq<u8>>,
    tree: &mut T,
    out: &mut K,
    err: &mut K,
) -> Report
    requires script { length plan.now.scripts ≡ 1 }
    requires text { length texts ≡ 1 }
    ensures run { Gives (meaning sources) plan.now texts
        (moment T.Tree K.Sink K.Sink tree.old out.old err.old) (moment T.Tree K.Sink K.Sink tree.new out.new err.new)
        (left_of result) }
    ensures plan { result.plan ≡ None }
    ensures passes { Passes
        (moment T.Tree K.Sink K.Sink tree.old out.old err.old) (moment T.Tree K.Sink K.Sink tree.new out.new err.new) }
{
    let ran = run_alone::<Script, T, K, K>(alloc, plan, texts, tree, out, err);
    with_plan(ran, None)
}

/// Runs rounds of one script each, one after another on one machine, over a tree that is edited before
/// each: every script runs over a fork of it with all edits so far. What they print goes to `out` as it
/// is printed, and a line for each end that is not normal to `err`. It always returns. The report has
/// no plan.
pub fn solo_rounds<T: Grove, K: Sink>(
    alloc: Global,
    plan: &RunPlan,
    rounds: &[Round],
    texts: Seq<Seq<u8>>,
    tree: &mut T,
    out: &mut K,
    err: &mut K,
) -> Report
    requires few { AreFew rounds.now }
    requires single { AreSingle rounds.now }
    requires below { AreBelowRoot rounds.now }
    requires texts { length texts ≡ length rounds.now }
    ensures run { in_rounds.Gives (meaning sources) plan.now rounds.now texts
        (moment T.Tree K.Sink K.Sink tree.old out.old err.old) (moment T.Tree K.Sink K.Sink tree.new out.new err.new)
        (left_of result) }
    ensures plan { result.plan ≡ None }
    ensures passes { Passes
        (moment T.Tree K.Sink K.Sink tree.old out.old err.old) (moment T.Tree K.Sink K.Sink tree.new out.new err.new) }
{
    let ran = run_rounds_alone::<Script, T, K, K>(alloc, plan, rounds, texts, tree, out, err);
    with_plan(ran, None)
}

/// Runs 2 to 16 scripts over a tree, each in a thread of its own over a fork of it, which passes the
/// gate before each event. What they print goes to `out` as it is printed, and a line for each end
/// that is not normal to `err`, in the order of the scripts. The report has no plan.
pub fn run_all<R: Threads + Wait + Sync, T: Grove, K: Sink + Send, G: Gate + Sync>(
    rt: &R,
    alloc: Global,
    plan: &RunPlan,
    texts: Seq<Seq<u8>>,
    tree: &mut T,
    out: &mut K,
    err: &mut K,
    gate: &G,
) -> Report
    requires some { 2 ≤ length plan.now.scripts }
    requires few { length plan.now.scripts ≤ 16 }
    requires texts { length texts ≡ length plan.now.scripts }
    ensures run { Gives (meaning sources) plan.now texts
        (moment T.Tree K.Sink K.Sink tree.old out.old err.old) (moment T.Tree K.Sink K.Sink tree.new out.new err.new)
        (left_of result) }
    ensures plan { result.plan ≡ None }
    ensures passes { Passes
        (moment T.Tree K.Sink K.Sink tree.old out.old err.old) (moment T.Tree K.Sink K.Sink tree.new out.new err.new) }
{
    let ran = run_scripts::<Script, R, T, K, K, G>(rt, alloc, plan, texts, tree, out, err, gate);
    with_plan(ran, None)
}

/// Runs rounds of one or more scripts over a tree that is edited before each. A round begins when all
/// scripts of the rounds before it have ended, however they ended; its scripts run each in a thread of its
/// own, over a fork of the tree with all edits so far, and pass the gate before each event. Where each
/// round has one script, they run as in `solo_rounds`. What they print goes to `out` as it is printed, and
/// a line for each end that is not normal to `err`, in the order of the scripts. The report has no plan.
pub fn run_rounds<R: Threads + Wait + Sync, T: Grove, K: Sink + Send, G: Gate + Sync>(
    rt: &R,
    alloc: Global,
    plan: &RunPlan,
    rounds: &[Round],
    texts: Seq<Seq<u8>>,
    tree: &mut T,
    out: &mut K,
    err: &mut K,
    gate: &G,
) -> Report
    requires can_run { CanRun rounds.now }
    requires below { AreBelowRoot rounds.now }
    requires texts { length texts ≡ length (scripts_of rounds.now) }
    ensures run { in_rounds.Gives (meaning sources) plan.now rounds.now texts
        (moment T.Tree K.Sink K.Sink tree.old out.old err.old) (moment T.Tree K.Sink K.Sink tree.new out.new err.new)
        (left_of result) }
    ensures plan { result.plan ≡ None }
    ensures passes { Passes
        (moment T.Tree K.Sink K.Sink tree.old out.old err.old) (moment T.Tree K.Sink K.Sink tree.new out.new err.new) }
{
    let ran = run_in_rounds::<Script, R, T, K, K, G>(
        rt, alloc, plan, rounds, texts, tree, out, err, gate,
    );
    with_plan(ran, None)
}

/// Runs what the words of the command line ask for, over a tree, and writes what is to be written to
/// the two sinks.
///
/// One script or module runs as in `solo`, several as in `run_all`, and rounds as in `run_rounds`. With
/// `--bundles` the tree is forked once, and all is done over that fork, in which bundles are folders. A
/// made workload leaves the tree alone.
pub fn pyimport<R: Threads + Wait + Sync, T: Grove, K: Sink + Send, G: Gate + Sync>(
    rt: &R,
    alloc: Global,
    words: &[String],
    tree: &mut T,
    out: &mut K,
    err: &mut K,
    gate: &G,
) -> Report
    ensures answers { Answers (map string_bytes words.now)
        (moment T.Tree K.Sink K.Sink tree.old out.old err.old) (moment T.Tree K.Sink K.Sink tree.new out.new err.new)
        result }
    ensures passes { Passes
        (moment T.Tree K.Sink K.Sink tree.old out.old err.old) (moment T.Tree K.Sink K.Sink tree.new out.new err.new) }
    ensures lists { result.history ≡ None → ReadsNoFolder result.plan → T.lists tree.new ≤ T.lists tree.old }
    ensures lists_stay { ReadsItself (plan_of (map string_bytes words.now)) → result.history ≡ None
        → ReadsNoFolder result.plan → T.lists tree.new ≡ T.lists tree.old }
{
    match plan_for(alloc, words) {
        Ok(plan) => match task_of(plan) {
            Task::Make(
                Numbers {
                    seed,
                    modules,
                    scripts,
                },
            ) => call_made::<Script, R, K, G>(rt, alloc, seed, modules, scripts, out, err, gate),
            Task::Convert(file) => convert(alloc, file, tree, out, err),
            Task::Report(Reported { path, dir }) => {
                report_imports(alloc, path, dir, tree, out, err)
            }
            Task::Bundle(dir) => bundle(alloc, dir, tree, out, err),
            Task::Check(Stored { run, trace_file }) => {
                check::<Script, T, K, K>(alloc, run, trace_file, tree, out, err)
            }
            Task::Modules(run) => {
                run_modules::<Module, R, T, K, G>(rt, alloc, run, tree, out, err, gate)
            }
            Task::ModulesInBundles(run) => {
                run_modules_bundled::<Module, R, T, K, G>(rt, alloc, run, tree, out, err, gate)
            }
            Task::RunInBundles(run) => call_bundled::<Script, R, T, K, G>(
                rt, alloc, words, run, tree, out, err, gate,
            ),
            Task::Run(plan) => call::<Script, R, T, K, G>(
                rt, alloc, words, plan, tree, out, err, gate,
            ),
        },
        Err(_) => without_run(WANT_OF_MEMORY, None),
    }
}
