//! A call that runs modules as programs.
ghost use Rattle.std.specs.Prelude.{◌≡◌, Some};
ghost use Rattle.import_words.specs.declared.plan.Plan.TheVariants as plans;
ghost use Rattle.program_run.specs.Answers.{left_of};
ghost use Rattle.program_run.specs.Runs.{Gives};
ghost use Rattle.program_run.specs.Scripts.{AreFew};
ghost use Rattle.program_run.specs.Sinks.{at, moment, Passes};
ghost use Rattle.program_commands.specs.Modules.{AreNames, of_names, no_texts};

use crate::named::{Named, names_are_safe};
use crate::programs::{no_texts, programs_of};
use drive_round::Gate;
use import_words::{Plan, RunPlan};
use program_run::{Left, Report, run_programs, unbegun, with_plan};
use std::alloc::Global;
use std::sync::Wait;
use std::thread::Threads;
use tree_files::{Grove, Sink};

/// Runs the modules of a plan as programs: one by itself, and several in threads of their own. The
/// machine opens as for scripts of these names with empty texts.
fn run_names<N: Named + Send, R: Threads + Wait + Sync, T: Grove, K: Sink + Send, G: Gate + Sync>(
    rt: &R,
    alloc: Global,
    plan: &RunPlan,
    tree: &mut T,
    out: &mut K,
    err: &mut K,
    gate: &G,
) -> Left
    requires few { AreFew plan.now.scripts }
    requires names { AreNames plan.now.scripts }
    ensures run { Gives (of_names N.means plan.now.scripts) plan.now (no_texts plan.now.scripts)
        (moment T.Tree K.Sink K.Sink tree.old out.old err.old) (moment T.Tree K.Sink K.Sink tree.new out.new err.new)
        result }
    ensures passes { Passes
        (moment T.Tree K.Sink K.Sink tree.old out.old err.old) (moment T.Tree K.Sink K.Sink tree.new out.new err.new) }
{
    let names = plan.scripts.as_slice();
    let Ok(programs) = programs_of::<N>(alloc, names) else {
        return unbegun();
    };
    let Ok(texts) = no_texts(alloc, names) else {
        return unbegun();
    };
    names_are_safe::<N>();
    run_programs(rt, alloc, plan, texts, programs, tree, out, err, gate)
}

/// Runs the modules of a plan as programs (`python -m`), each in a thread of its own, over a tree. What
/// they print goes to `out` as it is printed, and a line for each end that is not normal to `err`, in the
/// order of the names.
pub fn run_modules<
    N: Named + Send,
    R: Threads + Wait + Sync,
    T: Grove,
    K: Sink + Send,
    G: Gate + Sync,
>(rt: &R, alloc: Global, run: RunPlan, tree: &mut T, out: &mut K, err: &mut K, gate: &G) -> Report
    requires few { AreFew run.scripts }
    requires names { AreNames run.scripts }
    ensures run { Gives (of_names N.means run.scripts) run (no_texts run.scripts)
        (moment T.Tree K.Sink K.Sink tree.old out.old err.old) (moment T.Tree K.Sink K.Sink tree.new out.new err.new)
        (left_of result) }
    ensures plan { result.plan ≡ Some (plans.Module run) }
    ensures passes { Passes
        (moment T.Tree K.Sink K.Sink tree.old out.old err.old) (moment T.Tree K.Sink K.Sink tree.new out.new err.new) }
{
    let ran = run_names::<N, R, T, K, G>(rt, alloc, &run, tree, out, err, gate);
    with_plan(ran, Some(Plan::Module(run)))
}
