//! Modules as programs over a tree whose bundles stand as folders.
ghost use Rattle.std.specs.Prelude.{◌≡◌, ◌≤◌, None, Some};
ghost use Rattle.import_words.specs.declared.plan.Plan.TheVariants as plans;
ghost use Rattle.program_run.specs.Answers.{left_of};
ghost use Rattle.program_run.specs.Scripts.{AreFew};
ghost use Rattle.program_run.specs.Sinks.{at, moment, Passes};
ghost use Rattle.program_commands.specs.Modules.{AreNames, of_names, no_texts};
ghost use Rattle.pyimport.specs.Bundled.{expanded, GivesInBundles};

use crate::bundled_fork::{fork_bundled, take_in};
use bundle_hook::BundleTree;
use drive_round::Gate;
use import_words::{Plan, RunPlan};
use program_commands::{Named, run_modules};
use program_run::{Report, WANT_OF_MEMORY, without_run};
use std::alloc::Global;
use std::sync::Wait;
use std::thread::Threads;
use tree_files::{Grove, Sink};

/// Runs the modules of a plan as programs over a tree in which each bundle stands as the folder that it
/// lists. The tree is forked once, and what the fork counted is added to it.
pub fn run_modules_bundled<
    N: Named + Send,
    R: Threads + Wait + Sync,
    T: Grove,
    K: Sink + Send,
    G: Gate + Sync,
>(rt: &R, alloc: Global, run: RunPlan, tree: &mut T, out: &mut K, err: &mut K, gate: &G) -> Report
    requires few { AreFew run.scripts }
    requires names { AreNames run.scripts }
    ensures run { GivesInBundles (of_names N.means run.scripts) run (no_texts run.scripts)
        (expanded (moment T.Tree K.Sink K.Sink tree.old out.old err.old))
        (expanded (moment T.Tree K.Sink K.Sink tree.new out.new err.new)) (left_of result) }
    ensures plan { result.plan ≡ Some (plans.Module run) }
    ensures passes { Passes
        (moment T.Tree K.Sink K.Sink tree.old out.old err.old) (moment T.Tree K.Sink K.Sink tree.new out.new err.new) }
    ensures lists { result.history ≡ None → T.lists tree.new ≤ T.lists tree.old }
{
    let Ok(mut bundles) = fork_bundled(alloc, tree) else {
        return without_run(WANT_OF_MEMORY, Some(Plan::Module(run)));
    };
    let report = run_modules::<N, R, BundleTree<T>, K, G>(
        rt,
        alloc,
        run,
        &mut bundles,
        out,
        err,
        gate,
    );
    take_in(tree, bundles);
    report
}
