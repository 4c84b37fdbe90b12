//! The call over a tree whose bundles stand as folders.
ghost use Rattle.std.specs.Prelude.{◌≡◌, ◌≤◌, None, Some, map};
ghost use Rattle.std.specs.String.{string_bytes};
ghost use Rattle.import_words.specs.Plans.{plan_of};
ghost use Rattle.import_words.specs.declared.plan.Plan.TheVariants as plans;
ghost use Rattle.program_run.specs.Sinks.{at, moment, Passes};
ghost use Rattle.program_rounds.specs.Answers.{Answers};
ghost use Rattle.pyimport.specs.Bundled.{expanded};

use crate::bundled_fork::{fork_bundled, take_in};
use bundle_hook::BundleTree;
use drive_round::Gate;
use import_words::{Plan, RunPlan};
use program_rounds::call;
use program_run::{Report, Scripts, WANT_OF_MEMORY, without_run};
use std::alloc::Global;
use std::sync::Wait;
use std::thread::Threads;
use tree_files::{Grove, Sink};

/// Does what words of the command line ask for whose plan runs scripts, at once or round after round,
/// over a tree in which each bundle stands as the folder that it lists. The tree is forked once, the
/// rounds file and the scripts are opened in the fork, and what it counted is added to the tree. Edits
/// of rounds stand above the bundles, so a bundle that an edit puts into the tree is a plain file.
///
/// Each text of a script is what `S` makes of it.
pub fn call_bundled<
    S: Scripts + Send,
    R: Threads + Wait + Sync,
    T: Grove,
    K: Sink + Send,
    G: Gate + Sync,
>(
    rt: &R,
    alloc: Global,
    words: &[String],
    run: RunPlan,
    tree: &mut T,
    out: &mut K,
    err: &mut K,
    gate: &G,
) -> Report
    requires plan { Some (plans.Run run) ≡ plan_of (map string_bytes words.now) }
    ensures answers { Answers S.means (map string_bytes words.now)
        (expanded (moment T.Tree K.Sink K.Sink tree.old out.old err.old))
        (expanded (moment T.Tree K.Sink K.Sink tree.new out.new err.new))
        result }
    ensures passes { Passes
        (moment T.Tree K.Sink K.Sink tree.old out.old err.old) (moment T.Tree K.Sink K.Sink tree.new out.new err.new) }
    ensures lists { result.history ≡ None → T.lists tree.new ≤ T.lists tree.old }
{
    let Ok(mut bundles) = fork_bundled(alloc, tree) else {
        return without_run(WANT_OF_MEMORY, Some(Plan::Run(run)));
    };
    let plan = Some(Plan::Run(run));
    let report = call::<S, R, BundleTree<T>, K, G>(
        rt,
        alloc,
        words,
        plan,
        &mut bundles,
        out,
        err,
        gate,
    );
    take_in(tree, bundles);
    report
}
