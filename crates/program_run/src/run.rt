//! A run of one program or of several, and of the programs that texts are.
ghost use Rattle.std.specs.Prelude.{◌≡◌, ◌≤◌, length};
ghost use Rattle.program_run.specs.Alone.{AreSafe, Means};
ghost use Rattle.program_run.specs.Runs.{Gives};
ghost use Rattle.program_run.specs.Scripts.{AreFew};
ghost use Rattle.program_run.specs.Sinks.{at, moment, Passes};
ghost use Rattle.program_run.specs.Together.{MeanFrom};

use crate::alone::run_one;
use crate::begin::programs_of;
use crate::report::{Left, unbegun};
use crate::scripts::Scripts;
use crate::together::run_several;
use base_types::Seq;
use drive_round::{Gate, Program};
use import_words::RunPlan;
use std::alloc::Global;
use std::sync::Wait;
use std::thread::Threads;
use tree_files::{Grove, Sink, Tree};

/// Runs the programs of a plan: one by itself, and several in threads of their own. The machine keeps
/// these texts.
pub fn run_programs<
    P: Program + Send,
    R: Threads + Wait + Sync,
    T: Grove,
    O: Sink + Send,
    K: Sink,
    G: Gate + Sync,
>(
    rt: &R,
    alloc: Global,
    plan: &RunPlan,
    texts: Seq<Seq<u8>>,
    programs: Vec<P>,
    tree: &mut T,
    out: &mut O,
    err: &mut K,
    gate: &G,
) -> Left
    requires few { AreFew plan.now.scripts }
    requires texts { length texts ≡ length plan.now.scripts }
    requires programs { length programs.items ≡ length plan.now.scripts }
    ensures run { (means : Means) → AreSafe means → MeanFrom P.run means 0 texts programs.items
        → Gives means plan.now texts
        (moment T.Tree O.Sink K.Sink tree.old out.old err.old) (moment T.Tree O.Sink K.Sink tree.new out.new err.new)
        result }
    ensures passes { Passes
        (moment T.Tree O.Sink K.Sink tree.old out.old err.old) (moment T.Tree O.Sink K.Sink tree.new out.new err.new) }
{
    if plan.scripts.len() == 1 {
        return run_one(alloc, plan, texts, programs, tree, out, err);
    }
    run_several(rt, alloc, plan, texts, programs, tree, out, err, gate)
}

/// Runs one script over a tree. What it prints goes to `out` as it is printed, and a line where its
/// end is not normal to `err`. It always returns.
pub fn run_alone<S: Scripts, T: Tree, O: Sink, K: Sink>(
    alloc: Global,
    plan: &RunPlan,
    texts: Seq<Seq<u8>>,
    tree: &mut T,
    out: &mut O,
    err: &mut K,
) -> Left
    requires script { length plan.now.scripts ≡ 1 }
    requires text { length texts ≡ 1 }
    ensures run { Gives S.means plan.now texts
        (moment T.Tree O.Sink K.Sink tree.old out.old err.old) (moment T.Tree O.Sink K.Sink tree.new out.new err.new)
        result }
    ensures passes { Passes
        (moment T.Tree O.Sink K.Sink tree.old out.old err.old) (moment T.Tree O.Sink K.Sink tree.new out.new err.new) }
{
    let Ok(programs) = programs_of::<S>(alloc, texts.as_slice()) else {
        return unbegun();
    };
    run_one(alloc, plan, texts, programs, tree, out, err)
}

/// Runs the scripts of a plan: one by itself, and several in threads of their own.
pub fn run_scripts<
    S: Scripts + Send,
    R: Threads + Wait + Sync,
    T: Grove,
    O: Sink + Send,
    K: Sink,
    G: Gate + Sync,
>(
    rt: &R,
    alloc: Global,
    plan: &RunPlan,
    texts: Seq<Seq<u8>>,
    tree: &mut T,
    out: &mut O,
    err: &mut K,
    gate: &G,
) -> Left
    requires few { AreFew plan.now.scripts }
    requires texts { length texts ≡ length plan.now.scripts }
    ensures run { Gives S.means plan.now texts
        (moment T.Tree O.Sink K.Sink tree.old out.old err.old) (moment T.Tree O.Sink K.Sink tree.new out.new err.new)
        result }
    ensures passes { Passes
        (moment T.Tree O.Sink K.Sink tree.old out.old err.old) (moment T.Tree O.Sink K.Sink tree.new out.new err.new) }
{
    let Ok(programs) = programs_of::<S>(alloc, texts.as_slice()) else {
        return unbegun();
    };
    run_programs(rt, alloc, plan, texts, programs, tree, out, err, gate)
}
