//! The call.
ghost use Rattle.std.specs.Prelude.{◌≡◌, ◌≤◌, None, Some, IfSome, IfNone};
ghost use Rattle.import_words.specs.declared.plan.Plan.TheVariants as plans;
ghost use Rattle.program_run.specs.Answers.{left_of};
ghost use Rattle.program_run.specs.Runs.{finished};
ghost use Rattle.program_run.specs.Sinks.{at};
ghost use Rattle.program_run.specs.Statuses.{tree_fault};
ghost use Rattle.program_gen.specs.MadeRuns.{QuietGives, MadeGives, sinks, Summed, workload_of};

use crate::MadeTree;
use crate::no_out::NoOut;
use crate::ready::{Ready, make_ready};
use crate::summing::sum_up;
use drive_round::Gate;
use import_words::Plan;
use program_run::{Left, Report, Scripts, run_scripts, unbegun, with_plan};
use std::alloc::Global;
use std::sync::Wait;
use std::thread::Threads;
use tree_files::Sink;

/// Runs the scripts of a made workload, what they print going nowhere.
fn run_quiet<S: Scripts + Send, R: Threads + Wait + Sync, K: Sink, G: Gate + Sync>(
    rt: &R,
    alloc: Global,
    seed: u64,
    modules: u32,
    scripts: u32,
    err: &mut K,
    gate: &G,
) -> Left
    requires modules { 1 ≤ modules }
    requires scripts { (1 ≤ scripts) × (scripts ≤ 16) }
    ensures run { QuietGives S.means (workload_of seed modules scripts) (at K.Sink err.old) (at K.Sink err.new) result }
    ensures err_faults { K.faults err.old ≤ K.faults err.new }
{
    let Ok(it) = make_ready(alloc, seed, modules, scripts) else {
        return unbegun();
    };
    let Ready {
        mut tree,
        plan,
        texts,
    } = it;
    let mut out = NoOut;
    run_scripts::<S, R, MadeTree, NoOut, K, G>(
        rt, alloc, &plan, texts, &mut tree, &mut out, err, gate,
    )
}

/// Writes the line about a run that has a history.
fn with_line<K: Sink>(alloc: Global, out: &mut K, modules: u32, scripts: u32, ran: Left) -> Left
    ensures history { result.history ≡ ran.history }
    ensures told { IfSome ran.history (λ history. Summed modules scripts
        (at K.Sink out.old) (at K.Sink out.new) (finished history ran.status) result.status) }
    ensures unbegun { IfNone ran.history ((result.status ≡ ran.status) × (at K.Sink out.new ≡ at K.Sink out.old)) }
    ensures faults_grow { K.faults out.old ≤ K.faults out.new }
{
    let Left { status, history } = ran;
    match history {
        Some(history) => Left {
            status: sum_up(alloc, out, modules, scripts, history.as_slice(), status),
            history: Some(history),
        },
        None => Left {
            status,
            history: None,
        },
    }
}

/// Makes the workload of a seed, with so many modules and scripts, and runs its scripts, what they
/// print going nowhere. The one line about the run goes to `out`, and a line for each end that is not
/// normal to `err`, in the order of the scripts.
pub fn call_made<S: Scripts + Send, R: Threads + Wait + Sync, K: Sink, G: Gate + Sync>(
    rt: &R,
    alloc: Global,
    seed: u64,
    modules: u32,
    scripts: u32,
    out: &mut K,
    err: &mut K,
    gate: &G,
) -> Report
    requires modules { 1 ≤ modules }
    requires scripts { (1 ≤ scripts) × (scripts ≤ 16) }
    ensures run { MadeGives S.means (workload_of seed modules scripts)
        (sinks (at K.Sink out.old) (at K.Sink err.old)) (sinks (at K.Sink out.new) (at K.Sink err.new))
        (left_of result) }
    ensures plan { result.plan ≡ Some (plans.Gen seed modules scripts) }
    ensures no_file_fault { result.status ≡ tree_fault → ⊥ }
    ensures out_faults { K.faults out.old ≤ K.faults out.new }
    ensures err_faults { K.faults err.old ≤ K.faults err.new }
{
    let ran = run_quiet::<S, R, K, G>(rt, alloc, seed, modules, scripts, err, gate);
    let told = with_line(alloc, out, modules, scripts, ran);
    let plan = Plan::Gen {
        seed,
        modules,
        scripts,
    };
    with_plan(told, Some(plan))
}
