//! A call of the program.
ghost use Rattle.std.specs.Prelude.{◌≡◌, ◌≤◌, ◌∷◌, ◌++◌, [], ℕ, List, None, Some, IfOk, IfSome, map, codes};
ghost use Rattle.std.specs.String.{string_bytes};
ghost use Rattle.import_words.specs.Plans.{plan_of};
ghost use Rattle.import_words.specs.declared.plan.Plan.TheVariants as plans;
ghost use Rattle.import_words.specs.Words.{Word};
ghost use Rattle.import_words.specs.Usage.{usage_of};
ghost use Rattle.program_run.specs.Answers.{Answers, is_built, run_if, built};
ghost use Rattle.program_run.specs.Scripts.{AreFew, EachOpens};
ghost use Rattle.program_run.specs.Sinks.{at, moment, IsSince, Leaves, Moment, Passes, status_by};
ghost use Rattle.program_run.specs.Statuses.{refusal, tree_fault, sink_fault};

use crate::finish::{say_line, status_by};
use crate::line::joined;
use crate::open::{Unopened, open_all};
use crate::report::{Report, with_plan, without_run};
use crate::run::run_scripts;
use crate::scripts::Scripts;
use crate::status::{REFUSAL, SINK_FAULT, TREE_FAULT, WANT_OF_MEMORY};
use base_types::{NoMemory, Seq};
use drive_round::Gate;
use import_words::{Plan, RunPlan, WordsError, read_words, usage_line};
use machine_desk::Flow;
use std::alloc::Global;
use std::sync::Wait;
use std::thread::Threads;
use tree_files::{Grove, Sink};

/// Whether the plan is done here: scripts of one round.
fn is_built(run: &RunPlan) -> bool
    ensures { result ≡ is_built run.now }
{
    !run.rounds.is_some()
}

/// Writes the line about a refusal. Standard output gets nothing.
pub fn tell<K: Sink>(
    err: &mut K,
    line: Result<Vec<u8>, NoMemory>,
    plan: Option<Plan>,
    good: u8,
    bad: u8,
) -> Report
    ensures leaves { (text : List ℕ) (old new : Moment) → IfOk line (λ it. it.items ≡ text) → new.out ≡ old.out
        → old.err ≡ at K.Sink err.old → new.err ≡ at K.Sink err.new
        → Leaves (status_by good bad) [] text old new result.status }
    ensures plan { result.plan ≡ plan }
    ensures history { result.history ≡ None }
    ensures faults_grow { K.faults err.old ≤ K.faults err.new }
{
    let said = say_line(err, line);
    without_run(status_by(good, bad, Flow::Open, said), plan)
}

/// Runs the scripts that were opened.
fn play<S: Scripts + Send, R: Threads + Wait + Sync, T: Grove, K: Sink + Send, G: Gate + Sync>(
    rt: &R,
    alloc: Global,
    run: RunPlan,
    texts: Seq<Seq<u8>>,
    tree: &mut T,
    out: &mut K,
    err: &mut K,
    gate: &G,
) -> Report
    requires few { AreFew run.scripts }
    requires texts { EachOpens (T.files tree.old) run.scripts texts }
    ensures answers { (words : List Word) (first : Moment) → built (plan_of words) ≡ Some run
        → IsSince first (moment T.Tree K.Sink K.Sink tree.old out.old err.old)
        → Answers S.means words first (moment T.Tree K.Sink K.Sink tree.new out.new err.new) result }
    ensures passes { Passes
        (moment T.Tree K.Sink K.Sink tree.old out.old err.old) (moment T.Tree K.Sink K.Sink tree.new out.new err.new) }
    ensures lists { result.history ≡ None → T.lists tree.new ≡ T.lists tree.old }
{
    let ran = run_scripts::<S, R, T, K, K, G>(rt, alloc, &run, texts, tree, out, err, gate);
    with_plan(ran, Some(Plan::Run(run)))
}

/// A call of the tree failed before all scripts were read.
pub fn unread<K: Sink>(alloc: Global, run: RunPlan, err: &mut K) -> Report
    ensures leaves { (old new : Moment) → new.out ≡ old.out → old.err ≡ at K.Sink err.old → new.err ≡ at K.Sink err.new
        → Leaves (status_by tree_fault sink_fault) [] (codes "pyimport: file fault" ++ 10 ∷ []) old new result.status }
    ensures plan { result.plan ≡ Some (plans.Run run) }
    ensures history { result.history ≡ None }
    ensures faults_grow { K.faults err.old ≤ K.faults err.new }
{
    let line = joined(alloc, "pyimport: file fault", "", "");
    tell(err, line, Some(Plan::Run(run)), TREE_FAULT, SINK_FAULT)
}

/// Opens the scripts of a plan, and runs them.
fn run_plan<S: Scripts + Send, R: Threads + Wait + Sync, T: Grove, K: Sink + Send, G: Gate + Sync>(
    rt: &R,
    alloc: Global,
    run: RunPlan,
    tree: &mut T,
    out: &mut K,
    err: &mut K,
    gate: &G,
) -> Report
    requires few { AreFew run.scripts }
    ensures answers { (words : List Word) → built (plan_of words) ≡ Some run
        → Answers S.means words
        (moment T.Tree K.Sink K.Sink tree.old out.old err.old) (moment T.Tree K.Sink K.Sink tree.new out.new err.new)
        result }
    ensures passes { Passes
        (moment T.Tree K.Sink K.Sink tree.old out.old err.old) (moment T.Tree K.Sink K.Sink tree.new out.new err.new) }
    ensures lists { result.history ≡ None → T.lists tree.new ≡ T.lists tree.old }
{
    match open_all(alloc, tree, run.scripts.as_slice()) {
        Ok(texts) => play::<S, R, T, K, G>(rt, alloc, run, texts, tree, out, err, gate),
        Err(Unopened::Refused(line)) => {
            tell(err, Ok(line), Some(Plan::Run(run)), REFUSAL, REFUSAL)
        }
        Err(Unopened::Unread) => unread(alloc, run, err),
        Err(Unopened::NoMemory) => without_run(WANT_OF_MEMORY, Some(Plan::Run(run))),
    }
}

/// Refuses the words with the usage line.
fn refused<K: Sink>(alloc: Global, words: &[String], err: &mut K) -> Report
    ensures leaves { (old new : Moment) → new.out ≡ old.out → old.err ≡ at K.Sink err.old → new.err ≡ at K.Sink err.new
        → Leaves (status_by refusal refusal) [] (usage_of (map string_bytes words.now) ++ 10 ∷ [])
        old new result.status }
    ensures plan { result.plan ≡ None }
    ensures history { result.history ≡ None }
    ensures faults_grow { K.faults err.old ≤ K.faults err.new }
{
    tell(
        err,
        joined(alloc, usage_line(words), "", ""),
        None,
        REFUSAL,
        REFUSAL,
    )
}

fn built_run(run: RunPlan) -> Option<RunPlan>
    ensures { result ≡ run_if (is_built run) run }
{
    if is_built(&run) {
        return Some(run);
    }
    drop(run);
    None
}

/// The plan, where it is done here.
fn built(plan: Option<Plan>) -> Option<RunPlan>
    ensures { result ≡ built plan }
{
    match plan {
        Some(Plan::Run(run)) => built_run(run),
        other => {
            drop(other);
            None
        }
    }
}

/// What the words ask for; None where they are refused.
pub fn plan_for(alloc: Global, words: &[String]) -> Result<Option<Plan>, NoMemory>
    ensures { IfOk result (λ o. o ≡ plan_of (map string_bytes words.now)) }
{
    match read_words(alloc, words) {
        Ok(plan) => Ok(Some(plan)),
        Err(WordsError::Usage) => Ok(None),
        Err(WordsError::NoMemory) => Err(NoMemory),
    }
}

/// Does what words of the command line ask for whose plan was read, over a tree, and writes what is to
/// be written to the two sinks. Each text of a script is what `S` makes of it.
///
/// What is done here is `run` for 1 to 16 scripts, with a search path, a budget and a trace as the
/// words tell, over the files of the tree; where the words say `--bundles`, the caller's tree is one in
/// which they stand as folders. All other words are refused with the usage line.
pub fn call<S: Scripts + Send, R: Threads + Wait + Sync, T: Grove, K: Sink + Send, G: Gate + Sync>(
    rt: &R,
    alloc: Global,
    words: &[String],
    plan: Option<Plan>,
    tree: &mut T,
    out: &mut K,
    err: &mut K,
    gate: &G,
) -> Report
    requires plan { plan ≡ plan_of (map string_bytes words.now) }
    ensures answers { Answers S.means (map string_bytes words.now)
        (moment T.Tree K.Sink K.Sink tree.old out.old err.old) (moment T.Tree K.Sink K.Sink tree.new out.new err.new)
        result }
    ensures passes { Passes
        (moment T.Tree K.Sink K.Sink tree.old out.old err.old) (moment T.Tree K.Sink K.Sink tree.new out.new err.new) }
    ensures lists { result.history ≡ None → T.lists tree.new ≡ T.lists tree.old }
{
    match built(plan) {
        Some(run) => run_plan::<S, R, T, K, G>(rt, alloc, run, tree, out, err, gate),
        None => refused(alloc, words, err),
    }
}
