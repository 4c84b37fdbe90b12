//! A call of the program that may name a rounds file.
ghost use Rattle.std.specs.Prelude.{◌≡◌, ◌≤◌, ◌∷◌, ◌++◌, [], List, None, Some, true, IfOk, IfErr, map};
ghost use Rattle.std.specs.String.{string_bytes};
ghost use Rattle.import_words.specs.Plans.{plan_of};
ghost use Rattle.import_words.specs.declared.plan.Plan.TheVariants as plans;
ghost use Rattle.import_words.specs.Words.{Word};
ghost use Rattle.program_run.specs.Sinks.{at, moment, Leaves, Moment, Passes, status_by};
ghost use Rattle.program_run.specs.Statuses.{refusal};
ghost use Rattle.program_rounds.specs.Answers.{Answers, IsLater, Tells, in_rounds, rounds_plan};
ghost use Rattle.program_rounds.specs.Opened.{HasRounds, EachRoundOpens};
ghost use Rattle.program_rounds.specs.Rounds.{AreBelowRoot, CanRun};

use crate::open::{open_rounds, rounds_of};
use crate::together::run_rounds;
use base_types::Seq;
use drive_round::Gate;
use import_words::{Plan, Round, RunPlan};
use program_run::{
    REFUSAL, Report, Scripts, Unopened, WANT_OF_MEMORY, call as call_plain, tell, unread,
    with_plan, without_run,
};
use std::alloc::Global;
use std::sync::Wait;
use std::thread::Threads;
use tree_files::{Grove, Sink};

/// Whether the plan names a rounds file, and is done here.
fn in_rounds(run: &RunPlan) -> bool
    ensures { result ≡ in_rounds run.now }
{
    run.rounds.is_some()
}

/// The run of rounds that a plan is, or else the plan.
fn rounds_plan(plan: Option<Plan>) -> Result<RunPlan, Option<Plan>>
    ensures ok { IfOk result (λ run. rounds_plan plan ≡ Some run) }
    ensures err { IfErr result (λ other. (other ≡ plan) × (rounds_plan plan ≡ None)) }
{
    match plan {
        Some(Plan::Run(run)) => {
            if in_rounds(&run) {
                return Ok(run);
            }
            Err(Some(Plan::Run(run)))
        }
        other => Err(other),
    }
}

/// Says why there are no rounds, or no texts.
fn tell_why<K: Sink>(alloc: Global, run: RunPlan, why: Unopened, err: &mut K) -> Report
    ensures leaves { (old new : Moment) → new.out ≡ old.out → old.err ≡ at K.Sink err.old → new.err ≡ at K.Sink err.new
        → Tells why old new result.status }
    ensures plan { result.plan ≡ Some (plans.Run run) }
    ensures history { result.history ≡ None }
    ensures faults_grow { K.faults err.old ≤ K.faults err.new }
{
    match why {
        Unopened::Refused(line) => tell(err, Ok(line), Some(Plan::Run(run)), REFUSAL, REFUSAL),
        Unopened::Unread => unread(alloc, run, err),
        Unopened::NoMemory => without_run(WANT_OF_MEMORY, Some(Plan::Run(run))),
    }
}

/// Runs the scripts of rounds that were opened.
fn play<S: Scripts + Send, R: Threads + Wait + Sync, T: Grove, K: Sink + Send, G: Gate + Sync>(
    rt: &R,
    alloc: Global,
    run: RunPlan,
    rounds: &[Round],
    texts: Seq<Seq<u8>>,
    tree: &mut T,
    out: &mut K,
    err: &mut K,
    gate: &G,
) -> Report
    requires can_run { CanRun rounds.now }
    requires below { AreBelowRoot rounds.now }
    requires texts { EachRoundOpens (T.files tree.old) rounds.now texts }
    ensures answers { (words : List Word) (file : Word) (first : Moment) → rounds_plan (plan_of words) ≡ Some run
        → run.rounds ≡ Some file → HasRounds first.files file rounds.now
        → IsLater first (moment T.Tree K.Sink K.Sink tree.old out.old err.old)
        → Answers S.means words first (moment T.Tree K.Sink K.Sink tree.new out.new err.new) result }
    ensures passes { Passes
        (moment T.Tree K.Sink K.Sink tree.old out.old err.old) (moment T.Tree K.Sink K.Sink tree.new out.new err.new) }
    ensures lists { result.history ≡ None → T.lists tree.new ≡ T.lists tree.old }
{
    let ran = run_rounds::<S, R, T, K, K, G>(rt, alloc, &run, rounds, texts, tree, out, err, gate);
    with_plan(ran, Some(Plan::Run(run)))
}

/// Opens the scripts of rounds, and runs them.
fn run_list<S: Scripts + Send, R: Threads + Wait + Sync, T: Grove, K: Sink + Send, G: Gate + Sync>(
    rt: &R,
    alloc: Global,
    run: RunPlan,
    rounds: &[Round],
    tree: &mut T,
    out: &mut K,
    err: &mut K,
    gate: &G,
) -> Report
    requires can_run { CanRun rounds.now }
    requires below { AreBelowRoot rounds.now }
    ensures answers { (words : List Word) (file : Word) (first : Moment) → rounds_plan (plan_of words) ≡ Some run
        → run.rounds ≡ Some file → HasRounds first.files file rounds.now
        → IsLater first (moment T.Tree K.Sink K.Sink tree.old out.old err.old)
        → Answers S.means words first (moment T.Tree K.Sink K.Sink tree.new out.new err.new) result }
    ensures passes { Passes
        (moment T.Tree K.Sink K.Sink tree.old out.old err.old) (moment T.Tree K.Sink K.Sink tree.new out.new err.new) }
    ensures lists { result.history ≡ None → T.lists tree.new ≤ T.lists tree.old }
{
    match open_rounds(alloc, tree, rounds) {
        Ok(texts) => { play::<S, R, T, K, G>(rt, alloc, run, rounds, texts, tree, out, err, gate) }
        Err(why) => tell_why(alloc, run, why, err),
    }
}

/// Reads a rounds file, and runs its rounds.
fn run_file<S: Scripts + Send, R: Threads + Wait + Sync, T: Grove, K: Sink + Send, G: Gate + Sync>(
    rt: &R,
    alloc: Global,
    run: RunPlan,
    tree: &mut T,
    out: &mut K,
    err: &mut K,
    gate: &G,
) -> Report
    requires rounds { in_rounds run ≡ true }
    ensures answers { (words : List Word) → rounds_plan (plan_of words) ≡ Some run
        → Answers S.means words
        (moment T.Tree K.Sink K.Sink tree.old out.old err.old) (moment T.Tree K.Sink K.Sink tree.new out.new err.new)
        result }
    ensures passes { Passes
        (moment T.Tree K.Sink K.Sink tree.old out.old err.old) (moment T.Tree K.Sink K.Sink tree.new out.new err.new) }
    ensures lists { result.history ≡ None → T.lists tree.new ≤ T.lists tree.old }
{
    let Some(file) = &run.rounds else {
        unreachable!()
    };
    let rounds = match rounds_of(alloc, tree, file) {
        Ok(rounds) => rounds.list,
        Err(why) => return tell_why(alloc, run, why, err),
    };
    run_list::<S, R, T, K, G>(rt, alloc, run, rounds.as_slice(), tree, out, err, gate)
}

/// Does what words of the command line ask for whose plan was read, over a tree, and writes what is to
/// be written to the two sinks. A plan without a rounds file is done as ever.
pub fn call<S: Scripts + Send, R: Threads + Wait + Sync, T: Grove, K: Sink + Send, G: Gate + Sync>(
    rt: &R,
    alloc: Global,
    words: &[String],
    plan: Option<Plan>,
    tree: &mut T,
    out: &mut K,
    err: &mut K,
    gate: &G,
) -> Report
    requires plan { plan ≡ plan_of (map string_bytes words.now) }
    ensures answers { Answers S.means (map string_bytes words.now)
        (moment T.Tree K.Sink K.Sink tree.old out.old err.old) (moment T.Tree K.Sink K.Sink tree.new out.new err.new)
        result }
    ensures passes { Passes
        (moment T.Tree K.Sink K.Sink tree.old out.old err.old) (moment T.Tree K.Sink K.Sink tree.new out.new err.new) }
    ensures lists { result.history ≡ None → T.lists tree.new ≤ T.lists tree.old }
    ensures lists_stay { rounds_plan plan ≡ None → result.history ≡ None → T.lists tree.new ≡ T.lists tree.old }
{
    match rounds_plan(plan) {
        Ok(run) => run_file::<S, R, T, K, G>(rt, alloc, run, tree, out, err, gate),
        Err(plan) => call_plain::<S, R, T, K, G>(rt, alloc, words, plan, tree, out, err, gate),
    }
}
