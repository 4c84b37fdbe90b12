//! A run of rounds, whatever their sizes.
ghost use Rattle.std.specs.Prelude.{◌≡◌, ◌≤◌, [], length, true, map, IfSome, IfNone};
ghost use Rattle.std.specs.List.{list_all};
ghost use Rattle.machine_spec.specs.Legal.{IsLegal};
ghost use Rattle.machine_book.specs.Bound.{opened, CanOpen};
ghost use Rattle.machine_desk.specs.Outgo.{Kept};
ghost use Rattle.drive_round.specs.Ran.{counted};
ghost use Rattle.program_run.specs.Sinks.{at, moment, Passes};
ghost use Rattle.program_rounds.specs.Course.{HasLeft};
ghost use Rattle.program_rounds.specs.Rounds.{AreBelowRoot, AreSingle, CanRun, is_single, scripts_of, sizes_of};
ghost use Rattle.program_rounds.specs.Runs.{Gives};

use crate::begin::{Ground, ground_for, scripts_of};
use crate::course::{Course, run_course};
use crate::solo::run_rounds_alone;
use base_types::{Exact, Seq};
use drive_round::Gate;
use import_words::{Round, RunPlan};
use machine_book::Book;
use machine_desk::Outlet;
use machine_events::Entry;
use program_run::{Came, Left, Out, Scripts, finish_some, of_run, unbegun};
use std::alloc::Global;
use std::sync::Wait;
use std::thread::Threads;
use tree_files::{Grove, Sink};

/// What rounds leave: their history, their outlet, and how the scripts ended, unless memory was wanted.
#[derive(Drop)]
struct Over<O: Outlet> {
    history: Seq<Entry>,
    outlet: O,
    results: Option<Vec<Came>>,
}

/// Runs rounds on a book of their own.
fn run_on_ground<
    S: Scripts + Send,
    R: Threads + Wait + Sync,
    T: Grove,
    O: Outlet + Send,
    G: Gate + Sync,
>(
    rt: &R,
    alloc: Global,
    rounds: &[Round],
    texts: &[Seq<u8>],
    begun: Ground,
    tree: &mut T,
    fuel: u64,
    outlet: O,
    gate: &G,
) -> Over<O>
    requires machine { begun.machine ≡ opened begun.opening }
    requires can_open { CanOpen begun.opening }
    requires rounds { begun.opening.rounds ≡ sizes_of rounds.now }
    requires can_run { CanRun rounds.now }
    requires below { AreBelowRoot rounds.now }
    requires texts { length texts.now ≡ length (scripts_of rounds.now) }
    ensures files { T.files tree.new ≡ T.files tree.old }
    ensures faults_grow { T.faults tree.old ≤ T.faults tree.new }
    ensures legal { IsLegal (opened begun.opening) result.history }
    ensures kept { Kept O.piece (O.out outlet) (O.out result.outlet) result.history }
    ensures left { HasLeft S.means (T.files tree.old) fuel rounds.now texts.now (counted T.faults T.lists tree.old)
        (counted T.faults T.lists tree.new) result.history result.results (λ r. r.items) }
{
    let Ground { opening, machine } = begun;
    let book = Book::new(opening, machine, outlet);
    let Course {
        book,
        edits: _,
        results,
    } = run_course::<S, R, T, O, G>(rt, alloc, book, rounds, texts, tree, fuel, gate);
    let (history, outlet) = book.end();
    Over {
        history,
        outlet,
        results,
    }
}

/// Runs rounds of which some has several scripts, each script in a thread of its own.
fn run_together<
    S: Scripts + Send,
    R: Threads + Wait + Sync,
    T: Grove,
    O: Sink + Send,
    K: Sink,
    G: Gate + Sync,
>(
    rt: &R,
    alloc: Global,
    plan: &RunPlan,
    rounds: &[Round],
    texts: Seq<Seq<u8>>,
    tree: &mut T,
    out: &mut O,
    err: &mut K,
    gate: &G,
) -> Left
    requires can_run { CanRun rounds.now }
    requires several { AreSingle rounds.now → ⊥ }
    requires below { AreBelowRoot rounds.now }
    requires texts { length texts ≡ length (scripts_of rounds.now) }
    ensures run { Gives S.means plan.now rounds.now texts
        (moment T.Tree O.Sink K.Sink tree.old out.old err.old) (moment T.Tree O.Sink K.Sink tree.new out.new err.new)
        result }
    ensures passes { Passes
        (moment T.Tree O.Sink K.Sink tree.old out.old err.old) (moment T.Tree O.Sink K.Sink tree.new out.new err.new) }
{
    let Ok(scripts) = scripts_of(alloc, rounds) else {
        return unbegun();
    };
    let Ok(copies) = texts.copy() else {
        return unbegun();
    };
    let Ok(begun) = ground_for(alloc, plan, rounds, copies) else {
        return unbegun();
    };
    let outlet = Out::open(alloc, out, plan.trace);
    let Over {
        history,
        outlet,
        results,
    } = run_on_ground::<S, R, T, Out<O>, G>(
        rt,
        alloc,
        rounds,
        texts.as_slice(),
        begun,
        tree,
        plan.fuel,
        outlet,
        gate,
    );
    let flow = outlet.close(out);
    let status = finish_some(alloc, err, scripts.as_slice(), flow, &results);
    of_run(status, history)
}

fn is_single(round: &Round) -> bool
    ensures { result ≡ is_single round.now }
{
    round.scripts.len() == 1
}

/// Whether each round has one script.
fn are_single(rounds: &[Round]) -> bool
    ensures { result ≡ list_all is_single rounds.now }
{
    rounds.iter().all(|round| is_single(round))
}

/// Runs rounds over a tree, which is edited before each round. A round begins when all scripts of the
/// rounds before it have ended, and its scripts run each in a thread of its own, over a fork of the
/// tree with all edits so far, and pass the gate before each event; where each round has one script,
/// they run without threads and gate, as in `run_rounds_alone`. The tree takes in what the forks
/// counted. What scripts print goes to `out` as it is printed, and a line for each end that is not
/// normal to `err`, in the order of the scripts.
pub fn run_rounds<
    S: Scripts + Send,
    R: Threads + Wait + Sync,
    T: Grove,
    O: Sink + Send,
    K: Sink,
    G: Gate + Sync,
>(
    rt: &R,
    alloc: Global,
    plan: &RunPlan,
    rounds: &[Round],
    texts: Seq<Seq<u8>>,
    tree: &mut T,
    out: &mut O,
    err: &mut K,
    gate: &G,
) -> Left
    requires can_run { CanRun rounds.now }
    requires below { AreBelowRoot rounds.now }
    requires texts { length texts ≡ length (scripts_of rounds.now) }
    ensures run { Gives S.means plan.now rounds.now texts
        (moment T.Tree O.Sink K.Sink tree.old out.old err.old) (moment T.Tree O.Sink K.Sink tree.new out.new err.new)
        result }
    ensures passes { Passes
        (moment T.Tree O.Sink K.Sink tree.old out.old err.old) (moment T.Tree O.Sink K.Sink tree.new out.new err.new) }
{
    if are_single(rounds) {
        return run_rounds_alone::<S, T, O, K>(alloc, plan, rounds, texts, tree, out, err);
    }
    run_together::<S, R, T, O, K, G>(rt, alloc, plan, rounds, texts, tree, out, err, gate)
}
