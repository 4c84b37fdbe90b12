//! A run of rounds of one script each.
ghost use Rattle.std.specs.Prelude.{◌≡◌, ◌≤◌, length, map};
ghost use Rattle.std.specs.List.{AllByRecursion};
ghost use Rattle.machine_spec.specs.Legal.{IsLegal};
ghost use Rattle.machine_book.specs.Bound.{opened, CanOpen};
ghost use Rattle.machine_desk.specs.Outgo.{Kept};
ghost use Rattle.program_run.specs.Sinks.{at, moment, Passes};
ghost use Rattle.drive_round.specs.Played.{AllPlayed, AreShort};
ghost use Rattle.program_rounds.specs.Rounds.{AreBelowRoot, AreFew, AreSingle, sizes_of};
ghost use Rattle.program_rounds.specs.Runs.{Gives};

use crate::begin::{Begun, begin, edits_of, scripts_of};
use base_types::Seq;
use drive_round::play_rounds;
use import_words::{Round, RunPlan};
use machine_book::Book;
use machine_desk::Outlet;
use machine_events::Entry;
use program_run::{Came, Left, Out, Scripts, finish_run, of_run, unbegun};
use std::alloc::Global;
use tree_files::{Grove, Sink, Tree};
use tree_overlay::{absorb_forks, edited_forks};

/// What rounds leave: their history, their outlet, and how each script ended.
#[derive(Drop)]
struct Over<O: Outlet> {
    history: Seq<Entry>,
    outlet: O,
    results: Vec<Came>,
}

/// Plays rounds on a book of their own, each over a tree of its own.
fn play_on_book<S: Scripts, T: Tree, O: Outlet>(
    alloc: Global,
    trees: &mut [T],
    it: Begun<S>,
    fuel: u64,
    outlet: O,
) -> Over<O>
    requires machine { it.machine ≡ opened it.opening }
    requires can_open { CanOpen it.opening }
    requires single { AllByRecursion (λ size. size ≡ 1) it.opening.rounds }
    requires many { length it.opening.rounds ≡ length trees.old }
    requires programs { length it.programs.items ≡ length trees.old }
    requires results { AreShort it.results.items × (length it.results.items ≡ length trees.old) }
    ensures legal { IsLegal (opened it.opening) result.history }
    ensures kept { Kept O.piece (O.out outlet) (O.out result.outlet) result.history }
    ensures played { AllPlayed T.files T.faults T.lists fuel result.history 0 (map S.run it.programs.items)
        trees.old trees.new result.results.items }
{
    let Begun {
        opening,
        machine,
        programs,
        mut results,
    } = it;
    let mut book = Book::new(opening, machine, outlet);
    play_rounds(
        alloc,
        &mut book,
        programs.as_slice(),
        trees,
        fuel,
        results.as_mut_slice(),
    );
    let (history, outlet) = book.end();
    Over {
        history,
        outlet,
        results,
    }
}

/// Runs rounds of one script each over a tree, which is edited before each round: every script runs
/// over a fork of it with all edits so far, and the tree takes in what the forks counted. What they
/// print goes to `out` as it is printed, and a line for each end that is not normal to `err`. It
/// always returns.
pub fn run_rounds_alone<S: Scripts, T: Grove, O: Sink, K: Sink>(
    alloc: Global,
    plan: &RunPlan,
    rounds: &[Round],
    texts: Seq<Seq<u8>>,
    tree: &mut T,
    out: &mut O,
    err: &mut K,
) -> Left
    requires few { AreFew rounds.now }
    requires single { AreSingle rounds.now }
    requires below { AreBelowRoot rounds.now }
    requires texts { length texts ≡ length rounds.now }
    ensures run { Gives S.means plan.now rounds.now texts
        (moment T.Tree O.Sink K.Sink tree.old out.old err.old) (moment T.Tree O.Sink K.Sink tree.new out.new err.new)
        result }
    ensures passes { Passes
        (moment T.Tree O.Sink K.Sink tree.old out.old err.old) (moment T.Tree O.Sink K.Sink tree.new out.new err.new) }
{
    let Ok(scripts) = scripts_of(alloc, rounds) else {
        return unbegun();
    };
    let Ok(edits) = edits_of(alloc, rounds) else {
        return unbegun();
    };
    let Ok(it) = begin::<S>(alloc, plan, rounds, texts) else {
        return unbegun();
    };
    let Ok(mut forks) = edited_forks(alloc, tree, edits.as_slice()) else {
        return unbegun();
    };
    let outlet = Out::open(alloc, out, plan.trace);
    let Over {
        history,
        outlet,
        results,
    } = play_on_book(alloc, forks.as_mut_slice(), it, plan.fuel, outlet);
    absorb_forks(tree, forks);
    let flow = outlet.close(out);
    let status = finish_run(alloc, err, scripts.as_slice(), flow, results.as_slice());
    of_run(status, history)
}
