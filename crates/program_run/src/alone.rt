//! One program that runs alone.
ghost use Rattle.std.specs.Prelude.{◌≡◌, ◌≤◌, ◌∷◌, [], length};
ghost use Rattle.machine_spec.specs.Legal.{IsLegal};
ghost use Rattle.machine_book.specs.Bound.{opened, CanOpen};
ghost use Rattle.machine_desk.specs.Outgo.{Kept};
ghost use Rattle.machine_shown.specs.Own.{own};
ghost use Rattle.drive_round.specs.Ran.{Ran, counted};
ghost use Rattle.program_run.specs.Alone.{AreSafe, Means};
ghost use Rattle.program_run.specs.Runs.{Gives};
ghost use Rattle.program_run.specs.Sinks.{at, moment, Passes};
ghost use Rattle.program_run.specs.Together.{MeanFrom};

use crate::begin::{Begun, begin};
use crate::finish::{Came, finish_run};
use crate::outlet::Out;
use crate::report::{Left, of_run, unbegun};
use base_types::Seq;
use drive_round::Program;
use import_words::RunPlan;
use machine_book::{Book, SoloDesk};
use machine_desk::Outlet;
use machine_events::Entry;
use std::alloc::Global;
use tree_files::{Sink, Tree};

/// What a run leaves: its history, its outlet, and how its program ended.
#[derive(Drop)]
struct Alone<O: Outlet> {
    history: Seq<Entry>,
    outlet: O,
    came: Came,
}

/// Runs the program on a book of its own.
fn run_on_book<P: Program, T: Tree, O: Outlet>(
    alloc: Global,
    tree: &mut T,
    it: Begun<P>,
    fuel: u64,
    outlet: O,
) -> Alone<O>
    requires machine { it.machine ≡ opened it.opening }
    requires can_open { CanOpen it.opening }
    requires one { it.opening.rounds ≡ 1 ∷ [] }
    requires some { 1 ≤ length it.programs.items }
    ensures files { T.files tree.new ≡ T.files tree.old }
    ensures legal { IsLegal (opened it.opening) result.history }
    ensures kept { Kept O.piece (O.out outlet) (O.out result.outlet) result.history }
    ensures ran { (program : P) → it.programs.items ≡ program ∷ []
        → Ran (T.files tree.old) 0 (P.run program 0) fuel (counted T.faults T.lists tree.old)
        (counted T.faults T.lists tree.new) (own 0 result.history) result.came }
    ensures faults_grow { T.faults tree.old ≤ T.faults tree.new }
{
    let Begun {
        opening,
        machine,
        programs,
    } = it;
    let mut book = Book::new(opening, machine, outlet);
    let came = {
        let mut desk = SoloDesk::new(&mut book, 0);
        programs.as_slice()[0].run(alloc, &mut desk, tree, 0, fuel)
    };
    let (history, outlet) = book.end();
    Alone {
        history,
        outlet,
        came,
    }
}

/// Runs the one program of a plan over a tree. What it prints goes to `out` as it is printed, and a
/// line where its end is not normal to `err`. It always returns. The machine keeps the one text.
pub fn run_one<P: Program, T: Tree, O: Sink, K: Sink>(
    alloc: Global,
    plan: &RunPlan,
    texts: Seq<Seq<u8>>,
    programs: Vec<P>,
    tree: &mut T,
    out: &mut O,
    err: &mut K,
) -> Left
    requires script { length plan.now.scripts ≡ 1 }
    requires text { length texts ≡ 1 }
    requires program { length programs.items ≡ 1 }
    ensures run { (means : Means) → AreSafe means → MeanFrom P.run means 0 texts programs.items
        → Gives means plan.now texts
        (moment T.Tree O.Sink K.Sink tree.old out.old err.old) (moment T.Tree O.Sink K.Sink tree.new out.new err.new)
        result }
    ensures passes { Passes
        (moment T.Tree O.Sink K.Sink tree.old out.old err.old) (moment T.Tree O.Sink K.Sink tree.new out.new err.new) }
{
    let it = match begin(alloc, plan, texts, programs) {
        Ok(it) => it,
        Err(_) => return unbegun(),
    };
    let outlet = Out::open(alloc, out, plan.trace);
    let Alone {
        history,
        outlet,
        came,
    } = run_on_book(alloc, tree, it, plan.fuel, outlet);
    let flow = outlet.close(out);
    let results = [came];
    let status = finish_run(alloc, err, plan.scripts.as_slice(), flow, &results);
    of_run(status, history)
}
