//! Several programs, each in a thread of its own.
ghost use Rattle.std.specs.Prelude.{◌≡◌, ◌≤◌, ◌⊎◌, ◌∷◌, [], List, length, map, IfSome, IfNone, IsSomeAnd};
ghost use Rattle.machine_events.specs.declared.event.Entry.{Entry};
ghost use Rattle.machine_spec.specs.Legal.{IsLegal};
ghost use Rattle.machine_book.specs.Bound.{opened, CanOpen};
ghost use Rattle.machine_desk.specs.Outgo.{Kept};
ghost use Rattle.machine_desk.specs.declared.outlet.Flow.{Flow};
ghost use Rattle.drive_round.specs.Ran.{counted};
ghost use Rattle.program_run.specs.Ends.{err_text, status_of};
ghost use Rattle.program_run.specs.Results.{AreWhole, AllEnded};
ghost use Rattle.program_run.specs.Runs.{Gives};
ghost use Rattle.program_run.specs.Sinks.{at, moment, Gets, Passes, status_by};
ghost use Rattle.program_run.specs.Statuses.{sink_fault, want_of_memory};
ghost use Rattle.program_run.specs.Alone.{AreSafe, Means};
ghost use Rattle.program_run.specs.Together.{MeanFrom, RanTogether};

use crate::begin::{Begun, begin};
use crate::finish::{Came, finish_run};
use crate::outlet::Out;
use crate::report::{Left, of_run, unbegun};
use crate::status::WANT_OF_MEMORY;
use base_types::{Seq, Text};
use drive_round::{Gate, Program, run_round};
use import_words::RunPlan;
use machine_book::Book;
use machine_desk::{Flow, Outlet};
use machine_events::Entry;
use std::alloc::Global;
use std::sync::Wait;
use std::thread::Threads;
use tree_files::{Grove, Sink};

/// What a run leaves: its history, its outlet, and how its programs ended, where they began.
#[derive(Drop)]
struct Together<O: Outlet> {
    history: Seq<Entry>,
    outlet: O,
    results: Option<Vec<Came>>,
}

/// Runs the programs on one book, each over a fork of the tree.
fn run_on_book<
    P: Program + Send,
    R: Threads + Wait + Sync,
    T: Grove,
    O: Outlet + Send,
    G: Gate + Sync,
>(rt: &R, alloc: Global, tree: &mut T, it: Begun<P>, fuel: u64, outlet: O, gate: &G) -> Together<O>
    requires machine { it.machine ≡ opened it.opening }
    requires can_open { CanOpen it.opening }
    requires rounds { it.opening.rounds ≡ length it.programs.items ∷ [] }
    requires some { (1 ≤ length it.programs.items) × (length it.programs.items ≤ 16) }
    ensures files { T.files tree.new ≡ T.files tree.old }
    ensures faults_grow { T.faults tree.old ≤ T.faults tree.new }
    ensures legal { IsLegal (opened it.opening) result.history }
    ensures kept { Kept O.piece (O.out outlet) (O.out result.outlet) result.history }
    ensures ran { IfSome result.results (λ results. RanTogether (T.files tree.old) (map P.run it.programs.items) fuel
        (counted T.faults T.lists tree.old) (counted T.faults T.lists tree.new) result.history results.items) }
    ensures unrun { IfNone result.results ((result.history ≡ []) × (T.faults tree.new ≡ T.faults tree.old)
        × (T.lists tree.new ≡ T.lists tree.old)) }
{
    let Begun {
        opening,
        machine,
        programs,
    } = it;
    let book = Book::new(opening, machine, outlet);
    match run_round(rt, alloc, book, 0, programs, tree, fuel, gate) {
        Ok(round) => {
            let (history, outlet) = round.book.end();
            Together {
                history,
                outlet,
                results: Some(round.results),
            }
        }
        Err(unrun) => {
            let (history, outlet) = unrun.book.end();
            Together {
                history,
                outlet,
                results: None,
            }
        }
    }
}

/// Writes the lines about the ends of the scripts, where they began, and gives the status.
pub fn finish_some<K: Sink>(
    alloc: Global,
    err: &mut K,
    scripts: &[Text],
    out: Flow,
    results: &Option<Vec<Came>>,
) -> u8
    requires { IfSome results.now (λ results. length results.items ≡ length scripts.now) }
    ensures leaves { (history : List Entry) → IfSome results.now (λ results. AllEnded 0 results.items history)
        → (flow : Flow) × Gets (at K.Sink err.old) (err_text scripts.now history) (at K.Sink err.new) flow
        × (result ≡ status_by (status_of (length scripts.now) history) sink_fault out flow) }
    ensures short { (result ≡ want_of_memory) ⊎ IsSomeAnd results.now (λ results. AreWhole results.items) }
    ensures faults_grow { K.faults err.old ≤ K.faults err.new }
{
    match results {
        Some(results) => finish_run(alloc, err, scripts, out, results.as_slice()),
        None => WANT_OF_MEMORY,
    }
}

/// Runs the programs of a plan, of which there are several, over a tree, each in a thread of its own over
/// a fork of it, which passes the gate before each event. What they print goes to `out` as it is printed,
/// and a line for each end that is not normal to `err`, in their order. The machine keeps these texts.
pub fn run_several<
    P: Program + Send,
    R: Threads + Wait + Sync,
    T: Grove,
    O: Sink + Send,
    K: Sink,
    G: Gate + Sync,
>(
    rt: &R,
    alloc: Global,
    plan: &RunPlan,
    texts: Seq<Seq<u8>>,
    programs: Vec<P>,
    tree: &mut T,
    out: &mut O,
    err: &mut K,
    gate: &G,
) -> Left
    requires some { 2 ≤ length plan.now.scripts }
    requires few { length plan.now.scripts ≤ 16 }
    requires texts { length texts ≡ length plan.now.scripts }
    requires programs { length programs.items ≡ length plan.now.scripts }
    ensures run { (means : Means) → AreSafe means → MeanFrom P.run means 0 texts programs.items
        → Gives means plan.now texts
        (moment T.Tree O.Sink K.Sink tree.old out.old err.old) (moment T.Tree O.Sink K.Sink tree.new out.new err.new)
        result }
    ensures passes { Passes
        (moment T.Tree O.Sink K.Sink tree.old out.old err.old) (moment T.Tree O.Sink K.Sink tree.new out.new err.new) }
{
    let it = match begin(alloc, plan, texts, programs) {
        Ok(it) => it,
        Err(_) => return unbegun(),
    };
    let outlet = Out::open(alloc, out, plan.trace);
    let Together {
        history,
        outlet,
        results,
    } = run_on_book(rt, alloc, tree, it, plan.fuel, outlet, gate);
    let flow = outlet.close(out);
    let status = finish_some(alloc, err, plan.scripts.as_slice(), flow, &results);
    of_run(status, history)
}
