//! A whole round, over trees that were made for it.
ghost use Rattle.std.specs.Prelude.{◌≡◌, ◌≤◌, ◌<◌, ◌+◌, ◌^◌, ◌++◌, ◌∷◌, [], ℕ, List, Option, Some, All, EachIndex, IfOk, IfErr, IfSome, IsSomeAnd, OnOk, OnErr, fold, length, map, slice_index, vec_len, vec_capacity};
ghost use Rattle.std.specs.List.{AllZip};
ghost use Rattle.tree_files.specs.Files.{Files};
ghost use Rattle.machine_spec.specs.Legal.{IsLegal};
ghost use Rattle.trace_book.specs.Told.{new_passes};
ghost use Rattle.trace_book.specs.Views.{base_of, numbers_from};
ghost use Rattle.trace_book.specs.declared.view.Base.{Base};
ghost use Rattle.drive_round.specs.Ran.{counted, AreNewTrees, IsNewTree, MayBegin, ThreadsRan};
ghost use Rattle.drive_round.specs.Workers.{facts, IsNew, AllNew, Works, AllWork, AllSeated, Gathers};

use crate::gate::Gate;
use crate::program::Program;
use crate::worker::{Room, Worker};
use base_types::NoMemory;
use drive_account::Ending;
use machine_book::Book;
use machine_desk::Outlet;
use std::alloc::Global;
use std::sync::Wait;
use std::thread;
use std::thread::Threads;
use trace_book::{Bell, Pass, Shelf, gather};
use tree_files::Tree;

/// How the program of a thread ended, or that memory was wanting.
pub type Ran = Result<Ending, NoMemory>;

/// A round that ran over trees of its own: the book, and of each thread, in their order, its tree and
/// what came of it.
#[derive(Drop)]
pub struct Over<O: Outlet, T: Tree> {
    pub book: Book<O>,
    pub trees: Vec<T>,
    pub results: Vec<Ran>,
}

/// Memory was wanting before a thread began. The book comes back as it was.
#[derive(Drop)]
pub struct Unrun<O: Outlet> {
    pub book: Book<O>,
}

/// Room for the workers of a round, and for what they leave.
#[derive(Drop)]
struct Seats<T: Tree, P: Program> {
    workers: Vec<Worker<T, P>>,
    trees: Vec<T>,
    results: Vec<Ran>,
}

/// What all workers of a round leave: the pass that speaks for all threads, and of each thread, in
/// their order, its tree and what came of it.
#[derive(Drop)]
struct Left<T: Tree> {
    pass: Pass,
    trees: Vec<T>,
    results: Vec<Ran>,
}

fn seats_for<T: Tree, P: Program>(alloc: Global, count: usize) -> Result<Seats<T, P>, NoMemory>
    ensures workers { IfOk result (λ it. (it.workers.items ≡ []) × (count ≤ vec_capacity it.workers)) }
    ensures trees { IfOk result (λ it. (it.trees.items ≡ []) × (count ≤ vec_capacity it.trees)) }
    ensures results { IfOk result (λ it. (it.results.items ≡ []) × (count ≤ vec_capacity it.results)) }
{
    Ok(Seats {
        workers: Vec::with_capacity(alloc, count)?,
        trees: Vec::with_capacity(alloc, count)?,
        results: Vec::with_capacity(alloc, count)?,
    })
}

/// There is room for it.
fn add<A: Drop>(items: &mut Vec<A>, item: A)
    requires { vec_len items.old < vec_capacity items.old }
    ensures items { items.new.items ≡ items.old.items ++ item ∷ [] }
    ensures len { vec_len items.new ≡ vec_len items.old + 1 }
    ensures room { vec_capacity items.old ≤ vec_capacity items.new }
{
    if items.push(item).is_err() {
        unreachable!()
    }
}

/// The last of a vector that has one.
fn last_of<A: Drop>(items: &mut Vec<A>) -> A
    requires { 1 ≤ vec_len items.old }
    ensures { items.old.items ≡ items.new.items ++ result ∷ [] }
{
    let Some(item) = items.pop() else {
        unreachable!()
    };
    item
}

/// A worker for each thread, the last thread first.
fn seat_all<T: Tree, P: Program>(
    mut passes: Vec<Pass>,
    mut programs: Vec<P>,
    mut forks: Vec<T>,
    mut workers: Vec<Worker<T, P>>,
    from: u32,
) -> Vec<Worker<T, P>>
    requires fits { from + length passes.items ≤ 2 ^ 32 }
    requires programs { length programs.items ≡ length passes.items }
    requires forks { length forks.items ≡ length passes.items }
    requires room { (workers.items ≡ []) × (length passes.items ≤ vec_capacity workers) }
    ensures count { length result.items ≡ length passes.items }
    ensures seated { AllSeated passes.items programs.items forks.items from result.items }
{
    while let Some(pass) = passes.pop() {
        let worker = Worker {
            script: from + passes.len() as u32,
            pass: Some(pass),
            program: last_of(&mut programs),
            tree: last_of(&mut forks),
            ran: Err(NoMemory),
        };
        add(&mut workers, worker);
    }
    workers
}

/// Each worker in a thread of its own.
fn run_each<
    R: Threads + Wait + Sync,
    O: Outlet + Send,
    G: Gate + Sync,
    T: Tree + Send,
    P: Program + Send,
>(rt: &R, room: &Room<'_, R, O, G>, workers: &mut [Worker<T, P>])
    requires { AllNew room.now.shelf.now.table.shared.table_id (facts P.run T.files T.faults T.lists) workers.old }
    ensures { AllWork room.now.fuel (facts P.run T.files T.faults T.lists) workers.old workers.new }
{
    let threads = workers.len();
    if threads == 0 {
        return;
    }
    thread::for_each_mut(
        rt,
        workers,
        threads,
        &|_, worker: &mut Worker<T, P>|
            requires { IsNew room.now.shelf.now.table.shared.table_id
                (facts P.run T.files T.faults T.lists worker.now) }
            ensures { Works room.entry.now.fuel (facts P.run T.files T.faults T.lists) worker.entry.now
                worker.exit.now }
        { worker.work(room) },
    );
}

fn run_workers<
    R: Threads + Wait + Sync,
    O: Outlet + Send,
    G: Gate + Sync,
    T: Tree + Send,
    P: Program + Send,
>(rt: &R, room: &Room<'_, R, O, G>, mut workers: Vec<Worker<T, P>>) -> Vec<Worker<T, P>>
    requires { AllNew room.now.shelf.now.table.shared.table_id (facts P.run T.files T.faults T.lists) workers.items }
    ensures { AllWork room.now.fuel (facts P.run T.files T.faults T.lists) workers.items result.items }
{
    run_each(rt, room, workers.as_mut_slice());
    workers
}

/// What a worker leaves: its pass, its tree, and what came of it.
fn leave<T: Tree, P: Program>(
    worker: Worker<T, P>,
    trees: &mut Vec<T>,
    results: &mut Vec<Ran>,
) -> Option<Pass>
    requires tree_room { vec_len trees.old < vec_capacity trees.old }
    requires room { vec_len results.old < vec_capacity results.old }
    ensures pass { result ≡ worker.pass }
    ensures trees { trees.new.items ≡ trees.old.items ++ worker.tree ∷ [] }
    ensures tree_room { vec_capacity trees.old ≤ vec_capacity trees.new }
    ensures results { results.new.items ≡ results.old.items ++ worker.ran ∷ [] }
    ensures room { vec_capacity results.old ≤ vec_capacity results.new }
{
    let Worker {
        script: _,
        pass,
        program,
        tree,
        ran,
    } = worker;
    drop(program);
    add(trees, tree);
    add(results, ran);
    pass
}

/// The pass that speaks for all threads, and what each leaves, in their order.
fn gather_all<O: Outlet, T: Tree, P: Program>(
    shelf: &Shelf<O>,
    mut workers: Vec<Worker<T, P>>,
    mut trees: Vec<T>,
    mut results: Vec<Ran>,
) -> Left<T>
    requires some { 1 ≤ length workers.items }
    requires tree_room { (trees.items ≡ []) × (length workers.items ≤ vec_capacity trees) }
    requires room { (results.items ≡ []) × (length workers.items ≤ vec_capacity results) }
    requires passes { All (λ w. IsSomeAnd w.pass (λ pass. pass.table ≡ shelf.now.table.shared.table_id)) workers.items }
    ensures gathered { Gathers shelf.now.table.shared.table_id (facts P.run T.files T.faults T.lists)
        (counted T.faults T.lists) workers.items result.pass result.trees.items result.results.items }
{
    let first = last_of(&mut workers);
    let Some(mut pass) = leave(first, &mut trees, &mut results) else {
        unreachable!()
    };
    while let Some(worker) = workers.pop() {
        let Some(other) = leave(worker, &mut trees, &mut results) else {
            unreachable!()
        };
        gather(shelf, &mut pass, other);
    }
    Left {
        pass,
        trees,
        results,
    }
}

/// Runs the programs of a round on a book, each in a thread of its own over a tree of its own, the
/// first with the number `from`. Where memory is wanted before a thread begins, the book comes back.
pub fn run_over<
    R: Threads + Wait + Sync,
    O: Outlet + Send,
    G: Gate + Sync,
    T: Tree + Send,
    P: Program + Send,
>(
    rt: &R,
    alloc: Global,
    book: Book<O>,
    from: u32,
    programs: Vec<P>,
    trees: Vec<T>,
    fuel: u64,
    gate: &G,
) -> Result<Over<O, T>, Unrun<O>>
    requires some { 1 ≤ length programs.items }
    requires fits { from + length programs.items < 2 ^ 32 }
    requires may { MayBegin book from (length programs.items) }
    requires many { length trees.items ≡ length programs.items }
    requires new { AreNewTrees T.files T.faults T.lists trees.items }
    ensures ok { (told : Option Files) → All (IsNewTree T.files T.faults T.lists told) trees.items
        → IfOk result (λ over. ThreadsRan O.piece O.out told from (map P.run programs.items) fuel book over.book
        (map (counted T.faults T.lists) over.trees.items) over.results.items) }
    ensures err { IfErr result (λ unrun. unrun.book ≡ book) }
{
    let count = programs.len();
    let Ok(seats) = seats_for(alloc, count) else {
        return Err(Unrun { book });
    };
    let Seats {
        workers,
        trees: left,
        results,
    } = seats;
    let (shelf, passes) = match Shelf::open(alloc, book, from, count as u32) {
        Ok(opened) => opened,
        Err(unopened) => return Err(Unrun {
            book: unopened.book,
        }),
    };
    let workers = seat_all(passes, programs, trees, workers, from);
    let bell = Bell::new();
    let gathered = {
        let room = Room {
            alloc,
            rt,
            shelf: &shelf,
            bell: &bell,
            gate,
            fuel,
        };
        let workers = run_workers(rt, &room, workers);
        gather_all(&shelf, workers, left, results)
    };
    let Left {
        pass,
        trees,
        results,
    } = gathered;
    let book = shelf.close(pass);
    book.check_legal();
    Ok(Over {
        book,
        trees,
        results,
    })
}
