//! A whole round, over forks of a tree.
ghost use Rattle.std.specs.Prelude.{◌≡◌, ◌≤◌, ◌<◌, ◌+◌, ◌^◌, IfOk, IfErr, OnErr, fold, length, map};
ghost use Rattle.std.specs.List.{All};
ghost use Rattle.drive_round.specs.Ran.{absorbed, counted, IsNewTree, MayBegin, RoundOver};

use crate::gate::Gate;
use crate::program::Program;
use crate::round::{Over, Ran, Unrun, run_over};
use base_types::NoMemory;
use machine_book::Book;
use machine_desk::Outlet;
use std::alloc::Global;
use std::sync::Wait;
use std::thread::Threads;
use tree_files::{Grove, Tree};

/// A round that ran: the book, and what came of each thread, in their order.
#[derive(Drop)]
pub struct Round<O: Outlet> {
    pub book: Book<O>,
    pub results: Vec<Ran>,
}

fn fork_all<T: Grove>(alloc: Global, tree: &mut T, count: usize) -> Result<Vec<T>, NoMemory>
    ensures files { T.files tree.new ≡ T.files tree.old }
    ensures faults { T.faults tree.new ≡ T.faults tree.old }
    ensures lists { T.lists tree.new ≡ T.lists tree.old }
    ensures count { IfOk result (λ forks. length forks.items ≡ count) }
    ensures forks { IfOk result (λ forks. All (IsNewTree T.files T.faults T.lists (T.files tree.old)) forks.items) }
{
    let mut forks = Vec::with_capacity(alloc, count)?;
    for _ in 0..count {
        forks.push(tree.fork()?)?;
    }
    Ok(forks)
}

/// Takes in what all forks counted. It takes no memory.
fn absorb_all<T: Grove>(tree: &mut T, forks: Vec<T>)
    ensures files { T.files tree.new ≡ T.files tree.old }
    ensures counts { counted T.faults T.lists tree.new
        ≡ fold absorbed (counted T.faults T.lists tree.old) (map (counted T.faults T.lists) forks.items) }
    ensures faults_grow { T.faults tree.old ≤ T.faults tree.new }
{
    for fork in forks {
        tree.absorb(fork);
    }
}

/// Runs the programs of a round on a book, each in a thread of its own over a fork of the tree, the
/// first with the number `from`. Where memory is wanted before a thread begins, the book comes back.
pub fn run_round<
    R: Threads + Wait + Sync,
    O: Outlet + Send,
    G: Gate + Sync,
    T: Grove,
    P: Program + Send,
>(
    rt: &R,
    alloc: Global,
    book: Book<O>,
    from: u32,
    programs: Vec<P>,
    tree: &mut T,
    fuel: u64,
    gate: &G,
) -> Result<Round<O>, Unrun<O>>
    requires some { 1 ≤ length programs.items }
    requires fits { from + length programs.items < 2 ^ 32 }
    requires may { MayBegin book from (length programs.items) }
    ensures files { T.files tree.new ≡ T.files tree.old }
    ensures ok { IfOk result (λ round. RoundOver O.piece O.out T.files T.faults T.lists tree.old tree.new from
        (map P.run programs.items) fuel book round.book round.results.items) }
    ensures faults_grow { T.faults tree.old ≤ T.faults tree.new }
    ensures err { IfErr result (λ unrun. unrun.book ≡ book) }
    ensures unchanged { OnErr result ((T.faults tree.new ≡ T.faults tree.old) × (T.lists tree.new ≡ T.lists tree.old)) }
{
    let Ok(forks) = fork_all(alloc, tree, programs.len()) else {
        return Err(Unrun { book });
    };
    match run_over(rt, alloc, book, from, programs, forks, fuel, gate) {
        Ok(over) => {
            let Over {
                book,
                trees,
                results,
            } = over;
            absorb_all(tree, trees);
            Ok(Round { book, results })
        }
        Err(unrun) => Err(unrun),
    }
}
