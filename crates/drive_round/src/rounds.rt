//! Rounds of one program each.
ghost use Rattle.std.specs.Prelude.{◌≡◌, ◌≤◌, [], length, map};
ghost use Rattle.machine_shown.specs.Own.{own, Ready, IsLone};
ghost use Rattle.meaning_solo.specs.Solo.{AreAlone};
ghost use Rattle.machine_desk.specs.Outgo.{Kept};
ghost use Rattle.drive_round.specs.Ran.{RanOver};
ghost use Rattle.drive_round.specs.Played.{AllPlayed, AreShort, GoesOn};

use crate::Program;
use base_types::NoMemory;
use drive_account::Ending;
use machine_book::{Book, SoloDesk};
use machine_desk::Outlet;
use std::alloc::Global;
use tree_files::Tree;

/// How the program of a thread ended, or that memory was wanting.
pub type Came = Result<Ending, NoMemory>;

/// Runs a program at a desk of its own, over a tree.
fn run_at_desk<P: Program, T: Tree, O: Outlet>(
    alloc: Global,
    book: &mut Book<O>,
    tree: &mut T,
    program: &P,
    thread: u32,
    fuel: u64,
) -> Came
    requires ready { Ready book.old.opening.rounds book.old.history thread }
    requires fresh { own thread book.old.history ≡ [] }
    requires lone { IsLone book.old.opening.rounds thread }
    ensures goes_on { GoesOn O.piece O.out thread book.old book.new }
    ensures files { T.files tree.new ≡ T.files tree.old }
    ensures ran { RanOver T.files T.faults T.lists tree.old tree.new thread (P.run program.now thread) fuel
        (own thread book.new.history) result }
{
    let mut desk = SoloDesk::new(book, thread);
    let came = program.run(alloc, &mut desk, tree, thread, fuel);
    desk.check_gained();
    came
}

/// Plays rounds of one program each, one after another, on a book without entries: each program runs
/// over a tree of its own, and its round begins when the one before has ended. Where a program wants
/// memory no later one begins, and nothing comes of it.
pub fn play_rounds<P: Program, T: Tree, O: Outlet>(
    alloc: Global,
    book: &mut Book<O>,
    programs: &[P],
    trees: &mut [T],
    fuel: u64,
    results: &mut [Came],
)
    requires start { book.old.history ≡ [] }
    requires alone { AreAlone book.old.opening }
    requires rounds { length book.old.opening.rounds ≡ length trees.old }
    requires programs { length programs.now ≡ length trees.old }
    requires results { length results.old ≡ length trees.old }
    requires short { AreShort results.old }
    requires few { length trees.old ≤ 16 }
    ensures opening { book.new.opening ≡ book.old.opening }
    ensures kept { Kept O.piece (O.out book.old.outlet) (O.out book.new.outlet) book.new.history }
    ensures played { AllPlayed T.files T.faults T.lists fuel book.new.history 0 (map P.run programs.now) trees.old
        trees.new results.new }
{
    for t in 0..trees.len() {
        match run_at_desk(alloc, book, &mut trees[t], &programs[t], t as u32, fuel) {
            Ok(ending) => results[t] = Ok(ending),
            Err(_) => return,
        }
    }
}
