//! What a thread runs.
ghost use Rattle.std.specs.Prelude.{◌≡◌, ℕ, [], Result};
ghost use Rattle.machine_desk.specs.Sight.{Sight, IsReady, Continues};
ghost use Rattle.meaning_runs.specs.Runs.{Run};
ghost use Rattle.drive_round.specs.Ran.{RanOver};

use base_types::NoMemory;
use drive_account::Ending;
use machine_desk::Desk;
use std::alloc::Global;
use tree_files::Tree;

/// What a thread runs: a script, or a module by its name.
pub trait Program: Drop {
    /// What it means as the thread of a number.
    ghost run: { Self → ℕ → Run };

    /// Runs it at a desk, over a tree, and makes its End event. Where memory is wanted there is none.
    fn run<D: Desk, T: Tree>(
        &self,
        alloc: Global,
        desk: &mut D,
        tree: &mut T,
        script: u32,
        fuel: u64,
    ) -> Result<Ending, NoMemory>
        requires number { (D.sight desk.old).number ≡ script }
        requires ready { IsReady (D.sight desk.old) }
        requires first { (D.sight desk.old).mine ≡ [] }
        ensures continues { Continues (D.sight desk.old) (D.sight desk.new) }
        ensures files { T.files tree.new ≡ T.files tree.old }
        ensures ran { RanOver T.files T.faults T.lists tree.old tree.new script (run self.now script) fuel
            (D.sight desk.new).mine result };
}
