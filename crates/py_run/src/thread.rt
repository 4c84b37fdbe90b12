//! A whole thread, on a desk.
ghost use Rattle.std.specs.Prelude.{◌≡◌, ◌≤◌, ◌+◌, [], IfOk, OnOk, OnErr, Some};
ghost use Rattle.tree_files.specs.Count.{Rose};
ghost use Rattle.tree_files.specs.Files.{Files};
ghost use Rattle.machine_desk.specs.Sight.{Sight, IsReady, Continues};
ghost use Rattle.machine_shown.specs.Shown.{shown_first};
ghost use Rattle.meaning_runs.specs.Runs.{Safe};
ghost use Rattle.meaning_runs.specs.Follows.{Follows};
ghost use Rattle.meaning_runs.specs.Lists.{lists_in, ends_in};
ghost use Rattle.drive_account.specs.Ending.{IsMeant, BrokenOver, IsRead, outcome};
ghost use Rattle.py_run.specs.Starts.{started};

use crate::OnDesk;
use crate::start::Start;
use crate::whole_thread::run_on;
use base_types::NoMemory;
use drive_account::Ending;
use machine_desk::Desk;
use std::alloc::Global;
use tree_files::Tree;

/// Runs a thread that starts so, on a desk, over a tree, and makes its End event.
pub(crate) fn run_thread<D: Desk, T: Tree>(
    alloc: Global,
    desk: &mut D,
    tree: &mut T,
    script: u32,
    start: Start,
    fuel: u64,
) -> Result<Ending, NoMemory>
    requires number { (D.sight desk.old).number ≡ script }
    requires ready { IsReady (D.sight desk.old) }
    requires first { (D.sight desk.old).mine ≡ [] }
    requires safe { Safe (shown_first script) (started script start) }
    ensures continues { Continues (D.sight desk.old) (D.sight desk.new) }
    ensures files { T.files tree.new ≡ T.files tree.old }
    ensures faults_grow { T.faults tree.old ≤ T.faults tree.new }
    ensures lists { OnOk result (T.lists tree.new ≤ T.lists tree.old + lists_in (D.sight desk.new).mine) }
    ensures goes_on { OnErr result (ends_in (D.sight desk.new).mine ≡ 0) }
    ensures meant { IfOk result (λ ending. IsMeant (T.files tree.old) script (started script start) fuel
        (D.sight desk.new).mine (outcome ending)) }
    ensures follows { (files : Files) → T.files tree.old ≡ Some files
        → IfOk result (λ ending. Follows files script (started script start) fuel (D.sight desk.new).mine
        (outcome ending)) }
    ensures part { OnErr result (BrokenOver T.files T.faults tree.old tree.new script (started script start) fuel
        (D.sight desk.new).mine) }
    ensures read { IfOk result (λ ending. IsRead ending → Rose (T.faults tree.old) (T.faults tree.new)) }
    ensures unfailed { IfOk result (λ ending. (IsRead ending → ⊥) → T.faults tree.new ≡ T.faults tree.old) }
{
    let mut port = OnDesk { desk };
    match run_on(alloc, &mut port, tree, script, start, fuel) {
        Ok(ending) => Ok(ending),
        Err(_) => Err(NoMemory),
    }
}
