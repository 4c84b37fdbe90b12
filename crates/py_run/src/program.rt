//! A whole module as a program.
ghost use Rattle.std.specs.Prelude.{◌≡◌, ◌≤◌, ◌+◌, [], IfOk, OnOk, OnErr, Some};
ghost use Rattle.tree_files.specs.Count.{Rose};
ghost use Rattle.tree_files.specs.Files.{Files};
ghost use Rattle.machine_desk.specs.Sight.{Sight, IsReady, Continues};
ghost use Rattle.meaning_runs.specs.Follows.{Follows};
ghost use Rattle.meaning_runs.specs.Lists.{lists_in, ends_in};
ghost use Rattle.drive_account.specs.Ending.{IsMeant, BrokenOver, IsRead, outcome};
ghost use Rattle.run_module.specs.Programs.{meaning_of_name};
ghost use Rattle.step_calls.specs.Sources.{sources};

use crate::start::Start;
use crate::thread::run_thread;
use base_types::{Exact, NoMemory};
use drive_account::Ending;
use machine_desk::Desk;
use spec_core::Dotted;
use std::alloc::Global;
use tree_files::Tree;

/// Runs the module of this name as a program (`python -m`) on a desk, over a tree, and makes its End event.
///
/// The events are those of the name's meaning with this fuel, each once and in order, on the answers
/// of the tree and the replies that come. `Read` comes only where a call of the tree failed, and another
/// end only where none did. A directory is listed at most once for each listing that the thread's
/// events keep. Where memory is wanted there is no End.
pub fn run_module_main<D: Desk, T: Tree>(
    alloc: Global,
    desk: &mut D,
    tree: &mut T,
    script: u32,
    name: &Dotted,
    fuel: u64,
) -> Result<Ending, NoMemory>
    requires number { (D.sight desk.old).number ≡ script }
    requires ready { IsReady (D.sight desk.old) }
    requires first { (D.sight desk.old).mine ≡ [] }
    ensures continues { Continues (D.sight desk.old) (D.sight desk.new) }
    ensures files { T.files tree.new ≡ T.files tree.old }
    ensures faults_grow { T.faults tree.old ≤ T.faults tree.new }
    ensures lists { OnOk result (T.lists tree.new ≤ T.lists tree.old + lists_in (D.sight desk.new).mine) }
    ensures goes_on { OnErr result (ends_in (D.sight desk.new).mine ≡ 0) }
    ensures meant { IfOk result (λ ending. IsMeant (T.files tree.old) script
        (meaning_of_name sources script name.now) fuel (D.sight desk.new).mine (outcome ending)) }
    ensures follows { (files : Files) → T.files tree.old ≡ Some files
        → IfOk result (λ ending. Follows files script (meaning_of_name sources script name.now) fuel
        (D.sight desk.new).mine (outcome ending)) }
    ensures part { OnErr result (BrokenOver T.files T.faults tree.old tree.new script
        (meaning_of_name sources script name.now) fuel (D.sight desk.new).mine) }
    ensures read { IfOk result (λ ending. IsRead ending → Rose (T.faults tree.old) (T.faults tree.new)) }
    ensures unfailed { IfOk result (λ ending. (IsRead ending → ⊥) → T.faults tree.new ≡ T.faults tree.old) }
{
    let copy = match name.copy() {
        Ok(copy) => copy,
        Err(_) => return Err(NoMemory),
    };
    run_thread(alloc, desk, tree, script, Start::Module(copy), fuel)
}
