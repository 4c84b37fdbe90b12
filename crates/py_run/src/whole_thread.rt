//! A whole thread, on a port.
ghost use Rattle.std.specs.Prelude.{◌≡◌, ◌≤◌, ◌+◌, Some, IfOk, OnOk, OnErr};
ghost use Rattle.tree_files.specs.Count.{Rose};
ghost use Rattle.tree_files.specs.Files.{Files};
ghost use Rattle.machine_shown.specs.Shown.{shown_first};
ghost use Rattle.meaning_runs.specs.Runs.{Safe};
ghost use Rattle.meaning_runs.specs.Follows.{Follows};
ghost use Rattle.meaning_runs.specs.Lists.{lists_in, ends_in};
ghost use Rattle.drive_account.specs.View.{View, Stays};
ghost use Rattle.drive_account.specs.Ending.{outcome, IsRead, IsMeant, Broken};
ghost use Rattle.drive_account.specs.Asking.{Asked};
ghost use Rattle.py_run.specs.Overs.{Begun};
ghost use Rattle.py_run.specs.Starts.{started};

use crate::drive::{Over, run};
use crate::start::Start;
use drive_account::{Ending, Halt, Port, came, spent, unread};
use drive_straight::Execution;
use std::alloc::Global;
use tree_files::Tree;

/// Runs a script, or a module as a program, on a port, over a tree, and makes its End event.
///
/// The events are those of its meaning with this fuel, each once and in order, on the answers of the
/// tree and the replies that come. `Read` comes only where a call of the tree failed, and another end
/// only where none did. A directory is listed at most once for each listing that the events keep.
/// Where memory is wanted there is no End.
pub fn run_on<P: Port, T: Tree>(
    alloc: Global,
    port: &mut P,
    tree: &mut T,
    script: u32,
    start: Start,
    fuel: u64,
) -> Result<Ending, Halt>
    requires begun { Begun (P.view port.old) script }
    requires safe { Safe (shown_first script) (started script start) }
    ensures stays { Stays (P.view port.old) (P.view port.new) }
    ensures asked { Asked (T.files tree.old) (T.files tree.new) (T.faults tree.old) (T.faults tree.new) }
    ensures lists { OnOk result (T.lists tree.new ≤ T.lists tree.old + lists_in (P.view port.new).mine) }
    ensures goes_on { OnErr result (ends_in (P.view port.new).mine ≡ 0) }
    ensures meant { IfOk result (λ ending. IsMeant (T.files tree.old) script (started script start) fuel
        (P.view port.new).mine (outcome ending)) }
    ensures follows { (files : Files) → T.files tree.old ≡ Some files
        → IfOk result (λ ending. Follows files script (started script start) fuel (P.view port.new).mine
        (outcome ending)) }
    ensures part { OnErr result (Broken (T.files tree.old) script (started script start) fuel
        (P.view port.new).mine (T.faults tree.old) (T.faults tree.new)) }
    ensures read { IfOk result (λ ending. IsRead ending → Rose (T.faults tree.old) (T.faults tree.new)) }
    ensures unfailed { IfOk result (λ ending. (IsRead ending → ⊥) → T.faults tree.new ≡ T.faults tree.old) }
{
    let mut execution = Execution::first(alloc, script, fuel);
    let over = match run(alloc, port, tree, &mut execution, script, start, fuel) {
        Ok(over) => over,
        Err(halt) => return Err(halt),
    };
    match over {
        Over::Came(flow) => came(port, flow, fuel),
        Over::Out { .. } => spent(port, &mut execution.held, fuel),
        Over::Unread(left) => {
            let paid = fuel - left;
            unread(port, &mut execution.held, paid)
        }
    }
}
