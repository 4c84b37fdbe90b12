//! The last events of a script, over a recorded list.
ghost use Rattle.std.specs.Prelude.{◌≡◌, ℕ, Bool, take, IfOk, IsErrOf};
ghost use Rattle.tree_files.specs.Files.{Files};
ghost use Rattle.machine_events.specs.declared.event.Event.TheVariants as ev;
ghost use Rattle.machine_shown.specs.Shown.{shown};
ghost use Rattle.machine_shown.specs.Knowing.{IsShown};
ghost use Rattle.meaning_runs.specs.Runs.{Run, Over, Ended, Spent};
ghost use Rattle.meaning_script.specs.Meaning as meant;
ghost use Rattle.drive_account.specs.Replay.{pairs_of};
ghost use Rattle.drive_account.specs.Ending.{Idle};
ghost use Rattle.drive_account.specs.Following.{Answers, NoEnd};
ghost use Rattle.drive_account.specs.Stages.{IsAt, IsGiving};

use crate::places::{parts, refused, told};
use crate::{Halt, Held, Port, ReplayPort, came, give_up, spent, unread};
use machine_events::Follow;
use meaning_state::Flow;
use tree_files::TreeFault;

/// The work of the script is done, and its End is due: with a budget that is not the fuel, none is.
pub fn ends_came(
    port: &mut ReplayPort<'_>,
    flow: Flow,
    fuel: u64,
    budget: u64,
) -> Result<Follow, TreeFault>
    requires knows { IsShown (shown port.old.number (pairs_of (take port.old.at port.old.own.now)))
        (ev.End (meant.outcome_of flow) fuel) }
    ensures answers { (files : Files) (run : Run) → IsAt files port.old.number run fuel budget port.old.own.now
        port.old.at (Over (Ended (meant.outcome_of flow)))
        → IfOk result (Answers files port.old.number run fuel (pairs_of port.old.own.now)) }
    ensures never { IsErrOf result TreeFault.Failed → ⊥ }
{
    if budget != fuel {
        drop(flow);
        return parts(port.at);
    }
    let made = came(port, flow, fuel);
    told(port, made)
}

/// No End is due behind what the script gives up.
fn ends_nowhere<'a>(port: &mut ReplayPort<'a>, held: &mut Held) -> Result<Follow, TreeFault>
    requires idle { Idle (⟦<ReplayPort<'a> as Port>⟧.view port.old) held.old }
    ensures answers { (files : Files) (run : Run) (fuel budget : ℕ) (of_tree : Bool) → NoEnd fuel budget (Spent of_tree)
        → IsGiving files port.old.number run fuel budget port.old.own.now port.old.at of_tree
        → IfOk result (Answers files port.old.number run fuel (pairs_of port.old.own.now)) }
    ensures never { IsErrOf result TreeFault.Failed → ⊥ }
{
    match give_up(port, held) {
        Ok(()) => parts(port.at),
        Err(Halt::Refused) => refused(port),
        Err(Halt::NoMemory) => Err(TreeFault::NoMemory),
    }
}

/// The script is spent, at a payment for a call of the tree or another, and gives up what it holds.
///
/// With the fuel as its budget it ends with that, and with less only where the payment was one for a
/// call of the tree: there that call had failed.
pub fn ends_out<'a>(
    port: &mut ReplayPort<'a>,
    held: &mut Held,
    of_tree: bool,
    fuel: u64,
    budget: u64,
) -> Result<Follow, TreeFault>
    requires idle { Idle (⟦<ReplayPort<'a> as Port>⟧.view port.old) held.old }
    ensures answers { (files : Files) (run : Run) → IsGiving files port.old.number run fuel budget port.old.own.now
        port.old.at of_tree
        → IfOk result (Answers files port.old.number run fuel (pairs_of port.old.own.now)) }
    ensures never { IsErrOf result TreeFault.Failed → ⊥ }
{
    if budget == fuel {
        let made = spent(port, held, fuel);
        return told(port, made);
    }
    if of_tree && budget < fuel {
        let made = unread(port, held, budget);
        return told(port, made);
    }
    ends_nowhere(port, held)
}
