//! Where a recorded list parts.
ghost use Rattle.std.specs.Prelude.{◌≡◌, length, IfOk, IsErrOf};
ghost use Rattle.drive_account.specs.Following.{part_of, answer_behind};
ghost use Rattle.drive_account.specs.Stages.{Told};

use crate::{Ending, Halt, ReplayPort};
use machine_events::Follow;
use tree_files::TreeFault;

/// The list parts at this place. One that 32 bits do not hold is want of memory.
pub fn parts(at: usize) -> Result<Follow, TreeFault>
    ensures ok { IfOk result (λ it. it ≡ Follow.Parts at) }
    ensures never { IsErrOf result TreeFault.Failed → ⊥ }
{
    match u32::try_from(at) {
        Ok(at) => Ok(Follow::Parts { at }),
        Err(_) => Err(TreeFault::NoMemory),
    }
}

/// The list parts where the port has refused the event that is due.
pub fn refused(port: &ReplayPort<'_>) -> Result<Follow, TreeFault>
    ensures ok { IfOk result (λ it. it ≡ Follow.Parts (part_of port.now.misfit port.now.at)) }
    ensures never { IsErrOf result TreeFault.Failed → ⊥ }
{
    if !port.misfit {
        return parts(port.at);
    }
    match port.at.checked_add(1) {
        Some(behind) => parts(behind),
        None => Err(TreeFault::NoMemory),
    }
}

/// The End was made: nothing may stand behind it.
fn behind_end(port: &ReplayPort<'_>) -> Result<Follow, TreeFault>
    ensures ok { IfOk result (λ it. it ≡ answer_behind port.now.at (length port.now.own.now)) }
    ensures never { IsErrOf result TreeFault.Failed → ⊥ }
{
    if port.at == port.own.len() {
        Ok(Follow::Yes)
    } else {
        parts(port.at)
    }
}

/// The End was to be made.
pub fn told(port: &ReplayPort<'_>, made: Result<Ending, Halt>) -> Result<Follow, TreeFault>
    ensures ok { IfOk result (Told made port.now.misfit port.now.at (length port.now.own.now)) }
    ensures never { IsErrOf result TreeFault.Failed → ⊥ }
{
    match made {
        Ok(ending) => {
            drop(ending);
            behind_end(port)
        }
        Err(Halt::Refused) => refused(port),
        Err(Halt::NoMemory) => Err(TreeFault::NoMemory),
    }
}
