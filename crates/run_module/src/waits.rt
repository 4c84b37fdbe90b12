//! What the start of a module waits for from one step to the next.
ghost use Rattle.std.specs.Prelude.{◌≡◌};
ghost use Rattle.find_load.specs.Means.{wants};
ghost use Rattle.run_module.specs.Means.{Goes};
ghost use Rattle.run_module.specs.UnderWay.{goes_on_by};
ghost use Rattle.run_module.specs.declared.start.Stage.TheVariants as stages;

use crate::start::{ModuleStart, Stage};
use base_types::NoMemory;
use find_load::Want;
use std::mem;

/// This is wanted, and what it comes to is waited for at a stage. No other function lets go of the
/// stage before it: where a stage is dropped, the proof goes through all that any stage can hold.
pub(crate) fn wait_for(p: &mut ModuleStart, stage: Stage, want: Want) -> Want
    ensures goes { Goes (λ inside. wants inside want (goes_on_by p.old stage inside)) p.new result }
{
    let before = mem::replace(&mut p.stage, stage);
    drop(before);
    want
}

/// Memory was wanting: nothing is waited for any more, so that no input fits.
pub(crate) fn close(p: &mut ModuleStart) -> NoMemory
    ensures { p.new.stage ≡ stages.Over }
{
    let before = mem::replace(&mut p.stage, Stage::Over);
    drop(before);
    NoMemory
}
