//! What a reload waits for from one step to the next.
ghost use Rattle.std.specs.Prelude.{◌≡◌};
ghost use Rattle.find_load.specs.Means.{wants};
ghost use Rattle.reload_lazy.specs.Reload.{ReloadGoes};
ghost use Rattle.reload_lazy.specs.Reloading.{goes_on_by};
ghost use Rattle.reload_lazy.specs.declared.reloader.ReloadStage.TheVariants as stages;

use crate::reloader::{Awaited, ReloadStage, Reloader};
use base_types::NoMemory;
use find_load::Want;
use spec_core::Dotted;
use std::mem;

/// This is wanted, and what it comes to is waited for under the dotted name that the module's own was
/// read as. No other function lets go of what was waited for before: where a stage is dropped, the
/// proof goes through all that any stage can hold.
pub(crate) fn wait_for(p: &mut Reloader, name: Dotted, awaited: Awaited, want: Want) -> Want
    ensures goes { ReloadGoes (λ inside. wants inside want (goes_on_by p.old name awaited inside)) p.new result }
{
    let before = mem::replace(&mut p.stage, ReloadStage::Awaits(name, awaited));
    drop(before);
    want
}

/// Memory was wanting: nothing is waited for any more, so that no input fits.
pub(crate) fn close(p: &mut Reloader) -> NoMemory
    ensures { p.new.stage ≡ stages.Over }
{
    let before = mem::replace(&mut p.stage, ReloadStage::Over);
    drop(before);
    NoMemory
}
