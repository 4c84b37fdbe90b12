//! How a reload ends by an error.
ghost use Rattle.std.specs.Prelude.{IfOk};
ghost use Rattle.meaning_state.specs.declared.flow.Flow.TheVariants as flows;
ghost use Rattle.meaning_state.specs.declared.fault.Fault.TheVariants as faults;
ghost use Rattle.meaning_script.specs.Pieces.{fails};
ghost use Rattle.meaning_script.specs.Reload.{stops_and};
ghost use Rattle.reload_lazy.specs.Reload.{ReloadGoes};
ghost use Rattle.reload_lazy.specs.Reloading.{called, stops_at};

use crate::reloader::{Awaited, Reloader};
use crate::waits::wait_for;
use base_types::NoMemory;
use find_load::{In, Want};
use machine_events::{Event, Reply};
use meaning_state::{Fault, Flow, Leave, raised};
use spec_core::Dotted;

/// An error is raised.
pub(crate) fn fail(p: &mut Reloader, fault: Fault) -> Result<Want, NoMemory>
    ensures goes { IfOk result (ReloadGoes (λ inside. fails fault) p.new) }
{
    let error = raised(p.module.name().alloc(), fault)?;
    Ok(Want::End(Flow::Left(Leave::Raised(error))))
}

/// The input is none that is waited for.
pub(crate) fn misfit(p: &mut Reloader, input: In) -> Result<Want, NoMemory>
    ensures goes { IfOk result (ReloadGoes (λ inside. fails faults.NotInProfile) p.new) }
{
    drop(input);
    fail(p, Fault::NotInProfile)
}

/// The reply is none that the event can have, where no reload has begun in the machine, or it is ended.
pub(crate) fn misfit_reply(p: &mut Reloader, reply: Reply) -> Result<Want, NoMemory>
    ensures goes { IfOk result (ReloadGoes (λ inside. fails faults.NotInProfile) p.new) }
{
    drop(reply);
    fail(p, Fault::NotInProfile)
}

/// The reload is ended, and then an error is raised.
pub(crate) fn stop(p: &mut Reloader, name: Dotted, fault: Fault) -> Want
    ensures goes { ReloadGoes (stops_at p.old name fault) p.new result }
{
    let mid = p.module.mid();
    let end = Want::Call(Event::ReloadEnd { mid, load: None });
    wait_for(p, name, Awaited::Stopped(fault), end)
}

/// The reload is ended, since the reply is none that the event can have.
pub(crate) fn stop_misfit(p: &mut Reloader, name: Dotted, reply: Reply) -> Want
    ensures goes { ReloadGoes (stops_at p.old name faults.NotInProfile) p.new result }
{
    drop(reply);
    stop(p, name, Fault::NotInProfile)
}

/// The reload is ended, since no file of the module was found.
pub(crate) fn stop_not_found(p: &mut Reloader, name: Dotted) -> Result<Want, NoMemory>
    ensures goes { IfOk result (ReloadGoes (stops_at p.old name (faults.NoSpec name)) p.new) }
{
    let text = name.owned()?;
    Ok(stop(p, name, Fault::NoSpec(text)))
}

/// The reload is ended, and then the leave goes on.
pub(crate) fn stop_and(p: &mut Reloader, name: Dotted, leave: Leave) -> Want
    ensures goes { ReloadGoes (λ inside. stops_and (called p.old name) (flows.Left leave)) p.new result }
{
    let mid = p.module.mid();
    let end = Want::Call(Event::ReloadEnd { mid, load: None });
    wait_for(p, name, Awaited::Left(Flow::Left(leave)), end)
}
