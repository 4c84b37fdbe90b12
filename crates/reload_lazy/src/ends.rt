//! How a reload ends once its body ran.
ghost use Rattle.std.specs.Prelude.{IfOk};
ghost use Rattle.meaning_state.specs.declared.fault.Fault.TheVariants as faults;
ghost use Rattle.find_load.specs.declared.words.In.TheVariants as ins;
ghost use Rattle.meaning_script.specs.Pieces.{fails};
ghost use Rattle.meaning_script.specs.Reload.{ends, kept, reloaded_entry};
ghost use Rattle.reload_lazy.specs.Reload.{ReloadGoes};
ghost use Rattle.reload_lazy.specs.Reloading.{called, does_at};
ghost use Rattle.reload_lazy.specs.declared.reloader.Awaited.TheVariants as await;

use crate::raises::{fail, misfit_reply};
use crate::reloader::{Awaited, Reloader};
use crate::waits::wait_for;
use base_types::NoMemory;
use find_load::Want;
use machine_events::{Event, Reply, Slot};
use meaning_state::{Fault, Flow};
use py_value::Value;
use spec_core::Dotted;

/// The reload is ended with its load, after the body ended so.
pub(crate) fn end(p: &mut Reloader, name: Dotted, load: u32, flow: Flow) -> Want
    ensures goes { ReloadGoes (λ inside. ends (called p.old name) load flow) p.new result }
{
    let mid = p.module.mid();
    let end = Want::Call(Event::ReloadEnd {
        mid,
        load: Some(load),
    });
    wait_for(p, name, Awaited::Ended(flow), end)
}

/// The answer is the entry that the name has then.
fn answer_entry(p: &mut Reloader, slot: Slot) -> Result<Want, NoMemory>
    ensures goes { IfOk result (ReloadGoes (λ inside. reloaded_entry slot) p.new) }
{
    match slot {
        Slot::Module(module) => Ok(Want::End(Flow::Went(Value::Module(module)))),
        Slot::Halted => Ok(Want::End(Flow::Went(Value::Nothing))),
        Slot::Absent => fail(p, Fault::NotInProfile),
    }
}

/// The entry is kept: what the body raised is raised, else the entry is the answer.
fn keep(p: &mut Reloader, slot: Slot, flow: Flow) -> Result<Want, NoMemory>
    ensures goes { IfOk result (ReloadGoes (λ inside. kept slot flow) p.new) }
{
    match flow {
        Flow::Went(_) => answer_entry(p, slot),
        Flow::Left(leave) => {
            drop(slot);
            Ok(Want::End(Flow::Left(leave)))
        }
    }
}

/// The entry of the name was dropped while the body ran.
fn lose(p: &mut Reloader, name: Dotted) -> Result<Want, NoMemory>
    ensures goes { IfOk result (ReloadGoes (λ inside. fails (faults.Lost name)) p.new) }
{
    let text = name.owned()?;
    fail(p, Fault::Lost(text))
}

/// The reload is ended, after the body ended so.
pub(crate) fn ended(
    p: &mut Reloader,
    name: Dotted,
    flow: Flow,
    reply: Reply,
) -> Result<Want, NoMemory>
    ensures goes { IfOk result (ReloadGoes (does_at p.old name (await.Ended flow) (ins.Replied reply)) p.new) }
{
    match reply {
        Reply::Kept(slot) => keep(p, slot, flow),
        Reply::Lost => {
            drop(flow);
            lose(p, name)
        }
        other => {
            drop(flow);
            misfit_reply(p, other)
        }
    }
}
