//! How a reload begins: a lazy module is loaded first.
ghost use Rattle.std.specs.Prelude.{◌≡◌, IfOk};
ghost use Rattle.machine_events.specs.declared.event.Reply.TheVariants as replies;
ghost use Rattle.meaning_state.specs.declared.fault.Fault.TheVariants as faults;
ghost use Rattle.find_load.specs.declared.words.In.TheVariants as ins;
ghost use Rattle.meaning_script.specs.Pieces.{fails};
ghost use Rattle.meaning_script.specs.Imports.{answers};
ghost use Rattle.meaning_script.specs.Reload.{begins, reloads};
ghost use Rattle.reload_lazy.specs.Reload.{ReloadGoes, begins_raw};
ghost use Rattle.reload_lazy.specs.Reloading.{called, does_at};
ghost use Rattle.reload_lazy.specs.declared.reloader.Awaited.TheVariants as await;

use crate::locates::read_path;
use crate::raises::{fail, misfit_reply};
use crate::reloader::{Awaited, Reloader};
use crate::waits::wait_for;
use base_types::{Exact, NoMemory};
use find_load::Want;
use machine_events::{Event, Reply};
use meaning_state::{Fault, Flow};
use py_value::{ModRef, Value};
use spec_core::Dotted;

/// The machine is asked to begin the reload.
fn ask(p: &mut Reloader, name: Dotted) -> Want
    ensures goes { ReloadGoes (λ inside. begins inside (called p.old name)) p.new result }
{
    let mid = p.module.mid();
    let begin = Want::Call(Event::ReloadBegin { mid, raw: false });
    wait_for(p, name, Awaited::Asked, begin)
}

/// The reload begins, where the module's name is a dotted one.
pub(crate) fn start(p: &mut Reloader) -> Result<Want, NoMemory>
    ensures goes { IfOk result (ReloadGoes (λ inside. reloads inside p.old.module) p.new) }
{
    match Dotted::read(p.module.name())? {
        None => fail(p, Fault::NotInProfile),
        Some(name) => Ok(ask(p, name)),
    }
}

/// Another reload of the name is running: its module is the answer.
fn answer(p: &mut Reloader, other: ModRef) -> Want
    ensures goes { ReloadGoes (λ inside. answers other) p.new result }
{
    let _ = p;
    Want::End(Flow::Went(Value::Module(other)))
}

/// The module is not the entry of its name.
fn miss(p: &mut Reloader, name: Dotted) -> Result<Want, NoMemory>
    ensures goes { IfOk result (ReloadGoes (λ inside. fails (faults.NotCached name)) p.new) }
{
    let text = name.owned()?;
    fail(p, Fault::NotCached(text))
}

/// The machine was asked to begin the reload of a module that is loaded.
pub(crate) fn begun(p: &mut Reloader, name: Dotted, reply: Reply) -> Result<Want, NoMemory>
    ensures goes { IfOk result (ReloadGoes (does_at p.old name await.AskedRaw (ins.Replied reply)) p.new) }
{
    match reply {
        Reply::Begun(epoch) => read_path(p, name, epoch),
        Reply::Busy(other) => Ok(answer(p, other)),
        Reply::NotThere => miss(p, name),
        other => misfit_reply(p, other),
    }
}

/// The module is lazy, and is loaded first.
#[tactic(auto, using(crate::proofs::Roused::rouses))]
fn rouse(p: &mut Reloader, name: Dotted) -> Result<Want, NoMemory>
    ensures goes { IfOk result (ReloadGoes (does_at p.old name await.Asked (ins.Replied replies.Sleeping)) p.new) }
{
    let place = p.module.place().copy()?;
    let module = ModRef::of(p.module.mid(), name.owned()?, place)?;
    Ok(wait_for(p, name, Awaited::Roused, Want::Rouse(module)))
}

/// The machine was asked to begin the reload of a module that may be lazy.
pub(crate) fn begin_came(p: &mut Reloader, name: Dotted, reply: Reply) -> Result<Want, NoMemory>
    ensures goes { IfOk result (ReloadGoes (does_at p.old name await.Asked (ins.Replied reply)) p.new) }
{
    match reply {
        Reply::Sleeping => rouse(p, name),
        other => begun(p, name, other),
    }
}

/// The machine is asked to begin the reload of a lazy module that was loaded.
fn ask_raw(p: &mut Reloader, name: Dotted) -> Want
    ensures goes { ReloadGoes (λ inside. begins_raw inside (called p.old name)) p.new result }
{
    let mid = p.module.mid();
    let begin = Want::Call(Event::ReloadBegin { mid, raw: true });
    wait_for(p, name, Awaited::AskedRaw, begin)
}

/// The first use of the lazy module has ended.
pub(crate) fn roused(p: &mut Reloader, name: Dotted, flow: Flow) -> Want
    ensures goes { ReloadGoes (does_at p.old name await.Roused (ins.Ended flow)) p.new result }
{
    match flow {
        Flow::Went(_) => ask_raw(p, name),
        Flow::Left(leave) => Want::End(Flow::Left(leave)),
    }
}
