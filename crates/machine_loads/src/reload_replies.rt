//! What events of reloads and lazy modules would be answered.
ghost use Rattle.std.specs.Prelude.{◌≡◌, ℕ, List, Option, IfOk, length};
ghost use Rattle.machine_events.specs.Modules.{module_of};
ghost use Rattle.machine_spec.specs.Lazies.{rouse, rouse_lazy};
ghost use Rattle.machine_spec.specs.Reloads.{enter, reload_begin, reload_take, reload_end};
ghost use Rattle.std.specs.FinMap as maps;
ghost use Rattle.machine_events.specs.declared.event.Reply.TheVariants as replies;

use crate::reloads::{busy, is_entry, kept_or_lost};
use crate::{is_built_in, sleeping, wait_reply};
use base_types::{Exact, NoMemory};
use machine_events::{Reply, module_of};
use machine_spec::State;
use module_table::Phase;
use spec_core::{Dotted, Spec};

fn enter_reply(machine: &State, name: &Dotted) -> Result<Reply, NoMemory>
    ensures { (thread mid : ℕ) → IfOk result (λ reply. reply
        ≡ (enter machine.now thread mid name.now (maps.get machine.now.table.reloading name.now)).0) }
{
    match machine.table.reloading(name) {
        Some(reload) => busy(machine, reload.mid),
        None => Ok(Reply::Begun(machine.table.epoch())),
    }
}

/// What ReloadBegin would be answered.
pub fn reload_begin_reply(
    machine: &State,
    thread: u32,
    mid: u32,
    raw: bool,
) -> Result<Reply, NoMemory>
    ensures { IfOk result (λ reply. reply ≡ (reload_begin machine.now thread mid raw).0) }
{
    let Some(object) = machine.table.object(mid) else {
        return Ok(Reply::NotThere);
    };
    if is_built_in(object.spec.kind()) {
        return Ok(Reply::Fixed);
    }
    if sleeping(machine, thread, raw, object) {
        return Ok(Reply::Sleeping);
    }
    if !is_entry(machine, mid, object.spec.name()) {
        return Ok(Reply::NotThere);
    }
    enter_reply(machine, object.spec.name())
}

fn reload_start_reply(machine: &State, mid: u32) -> Result<Reply, NoMemory>
    ensures { IfOk result (λ reply. reply ≡ replies.Load (length machine.now.table.loads) mid) }
{
    let Ok(load) = u32::try_from(machine.table.loads()) else {
        return Err(NoMemory);
    };
    Ok(Reply::Load(load, mid))
}

/// What ReloadTake would be answered.
pub fn reload_take_reply(
    machine: &State,
    thread: u32,
    mid: u32,
    spec: &Spec,
) -> Result<Reply, NoMemory>
    ensures { (text : List ℕ) → IfOk result (λ reply. reply ≡ (reload_take machine.now thread mid spec.now text).0) }
{
    if !machine.locks.is_free(thread, spec.name()) {
        return wait_reply(&machine.locks, thread, spec.name(), Reply::Deadlock);
    }
    if !is_entry(machine, mid, spec.name()) {
        return Ok(Reply::NotThere);
    }
    reload_start_reply(machine, mid)
}

/// What ReloadEnd would be answered.
pub fn reload_end_reply(machine: &State, mid: u32, load: Option<u32>) -> Result<Reply, NoMemory>
    ensures { (thread : ℕ) → IfOk result (λ reply. reply ≡ (reload_end machine.now thread mid load).0) }
{
    let Some(object) = machine.table.object(mid) else {
        return Ok(Reply::Done);
    };
    match load {
        None => Ok(Reply::Done),
        Some(_) => kept_or_lost(machine, object.spec.name()),
    }
}

/// The next object as a module of the spec.
pub fn add_lazy_reply(machine: &State, spec: &Spec) -> Result<Reply, NoMemory>
    ensures { IfOk result (λ reply. reply ≡ replies.Module (module_of spec.now (length machine.now.table.objects))) }
{
    let Ok(mid) = u32::try_from(machine.table.objects()) else {
        return Err(NoMemory);
    };
    Ok(Reply::Module(module_of(spec, mid)?))
}

fn rouse_lazy_reply(
    machine: &State,
    thread: u32,
    name: &Dotted,
    load: Option<u32>,
) -> Result<Reply, NoMemory>
    ensures { (mid : ℕ) → IfOk result (λ reply. reply ≡ (rouse_lazy machine.now thread mid name.now load).0) }
{
    let Some(load) = load else {
        return Ok(Reply::Ready);
    };
    if !machine.locks.is_free(thread, name) {
        return wait_reply(&machine.locks, thread, name, Reply::Deadlock);
    }
    match machine.table.find_load(load) {
        None => Ok(Reply::Ready),
        Some(body) => Ok(Reply::Yours(load, body.text.copy()?)),
    }
}

/// What Rouse would be answered.
pub fn rouse_reply(machine: &State, thread: u32, mid: u32) -> Result<Reply, NoMemory>
    ensures { IfOk result (λ reply. reply ≡ (rouse machine.now thread mid).0) }
{
    let Some(object) = machine.table.object(mid) else {
        return Ok(Reply::Ready);
    };
    match object.phase {
        Phase::Ready => Ok(Reply::Ready),
        Phase::Initialising => {
            if machine.locks.owns(thread, object.spec.name()) {
                return Ok(Reply::Ready);
            }
            let module = module_of(&object.spec, mid)?;
            wait_reply(
                &machine.locks,
                thread,
                object.spec.name(),
                Reply::Cycle(module),
            )
        }
        Phase::Lazy => rouse_lazy_reply(machine, thread, object.spec.name(), object.load),
    }
}
