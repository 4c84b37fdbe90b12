//! What the machine would answer to an event, with nothing changed.
ghost use Rattle.std.specs.Prelude.{◌≡◌, IfOk};
ghost use Rattle.machine_spec.specs.Step.{step};

use crate::{
    del_reply, dir_get, get_var, names, ns_get, path_add_reply, path_get, set_reply, tab_del_reply,
    tab_get, tab_set_reply,
};
use base_types::NoMemory;
use machine_events::{Event, Reply};
use machine_loads::{
    add_lazy_reply, add_reply, ask_reply, finish_reply, reload_begin_reply, reload_end_reply,
    reload_take_reply, rouse_reply, source, take_reply,
};
use machine_spec::State;

/// What `step` would answer to the event. It changes nothing, so that a caller that writes the
/// event down first can still refuse it.
pub fn reply(machine: &State, thread: u32, event: &Event) -> Result<Reply, NoMemory>
    ensures { IfOk result (λ reply. reply ≡ (step machine.now thread event.now).0) }
{
    match event {
        Event::GetVar { mid, name, raw } => get_var(machine, thread, *mid, name, *raw),
        Event::SetVar { mid, raw, .. } => Ok(set_reply(machine, thread, *mid, *raw)),
        _ => reply_any(machine, thread, event),
    }
}

/// `reply`, for events of every kind; apart for the reason of `step_any`.
fn reply_any(machine: &State, thread: u32, event: &Event) -> Result<Reply, NoMemory>
    ensures { IfOk result (λ reply. reply ≡ (step machine.now thread event.now).0) }
{
    match event {
        Event::Ask(name) => ask_reply(machine, thread, name),
        Event::Take(name) => take_reply(machine, thread, name),
        Event::Wake => Ok(Reply::Woken),
        Event::Add { .. } => add_reply(machine),
        Event::Finish { load, good } => finish_reply(machine, *load, *good),
        Event::Release(_) => Ok(Reply::Done),
        Event::GetVar { mid, name, raw } => get_var(machine, thread, *mid, name, *raw),
        Event::SetVar { mid, raw, .. } => Ok(set_reply(machine, thread, *mid, *raw)),
        Event::DelVar { mid, name, raw } => Ok(del_reply(machine, thread, *mid, name, *raw)),
        Event::Names(mid) => names(machine, *mid),
        Event::Source(load) => source(machine, *load),
        Event::Print(_) => Ok(Reply::Done),
        Event::PathGet => path_get(machine),
        Event::PathAdd { .. } => Ok(path_add_reply(machine)),
        Event::DirGet { dir, part } => dir_get(machine, dir, part),
        Event::DirSet { .. } => Ok(Reply::Done),
        Event::Invalidate => Ok(Reply::Done),
        Event::NsGet(mid) => ns_get(machine, *mid),
        Event::NsSet { .. } => Ok(Reply::Done),
        Event::TabGet(name) => tab_get(machine, name),
        Event::TabSet { name, .. } => Ok(tab_set_reply(name)),
        Event::TabDel(name) => tab_del_reply(machine, name),
        Event::ReloadBegin { mid, raw } => reload_begin_reply(machine, thread, *mid, *raw),
        Event::ReloadTake { mid, spec, .. } => reload_take_reply(machine, thread, *mid, spec),
        Event::ReloadEnd { mid, load } => reload_end_reply(machine, *mid, *load),
        Event::AddLazy { spec, .. } => add_lazy_reply(machine, spec),
        Event::Rouse(mid) => rouse_reply(machine, thread, *mid),
        Event::Main { .. } => Ok(Reply::Done),
        Event::End { .. } => Ok(Reply::Done),
    }
}
