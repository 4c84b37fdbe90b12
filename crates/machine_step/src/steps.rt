//! One event of one thread.
ghost use Rattle.std.specs.Prelude.{◌≡◌, IfOk, OnOk, OnErr, IsTrue};
ghost use Rattle.machine_spec.specs.Step.{step};
ghost use Rattle.machine_spec.specs.Allowed.{allowed};

use crate::{
    del_var, dir_get, dir_set, get_var, invalidate, names, ns_get, ns_set, path_add, path_get,
    set_var, tab_del, tab_get, tab_set,
};
use base_types::{Exact, NoMemory};
use machine_events::{Event, Reply};
use machine_loads::{
    add, add_lazy, ask, end_thread, finish, release, reload_begin, reload_end, reload_take, rouse,
    set_main, source, take, wake,
};
use machine_spec::State;

/// One event of one thread. An `Err` changes nothing.
pub fn step(machine: &mut State, thread: u32, event: Event) -> Result<Reply, NoMemory>
    requires { IsTrue (allowed machine.old thread event) }
    ensures reply { IfOk result (λ reply. reply ≡ (step machine.old thread event).0) }
    ensures ok { OnOk result (machine.new ≡ (step machine.old thread event).1) }
    ensures err { OnErr result (machine.new ≡ machine.old) }
{
    match event {
        Event::GetVar { mid, name, raw } => get_var(machine, thread, mid, &name, raw),
        Event::SetVar {
            raw,
            mid,
            name,
            value,
        } => set_var(machine, thread, mid, name, value, raw),
        other => step_any(machine, thread, other),
    }
}

/// `step`, for events of every kind. It stands apart since a call clears the places of all locals
/// of its function, and variables are read and set far more often than all else is done.
fn step_any(machine: &mut State, thread: u32, event: Event) -> Result<Reply, NoMemory>
    requires { IsTrue (allowed machine.old thread event) }
    ensures reply { IfOk result (λ reply. reply ≡ (step machine.old thread event).0) }
    ensures ok { OnOk result (machine.new ≡ (step machine.old thread event).1) }
    ensures err { OnErr result (machine.new ≡ machine.old) }
{
    match event {
        Event::Ask(name) => ask(machine, thread, name),
        Event::Take(name) => take(machine, thread, name),
        Event::Wake => Ok(wake(machine, thread)),
        Event::Add { spec, text } => add(machine, thread, spec, text),
        Event::Finish { load, good } => finish(machine, thread, load, good),
        Event::Release(name) => Ok(release(machine, thread, &name)),
        Event::GetVar { mid, name, raw } => get_var(machine, thread, mid, &name, raw),
        Event::SetVar {
            raw,
            mid,
            name,
            value,
        } => set_var(machine, thread, mid, name, value, raw),
        Event::DelVar { mid, name, raw } => Ok(del_var(machine, thread, mid, &name, raw)),
        Event::Names(mid) => names(machine, mid),
        Event::Source(load) => source(machine, load),
        Event::Print(_) => Ok(Reply::Done),
        Event::PathGet => path_get(machine),
        Event::PathAdd { at, value } => path_add(machine, at, value.get().copy()?),
        Event::DirGet { dir, part } => dir_get(machine, &dir, &part),
        Event::DirSet { dir, listing } => dir_set(machine, dir, listing.get().copy()?),
        Event::Invalidate => invalidate(machine),
        Event::NsGet(mid) => ns_get(machine, mid),
        Event::NsSet { mid, state } => Ok(ns_set(machine, mid, state)),
        Event::TabGet(name) => tab_get(machine, &name),
        Event::TabSet { name, slot } => tab_set(machine, &name, slot),
        Event::TabDel(name) => Ok(tab_del(machine, &name)),
        Event::ReloadBegin { mid, raw } => reload_begin(machine, thread, mid, raw),
        Event::ReloadTake { mid, spec, text } => reload_take(machine, thread, mid, spec, text),
        Event::ReloadEnd { mid, load } => reload_end(machine, thread, mid, load),
        Event::AddLazy { spec, text } => add_lazy(machine, thread, spec, text),
        Event::Rouse(mid) => rouse(machine, thread, mid),
        Event::Main { spec, text } => set_main(machine, thread, &spec, text),
        Event::End { .. } => end_thread(machine, thread),
    }
}
