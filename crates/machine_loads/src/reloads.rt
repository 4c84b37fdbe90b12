//! ReloadBegin, ReloadTake and ReloadEnd.
ghost use Rattle.std.specs.Prelude.{◌≡◌, IfOk, OnOk, OnErr, None, IsTrue, slice_get};
ghost use Rattle.module_lock.specs.Table.{is_free};
ghost use Rattle.machine_spec.specs.Reloads.{is_entry, busy_of, enter, reload_begin, reload_start, reload_take, kept_or_lost, reload_leave, reload_end};
ghost use Rattle.std.specs.FinMap as maps;

use crate::{is_built_in, sleeping, wait_or};
use base_types::{Exact, NoMemory, Seq};
use machine_events::{Reply, Slot, module_of};
use machine_spec::State;
use module_table::{Load, LoadKind, LoadStage};
use spec_core::{Dotted, Spec};

/// Whether the cache has the module at the name.
pub(crate) fn is_entry(machine: &State, mid: u32, name: &Dotted) -> bool
    ensures { result ≡ is_entry mid (maps.get machine.now.table.cache name.now) }
{
    match machine.table.entry(name) {
        Some(Slot::Module(module)) => module.mid() == mid,
        _ => false,
    }
}

/// The module whose reload keeps a name busy.
pub(crate) fn busy(machine: &State, mid: u32) -> Result<Reply, NoMemory>
    ensures { IfOk result (λ reply. reply ≡ busy_of mid (slice_get machine.now.table.objects mid)) }
{
    match machine.table.object(mid) {
        None => Ok(Reply::NotThere),
        Some(object) => Ok(Reply::Busy(module_of(&object.spec, mid)?)),
    }
}

fn enter(machine: &mut State, thread: u32, mid: u32, name: &Dotted) -> Result<Reply, NoMemory>
    ensures reply { IfOk result (λ reply. reply ≡ (enter machine.old thread mid name.now
        (maps.get machine.old.table.reloading name.now)).0) }
    ensures ok { OnOk result (machine.new ≡ (enter machine.old thread mid name.now
        (maps.get machine.old.table.reloading name.now)).1) }
    ensures err { OnErr result (machine.new ≡ machine.old) }
{
    match machine.table.reloading(name) {
        Some(reload) => busy(machine, reload.mid),
        None => {
            machine.table.reload_enter(name, thread, mid)?;
            Ok(Reply::Begun(machine.table.epoch()))
        }
    }
}

/// ReloadBegin: a reload begins. An `Err` changes nothing.
pub fn reload_begin(
    machine: &mut State,
    thread: u32,
    mid: u32,
    raw: bool,
) -> Result<Reply, NoMemory>
    ensures reply { IfOk result (λ reply. reply ≡ (reload_begin machine.old thread mid raw).0) }
    ensures ok { OnOk result (machine.new ≡ (reload_begin machine.old thread mid raw).1) }
    ensures err { OnErr result (machine.new ≡ machine.old) }
{
    let Some(object) = machine.table.object(mid) else {
        return Ok(Reply::NotThere);
    };
    if is_built_in(object.spec.kind()) {
        return Ok(Reply::Fixed);
    }
    if sleeping(machine, thread, raw, object) {
        return Ok(Reply::Sleeping);
    }
    if !is_entry(machine, mid, object.spec.name()) {
        return Ok(Reply::NotThere);
    }
    let name = object.spec.name().copy()?;
    enter(machine, thread, mid, &name)
}

fn reload_start(
    machine: &mut State,
    thread: u32,
    mid: u32,
    spec: &Spec,
    text: Seq<u8>,
) -> Result<Reply, NoMemory>
    requires waits { maps.get machine.old.locks.waits thread ≡ None }
    requires free { IsTrue (is_free machine.old.locks thread spec.now.name) }
    ensures reply { IfOk result (λ reply. reply ≡ (reload_start machine.old thread mid spec.now text).0) }
    ensures ok { OnOk result (machine.new ≡ (reload_start machine.old thread mid spec.now text).1) }
    ensures err { OnErr result (machine.new ≡ machine.old) }
{
    let name = spec.name().copy()?;
    let restart = machine.table.restart_of(mid, spec)?;
    let load = machine.table.add_load(Load {
        kind: LoadKind::Reload,
        thread,
        mid,
        text,
        stage: LoadStage::Open,
    })?;
    match machine.locks.take_free(thread, name) {
        Ok(()) => {
            machine.table.restart(mid, restart, spec.name(), load);
            Ok(Reply::Load(load, mid))
        }
        Err(e) => {
            machine.table.drop_load();
            Err(e)
        }
    }
}

/// ReloadTake: the body of a reload begins. An `Err` changes nothing.
pub fn reload_take(
    machine: &mut State,
    thread: u32,
    mid: u32,
    spec: Spec,
    text: Seq<u8>,
) -> Result<Reply, NoMemory>
    requires { maps.get machine.old.locks.waits thread ≡ None }
    ensures reply { IfOk result (λ reply. reply ≡ (reload_take machine.old thread mid spec text).0) }
    ensures ok { OnOk result (machine.new ≡ (reload_take machine.old thread mid spec text).1) }
    ensures err { OnErr result (machine.new ≡ machine.old) }
{
    if !machine.locks.is_free(thread, spec.name()) {
        let name = spec.name().copy()?;
        return wait_or(&mut machine.locks, thread, name, Reply::Deadlock);
    }
    if !is_entry(machine, mid, spec.name()) {
        return Ok(Reply::NotThere);
    }
    reload_start(machine, thread, mid, &spec, text)
}

/// How a load ended, by the cache's entry at its name.
pub(crate) fn kept_or_lost(machine: &State, name: &Dotted) -> Result<Reply, NoMemory>
    ensures { IfOk result (λ reply. reply ≡ kept_or_lost (maps.get machine.now.table.cache name.now)) }
{
    match machine.table.entry(name) {
        None => Ok(Reply::Lost),
        Some(slot) => Ok(Reply::Kept(slot.copy()?)),
    }
}

fn reload_leave(
    machine: &mut State,
    thread: u32,
    name: &Dotted,
    load: Option<u32>,
) -> Result<Reply, NoMemory>
    ensures reply { IfOk result (λ reply. reply ≡ (reload_leave machine.old thread name.now load).0) }
    ensures ok { OnOk result (machine.new ≡ (reload_leave machine.old thread name.now load).1) }
    ensures err { OnErr result (machine.new ≡ machine.old) }
{
    match load {
        None => {
            machine.table.reload_leave(name);
            Ok(Reply::Done)
        }
        Some(load) => {
            let reply = kept_or_lost(machine, name)?;
            machine.table.reload_leave(name);
            machine.table.end_load(load);
            machine.locks.give(thread, name);
            Ok(reply)
        }
    }
}

/// ReloadEnd: a reload ends. An `Err` changes nothing.
pub fn reload_end(
    machine: &mut State,
    thread: u32,
    mid: u32,
    load: Option<u32>,
) -> Result<Reply, NoMemory>
    ensures reply { IfOk result (λ reply. reply ≡ (reload_end machine.old thread mid load).0) }
    ensures ok { OnOk result (machine.new ≡ (reload_end machine.old thread mid load).1) }
    ensures err { OnErr result (machine.new ≡ machine.old) }
{
    let Some(object) = machine.table.object(mid) else {
        return Ok(Reply::Done);
    };
    let name = object.spec.name().copy()?;
    reload_leave(machine, thread, &name, load)
}
