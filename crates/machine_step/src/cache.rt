//! TabGet, TabSet and TabDel.
ghost use Rattle.std.specs.Prelude.{◌≡◌, IfOk, OnOk, OnErr};
ghost use Rattle.machine_spec.specs.Cache.{is_fixed, tab_get, tab_set, tab_del};
ghost use Rattle.machine_events.specs.declared.module.Slot.{Slot};
ghost use Rattle.machine_spec.specs.declared.state.State.{State as S};

use base_types::{Exact, NoMemory};
use machine_events::{Reply, Slot};
use machine_spec::State;
use spec_core::Dotted;

/// TabGet: a cache entry is read.
pub fn tab_get(machine: &State, name: &Dotted) -> Result<Reply, NoMemory>
    ensures { IfOk result (λ reply. reply ≡ (tab_get machine.now name.now).0) }
{
    match machine.table.entry(name) {
        None => Ok(Reply::Slot(Slot::Absent)),
        Some(slot) => Ok(Reply::Slot(slot.copy()?)),
    }
}

/// TabSet: a cache entry is set. An `Err` changes nothing.
pub fn tab_set(machine: &mut State, name: &Dotted, slot: Slot) -> Result<Reply, NoMemory>
    ensures reply { IfOk result (λ reply. reply ≡ (tab_set machine.old name.now slot).0) }
    ensures ok { OnOk result (machine.new ≡ (tab_set machine.old name.now slot).1) }
    ensures err { OnErr result (machine.new ≡ machine.old) }
{
    if is_fixed(name) {
        return Ok(Reply::Fixed);
    }
    machine.table.set_entry(name, slot)?;
    Ok(Reply::Done)
}

/// TabDel: a cache entry is dropped.
pub fn tab_del(machine: &mut State, name: &Dotted) -> Reply
    ensures reply { result ≡ (tab_del machine.old name.now).0 }
    ensures after { machine.new ≡ (tab_del machine.old name.now).1 }
{
    if is_fixed(name) {
        return Reply::Fixed;
    }
    match machine.table.drop_entry(name) {
        None => Reply::Was(Slot::Absent),
        Some(slot) => Reply::Was(slot),
    }
}

// Whether the name is one of the modules that stand in the cache from the start.
fn is_fixed(name: &Dotted) -> bool
    ensures { result ≡ is_fixed name.now }
{
    name.text() == "sys" || name.text() == "importlib" || name.text() == "pyimport"
}

/// What TabSet would be answered.
pub fn tab_set_reply(name: &Dotted) -> Reply
    ensures { (s : S) (slot : Slot) → result ≡ (tab_set s name.now slot).0 }
{
    if is_fixed(name) {
        return Reply::Fixed;
    }
    Reply::Done
}

/// What TabDel would be answered.
pub fn tab_del_reply(machine: &State, name: &Dotted) -> Result<Reply, NoMemory>
    ensures { IfOk result (λ reply. reply ≡ (tab_del machine.now name.now).0) }
{
    if is_fixed(name) {
        return Ok(Reply::Fixed);
    }
    match machine.table.entry(name) {
        None => Ok(Reply::Was(Slot::Absent)),
        Some(slot) => Ok(Reply::Was(slot.copy()?)),
    }
}
