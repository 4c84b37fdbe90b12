//! GetVar, SetVar, DelVar and Names.
ghost use Rattle.std.specs.Prelude.{◌≡◌, IfOk, OnOk, OnErr};
ghost use Rattle.machine_spec.specs.Variables.{get_var, set_var, del_var, names};

use base_types::{Exact, NoMemory, Seq, Text};
use machine_events::Reply;
use machine_loads::{is_built_in, sleeping};
use machine_spec::State;
use module_table::Phase;
use py_value::Value;

/// GetVar: a variable is read.
pub fn get_var(
    machine: &State,
    thread: u32,
    mid: u32,
    name: &Text,
    raw: bool,
) -> Result<Reply, NoMemory>
    ensures { IfOk result (λ reply. reply ≡ (get_var machine.now thread mid name.now raw).0) }
{
    let Some(object) = machine.table.object(mid) else {
        return Ok(Reply::Unset(false));
    };
    if sleeping(machine, thread, raw, object) {
        return Ok(Reply::Sleeping);
    }
    match object.vars.get(name) {
        None => Ok(Reply::Unset(object.phase == Phase::Initialising)),
        Some(value) => Ok(Reply::Value(value.copy()?)),
    }
}

/// SetVar: a variable is set. An `Err` changes nothing.
pub fn set_var(
    machine: &mut State,
    thread: u32,
    mid: u32,
    name: Text,
    value: Value,
    raw: bool,
) -> Result<Reply, NoMemory>
    ensures reply { IfOk result (λ reply. reply ≡ (set_var machine.old thread mid name value raw).0) }
    ensures ok { OnOk result (machine.new ≡ (set_var machine.old thread mid name value raw).1) }
    ensures err { OnErr result (machine.new ≡ machine.old) }
{
    let Some(object) = machine.table.object(mid) else {
        return Ok(Reply::Done);
    };
    if is_built_in(object.spec.kind()) {
        return Ok(Reply::Fixed);
    }
    if sleeping(machine, thread, raw, object) {
        return Ok(Reply::Sleeping);
    }
    machine.table.set(mid, name, value)?;
    Ok(Reply::Done)
}

/// DelVar: a variable is deleted.
pub fn del_var(machine: &mut State, thread: u32, mid: u32, name: &Text, raw: bool) -> Reply
    ensures reply { result ≡ (del_var machine.old thread mid name.now raw).0 }
    ensures after { machine.new ≡ (del_var machine.old thread mid name.now raw).1 }
{
    let Some(object) = machine.table.object(mid) else {
        return Reply::Done;
    };
    if is_built_in(object.spec.kind()) {
        return Reply::Fixed;
    }
    if sleeping(machine, thread, raw, object) {
        return Reply::Sleeping;
    }
    if object.vars.get(name).is_none() {
        return Reply::Unset(object.phase == Phase::Initialising);
    }
    drop(machine.table.del(mid, name));
    Reply::Done
}

/// Names: the names of a module's variables.
pub fn names(machine: &State, mid: u32) -> Result<Reply, NoMemory>
    ensures { IfOk result (λ reply. reply ≡ (names machine.now mid).0) }
{
    let Some(object) = machine.table.object(mid) else {
        return Ok(Reply::Names(Seq::new(machine.table.alloc())));
    };
    Ok(Reply::Names(object.vars.names()?))
}
