//! Operations on entries whose key stands for nothing else: it is tested, and then there is an event
//! where it is a name.
ghost use Rattle.std.specs.Prelude.{◌≡◌, IfOk};
ghost use Rattle.py_value.specs.declared.value.Value.{out-Value};
ghost use Rattle.meaning_script.specs.Entries as spec;
ghost use Rattle.step_sys.specs.Hashed as hashed;
ghost use Rattle.py_frames.specs.Does.{Does, pieces};

use crate::keys::{is_unhashable, key_name};
use crate::ways::{absent, lack, tell_entry};
use base_types::NoMemory;
use machine_events::{Event, Slot};
use meaning_state::{Fault, Thread};
use py_frames::{OnReply, Want, fail};
use py_value::Value;
use spec_core::Dotted;
use std::alloc::Global;

/// The entry of a key is read.
pub(crate) fn read_tested(
    alloc: Global,
    thread: &Thread,
    key: Value,
    default: Option<Value>,
) -> Result<Want, NoMemory>
    ensures { IfOk result (Does thread.now (pieces (λ w d. hashed.reads key default) thread.now)) }
{
    if is_unhashable(&key) {
        return fail(alloc, thread, Fault::Unhashable);
    }
    match key_name(&key)? {
        None => absent(alloc, thread, &key, default),
        Some(name) => Ok(Want::Call(Event::TabGet(name), OnReply::EntryFound { key, default })),
    }
}

/// It is told whether there is an entry.
pub(crate) fn has_tested(
    alloc: Global,
    thread: &Thread,
    key: &Value,
    is_negated: bool,
) -> Result<Want, NoMemory>
    ensures { IfOk result (Does thread.now (pieces (λ w d. hashed.tells is_negated key.now) thread.now)) }
{
    if is_unhashable(key) {
        return fail(alloc, thread, Fault::Unhashable);
    }
    match key_name(key)? {
        None => Ok(tell_entry(thread, is_negated, None)),
        Some(name) => Ok(Want::Call(Event::TabGet(name), OnReply::EntryTold(is_negated))),
    }
}

/// The entry of a name is set to a module or to `None`.
fn put(alloc: Global, thread: &Thread, name: Dotted, value: Value) -> Result<Want, NoMemory>
    ensures { IfOk result (Does thread.now (pieces (λ w d. spec.puts name (out-Value value)) thread.now)) }
{
    match value {
        Value::Module(module) => {
            let slot = Slot::Module(module);
            Ok(Want::Call(Event::TabSet { name, slot }, OnReply::EntrySet))
        }
        Value::Nothing => {
            let slot = Slot::Halted;
            Ok(Want::Call(Event::TabSet { name, slot }, OnReply::EntrySet))
        }
        other => {
            drop(other);
            drop(name);
            fail(alloc, thread, Fault::NotInProfile)
        }
    }
}

/// The entry of a key is set.
pub(crate) fn set_tested(
    alloc: Global,
    thread: &Thread,
    key: &Value,
    value: Value,
) -> Result<Want, NoMemory>
    ensures { IfOk result (Does thread.now (pieces (λ w d. hashed.sets key.now value) thread.now)) }
{
    if is_unhashable(key) {
        return fail(alloc, thread, Fault::Unhashable);
    }
    match key_name(key)? {
        None => fail(alloc, thread, Fault::NotInProfile),
        Some(name) => put(alloc, thread, name, value),
    }
}

/// The entry of a key is deleted.
pub(crate) fn delete_tested(alloc: Global, thread: &Thread, key: Value) -> Result<Want, NoMemory>
    ensures { IfOk result (Does thread.now (pieces (λ w d. hashed.deletes key) thread.now)) }
{
    if is_unhashable(&key) {
        return fail(alloc, thread, Fault::Unhashable);
    }
    match key_name(&key)? {
        None => lack(alloc, thread, &key),
        Some(name) => Ok(Want::Call(Event::TabDel(name), OnReply::EntryDeleted(key))),
    }
}

/// The entry of a key is taken out.
pub(crate) fn pop_tested(
    alloc: Global,
    thread: &Thread,
    key: Value,
    default: Option<Value>,
) -> Result<Want, NoMemory>
    ensures { IfOk result (Does thread.now (pieces (λ w d. hashed.pops key default) thread.now)) }
{
    if is_unhashable(&key) {
        return fail(alloc, thread, Fault::Unhashable);
    }
    match key_name(&key)? {
        None => absent(alloc, thread, &key, default),
        Some(name) => Ok(Want::Call(Event::TabDel(name), OnReply::EntryPopped { key, default })),
    }
}
