//! Operations on entries of the cache.
ghost use Rattle.std.specs.Prelude.{◌≡◌, IfOk};
ghost use Rattle.py_frames.specs.Does.{Does, begins};
ghost use Rattle.py_frames.specs.declared.work.Item.TheVariants as items;

use crate::tested::{delete_tested, has_tested, pop_tested, read_tested, set_tested};
use base_types::NoMemory;
use meaning_state::Thread;
use py_frames::{Item, Want, is_listed, list_operand};
use py_value::Value;
use std::alloc::Global;

/// The entry of a key, in whose place the default comes, if there is one.
pub fn read_entry(
    alloc: Global,
    thread: &Thread,
    key: Value,
    default: Option<Value>,
) -> Result<Want, NoMemory>
    ensures { IfOk result (Does thread.now (begins (items.ReadEntry key default) thread.now)) }
{
    if !is_listed(&key) {
        return read_tested(alloc, thread, key, default);
    }
    let again = Item::ReadEntry {
        key: Value::Nothing,
        default,
    };
    list_operand(alloc, thread, again, 0, key)
}

/// Whether a key is in the cache, or is not.
pub fn has_entry(
    alloc: Global,
    thread: &Thread,
    key: Value,
    is_negated: bool,
) -> Result<Want, NoMemory>
    ensures { IfOk result (Does thread.now (begins (items.HasEntry key is_negated) thread.now)) }
{
    if !is_listed(&key) {
        return has_tested(alloc, thread, &key, is_negated);
    }
    let again = Item::HasEntry {
        key: Value::Nothing,
        is_negated,
    };
    list_operand(alloc, thread, again, 0, key)
}

/// The entry of a key is set.
pub fn set_entry(alloc: Global, thread: &Thread, key: Value, value: Value) -> Result<Want, NoMemory>
    ensures { IfOk result (Does thread.now (begins (items.SetEntry key value) thread.now)) }
{
    if !is_listed(&key) {
        return set_tested(alloc, thread, &key, value);
    }
    let again = Item::SetEntry {
        key: Value::Nothing,
        value,
    };
    list_operand(alloc, thread, again, 0, key)
}

/// The entry of a key is deleted.
pub fn delete_entry(alloc: Global, thread: &Thread, key: Value) -> Result<Want, NoMemory>
    ensures { IfOk result (Does thread.now (begins (items.DeleteEntry key) thread.now)) }
{
    if !is_listed(&key) {
        return delete_tested(alloc, thread, key);
    }
    list_operand(alloc, thread, Item::DeleteEntry(Value::Nothing), 0, key)
}

/// The entry of a key is taken out, in whose place the default comes, if there is one.
pub fn pop_entry(
    alloc: Global,
    thread: &Thread,
    key: Value,
    default: Option<Value>,
) -> Result<Want, NoMemory>
    ensures { IfOk result (Does thread.now (begins (items.PopEntry key default) thread.now)) }
{
    if !is_listed(&key) {
        return pop_tested(alloc, thread, key, default);
    }
    let again = Item::PopEntry {
        key: Value::Nothing,
        default,
    };
    list_operand(alloc, thread, again, 0, key)
}
