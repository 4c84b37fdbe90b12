//! What comes by whether there is an entry.
ghost use Rattle.std.specs.Prelude.{◌≡◌, IfOk};
ghost use Rattle.py_value.specs.declared.value.Value.{out-Value};
ghost use Rattle.meaning_script.specs.Entries as spec;
ghost use Rattle.py_frames.specs.Does.{Does, pieces};

use base_types::{NoMemory, Text};
use machine_events::Slot;
use meaning_state::{Fault, Thread};
use py_frames::{Want, fail, went};
use py_value::{Applied, Kind, Raised, Value};
use std::alloc::Global;
use value_texts::repr_of;

/// The value of an entry, if there is one.
pub(crate) fn entry_value(slot: Slot) -> Option<Value>
    ensures { result ≡ spec.entry_value slot }
{
    match slot {
        Slot::Absent => None,
        Slot::Halted => Some(Value::Nothing),
        Slot::Module(module) => Some(Value::Module(module)),
    }
}

fn text_or_none(alloc: Global, value: Value) -> Text
    ensures { result ≡ spec.text_or_none (out-Value value) }
{
    match value {
        Value::Text(text) => text,
        other => {
            drop(other);
            Text::new(alloc)
        }
    }
}

/// The error that tells a key.
fn key_error(alloc: Global, thread: &Thread, applied: Applied) -> Result<Want, NoMemory>
    ensures { IfOk result (Does thread.now (pieces (λ w d. spec.key_error applied) thread.now)) }
{
    let error = match applied {
        Applied::Value(value) => Raised::of(Kind::KeyError, text_or_none(alloc, value), None)?,
        Applied::Raised(error) => error,
    };
    fail(alloc, thread, Fault::Given(error))
}

/// There is no entry of the key.
pub(crate) fn lack(alloc: Global, thread: &Thread, key: &Value) -> Result<Want, NoMemory>
    ensures { IfOk result (Does thread.now (pieces (λ w d. spec.lacks key.now) thread.now)) }
{
    let applied = repr_of(alloc, key)?;
    key_error(alloc, thread, applied)
}

/// What comes in place of an entry.
pub(crate) fn absent(
    alloc: Global,
    thread: &Thread,
    key: &Value,
    default: Option<Value>,
) -> Result<Want, NoMemory>
    ensures { IfOk result (Does thread.now (pieces (λ w d. spec.absent key.now default) thread.now)) }
{
    match default {
        Some(value) => Ok(went(thread, value)),
        None => lack(alloc, thread, key),
    }
}

/// An entry, or what comes in its place.
pub(crate) fn entry_or(
    alloc: Global,
    thread: &Thread,
    key: &Value,
    default: Option<Value>,
    entry: Option<Value>,
) -> Result<Want, NoMemory>
    ensures { IfOk result (Does thread.now (pieces (λ w d. spec.entry_or key.now default entry) thread.now)) }
{
    match entry {
        None => absent(alloc, thread, key, default),
        Some(value) => {
            drop(default);
            Ok(went(thread, value))
        }
    }
}

/// Whether there is an entry, or is none.
pub(crate) fn tell_entry(thread: &Thread, is_negated: bool, entry: Option<Value>) -> Want
    ensures { Does thread.now (pieces (λ w d. spec.tells_entry is_negated entry) thread.now) result }
{
    match entry {
        None => went(thread, Value::Bool(is_negated)),
        Some(value) => {
            drop(value);
            went(thread, Value::Bool(!is_negated))
        }
    }
}

/// An entry was deleted, if there was one.
pub(crate) fn dropped(
    alloc: Global,
    thread: &Thread,
    key: &Value,
    entry: Option<Value>,
) -> Result<Want, NoMemory>
    ensures { IfOk result (Does thread.now (pieces (λ w d. spec.dropped key.now entry) thread.now)) }
{
    match entry {
        None => lack(alloc, thread, key),
        Some(value) => {
            drop(value);
            Ok(went(thread, Value::Nothing))
        }
    }
}
