//! Replies to events on the cache.
ghost use Rattle.std.specs.Prelude.{◌≡◌, IfOk};
ghost use Rattle.py_frames.specs.Does.{Does, replies};
ghost use Rattle.py_frames.specs.declared.replies.OnReply.TheVariants as ons;

use crate::ways::{dropped, entry_or, entry_value, tell_entry};
use base_types::NoMemory;
use machine_events::Reply;
use meaning_state::{Fault, Thread};
use py_frames::{Want, fail, went};
use py_value::Value;
use std::alloc::Global;

/// The entry of a key was read.
pub fn entry_found(
    alloc: Global,
    thread: &Thread,
    key: Value,
    default: Option<Value>,
    reply: Reply,
) -> Result<Want, NoMemory>
    ensures { IfOk result (Does thread.now (replies (ons.EntryFound key default) reply thread.now)) }
{
    match reply {
        Reply::Slot(slot) => entry_or(alloc, thread, &key, default, entry_value(slot)),
        other => {
            drop(other);
            drop(key);
            drop(default);
            fail(alloc, thread, Fault::NotInProfile)
        }
    }
}

/// Whether a key is in the cache was read.
pub fn entry_told(
    alloc: Global,
    thread: &Thread,
    is_negated: bool,
    reply: Reply,
) -> Result<Want, NoMemory>
    ensures { IfOk result (Does thread.now (replies (ons.EntryTold is_negated) reply thread.now)) }
{
    match reply {
        Reply::Slot(slot) => Ok(tell_entry(thread, is_negated, entry_value(slot))),
        other => {
            drop(other);
            fail(alloc, thread, Fault::NotInProfile)
        }
    }
}

/// An entry was set.
pub fn entry_set(alloc: Global, thread: &Thread, reply: Reply) -> Result<Want, NoMemory>
    ensures { IfOk result (Does thread.now (replies ons.EntrySet reply thread.now)) }
{
    match reply {
        Reply::Done => Ok(went(thread, Value::Nothing)),
        other => {
            drop(other);
            fail(alloc, thread, Fault::NotInProfile)
        }
    }
}

/// The entry of a key was deleted.
pub fn entry_deleted(
    alloc: Global,
    thread: &Thread,
    key: Value,
    reply: Reply,
) -> Result<Want, NoMemory>
    ensures { IfOk result (Does thread.now (replies (ons.EntryDeleted key) reply thread.now)) }
{
    match reply {
        Reply::Was(slot) => dropped(alloc, thread, &key, entry_value(slot)),
        other => {
            drop(other);
            drop(key);
            fail(alloc, thread, Fault::NotInProfile)
        }
    }
}

/// The entry of a key was taken out.
pub fn entry_popped(
    alloc: Global,
    thread: &Thread,
    key: Value,
    default: Option<Value>,
    reply: Reply,
) -> Result<Want, NoMemory>
    ensures { IfOk result (Does thread.now (replies (ons.EntryPopped key default) reply thread.now)) }
{
    match reply {
        Reply::Was(slot) => entry_or(alloc, thread, &key, default, entry_value(slot)),
        other => {
            drop(other);
            drop(key);
            drop(default);
            fail(alloc, thread, Fault::NotInProfile)
        }
    }
}
