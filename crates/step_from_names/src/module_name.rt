//! A name of a module for an import: its variable, else its submodule, which may stand in the cache alone.
ghost use Rattle.std.specs.Prelude.{◌≡◌, IfOk, false};
ghost use Rattle.meaning_script.specs.ImportStatements.{entry_taken, looks_up, name_read, namespace_taken, taken_value};
ghost use Rattle.meaning_script.specs.Meaning.{around_at};
ghost use Rattle.py_frames.specs.Does.{Does, begins, pieces, replies};
ghost use Rattle.py_frames.specs.declared.replies.OnReply.TheVariants as ons;
ghost use Rattle.py_frames.specs.declared.work.Item.TheVariants as items;
ghost use Rattle.machine_events.specs.declared.event.Reply.TheVariants as kinds;

use base_types::{Exact, NoMemory, Text};
use machine_events::{Event, Reply, Slot};
use meaning_state::{Fault, Thread};
use py_frames::{OnReply, Want, fail, is_namespace_path, joined_name, replace, rouse, went};
use py_value::{ModRef, Value};
use spec_core::Dotted;
use std::alloc::Global;

/// A name of a module is read.
pub fn begin_from_module(
    thread: &Thread,
    module: ModRef,
    name: Text,
    is_bound: bool,
) -> Result<Want, NoMemory>
    ensures { IfOk result (Does thread.now (begins (items.FromModule «module» name is_bound) thread.now)) }
{
    let _ = thread;
    let event = Event::GetVar {
        mid: module.mid(),
        name: name.copy()?,
        raw: false,
    };
    let on = OnReply::FromModule {
        module,
        name,
        is_bound,
        is_raw: false,
    };
    Ok(Want::Call(event, on))
}

/// The path of a namespace has a list in its place where it is bound; it is no module with further parts.
fn take_namespace(
    alloc: Global,
    thread: &Thread,
    module: ModRef,
    name: &Text,
    is_bound: bool,
) -> Result<Want, NoMemory>
    ensures { IfOk result (Does thread.now (pieces (λ w d. namespace_taken
        (around_at w d) is_bound «module» name.now) thread.now)) }
{
    if is_bound {
        return replace(alloc, thread, module.mid(), module.name().copy()?, name);
    }
    drop(module);
    fail(alloc, thread, Fault::NotInProfile)
}

/// The name has this value.
fn take_value(
    alloc: Global,
    thread: &Thread,
    module: ModRef,
    name: &Text,
    is_bound: bool,
    value: Value,
) -> Result<Want, NoMemory>
    ensures { IfOk result (Does thread.now (pieces (λ w d. taken_value
        (around_at w d) is_bound «module» name.now value) thread.now)) }
{
    if is_namespace_path(&value) {
        drop(value);
        return take_namespace(alloc, thread, module, name, is_bound);
    }
    drop(module);
    Ok(went(thread, value))
}

/// The name is not set: the cache is asked for the submodule.
fn look_up(
    alloc: Global,
    thread: &Thread,
    module: ModRef,
    name: Text,
    is_initialising: bool,
) -> Result<Want, NoMemory>
    ensures { IfOk result (Does thread.now (pieces (λ w d. looks_up «module» name is_initialising) thread.now)) }
{
    let full = joined_name(module.name(), &name)?;
    let Some(entry) = Dotted::read(&full)? else {
        return fail(alloc, thread, Fault::NotInProfile);
    };
    let on = OnReply::Entry {
        module,
        name,
        is_initialising,
    };
    Ok(Want::Call(Event::TabGet(entry), on))
}

/// What was read under the name, once the module is awake.
fn take_name(
    alloc: Global,
    thread: &Thread,
    module: ModRef,
    name: Text,
    is_bound: bool,
    reply: Reply,
) -> Result<Want, NoMemory>
    ensures { IfOk result (Does thread.now (pieces (λ w d. name_read
        (around_at w d) is_bound «module» name reply) thread.now)) }
{
    match reply {
        Reply::Value(value) => take_value(alloc, thread, module, &name, is_bound, value),
        Reply::Unset(is_initialising) => look_up(alloc, thread, module, name, is_initialising),
        other => {
            drop(other);
            fail(alloc, thread, Fault::NotInProfile)
        }
    }
}

/// The name is read of a module that was asleep, once that is loaded.
fn wake_for_name(
    alloc: Global,
    thread: &Thread,
    module: ModRef,
    name: Text,
    is_bound: bool,
) -> Result<Want, NoMemory>
    ensures { IfOk result (Does thread.now (replies (ons.FromModule «module» name is_bound false) kinds.Sleeping
        thread.now)) }
{
    let read = name.copy()?;
    let lazy = module.copy()?;
    let event = Event::GetVar {
        mid: module.mid(),
        name: read,
        raw: true,
    };
    let on = OnReply::FromModule {
        module,
        name,
        is_bound,
        is_raw: true,
    };
    rouse(alloc, thread, lazy, event, on)
}

/// The reply to the read of a name of a module, made raw or not.
pub fn replied_from_module(
    alloc: Global,
    thread: &Thread,
    module: ModRef,
    name: Text,
    is_bound: bool,
    is_raw: bool,
    reply: Reply,
) -> Result<Want, NoMemory>
    ensures { IfOk result (Does thread.now (replies (ons.FromModule «module» name is_bound is_raw) reply thread.now)) }
{
    match reply {
        Reply::Sleeping if !is_raw => wake_for_name(alloc, thread, module, name, is_bound),
        reply => take_name(alloc, thread, module, name, is_bound, reply),
    }
}

/// What the cache has for the submodule.
fn take_entry(
    alloc: Global,
    thread: &Thread,
    module: ModRef,
    name: Text,
    is_initialising: bool,
    slot: Slot,
) -> Result<Want, NoMemory>
    ensures { IfOk result (Does thread.now (pieces (λ w d. entry_taken «module» name is_initialising slot)
        thread.now)) }
{
    match slot {
        Slot::Module(found) => Ok(went(thread, Value::Module(found))),
        Slot::Halted => Ok(went(thread, Value::Nothing)),
        Slot::Absent => fail(
            alloc,
            thread,
            Fault::CannotImport {
                is_initialising,
                module: module.name().copy()?,
                place: module.place().copy()?,
                name,
            },
        ),
    }
}

/// The reply to the look into the cache.
pub fn replied_entry(
    alloc: Global,
    thread: &Thread,
    module: ModRef,
    name: Text,
    is_initialising: bool,
    reply: Reply,
) -> Result<Want, NoMemory>
    ensures { IfOk result (Does thread.now (replies (ons.Entry «module» name is_initialising) reply thread.now)) }
{
    match reply {
        Reply::Slot(slot) => take_entry(alloc, thread, module, name, is_initialising, slot),
        other => {
            drop(other);
            fail(alloc, thread, Fault::NotInProfile)
        }
    }
}
