//! Attributes and items (Language Reference 6.3.1 and 7.2).
ghost use Rattle.std.specs.Prelude.{◌≡◌, IfOk, true, false};
ghost use Rattle.py_value.specs.declared.value.Value.{out-Value};
ghost use Rattle.py_value.specs.declared.value.Value.TheOpen.{Value-F};
ghost use Rattle.meaning_script.specs.Meaning.{around_at};
ghost use Rattle.meaning_script.specs.Names as spec;
ghost use Rattle.py_frames.specs.Does.{Does, pieces, begins, replies};
ghost use Rattle.py_frames.specs.declared.work.Item.TheVariants as items;
ghost use Rattle.py_frames.specs.declared.replies.OnReply.TheVariants as ons;
ghost use Rattle.machine_events.specs.declared.event.Reply.TheVariants as reply_kinds;

use crate::member_paths::member_value;
use base_types::{Exact, NoMemory, Text};
use machine_events::{Event, Reply};
use meaning_state::{Fault, Thread};
use py_frames::{OnReply, Want, fail, rouse, went};
use py_value::{Kind, ModRef, Raised, Value};
use std::alloc::Global;

/// Whether an error of the kind tells the name of a module.
fn is_import_kind(kind: Kind) -> bool
    ensures { result ≡ spec.is_import_kind kind }
{
    match kind {
        Kind::ImportError | Kind::ModuleNotFoundError => true,
        _ => false,
    }
}

fn name_value(name: Option<Text>) -> Value
    ensures { result ≡ spec.name_value name }
{
    match name {
        None => Value::Nothing,
        Some(name) => Value::Text(name),
    }
}

/// An attribute of an error.
fn error_member(
    alloc: Global,
    thread: &Thread,
    error: Raised,
    name: &Text,
) -> Result<Want, NoMemory>
    ensures { IfOk result (Does thread.now (pieces (λ w d. spec.error_member error name.now) thread.now)) }
{
    if name.as_str() == "name" && is_import_kind(error.kind()) {
        return Ok(went(thread, name_value(error.name().copy()?)));
    }
    fail(alloc, thread, Fault::NotInProfile)
}

/// An attribute of a module.
fn module_member(thread: &Thread, module: ModRef, name: Text) -> Result<Want, NoMemory>
    ensures { IfOk result (Does thread.now (pieces (λ w d. spec.member_at (around_at w d).access
        (Value-F.Module «module») name) thread.now)) }
{
    let _ = thread;
    let event = Event::GetVar {
        mid: module.mid(),
        name: name.copy()?,
        raw: false,
    };
    let is_raw = false;
    Ok(Want::Call(
        event,
        OnReply::Member {
            module,
            name,
            is_raw,
        },
    ))
}

/// An attribute is to be read.
pub fn member(alloc: Global, thread: &Thread, object: Value, name: Text) -> Result<Want, NoMemory>
    ensures { IfOk result (Does thread.now (begins (items.Member object name) thread.now)) }
{
    match object {
        Value::Module(module) => module_member(thread, module, name),
        Value::Error(error) => error_member(alloc, thread, error, &name),
        other => {
            drop(other);
            fail(alloc, thread, Fault::NotInProfile)
        }
    }
}

/// The attribute of a module that is lazy, once it is loaded.
fn member_awake(
    alloc: Global,
    thread: &Thread,
    module: ModRef,
    name: Text,
) -> Result<Want, NoMemory>
    ensures { IfOk result (Does thread.now (replies (ons.Member «module» name false) reply_kinds.Sleeping thread.now)) }
{
    let read = name.copy()?;
    let lazy = module.copy()?;
    let event = Event::GetVar {
        mid: module.mid(),
        name: read,
        raw: true,
    };
    let is_raw = true;
    let reply = OnReply::Member {
        module,
        name,
        is_raw,
    };
    rouse(alloc, thread, lazy, event, reply)
}

/// The reply to the read of an attribute.
fn member_known(
    alloc: Global,
    thread: &Thread,
    module: ModRef,
    name: Text,
    reply: Reply,
) -> Result<Want, NoMemory>
    ensures { IfOk result (Does thread.now (pieces (λ w d. spec.member_read
        (around_at w d).access «module» name reply) thread.now)) }
{
    match reply {
        Reply::Value(value) => member_value(alloc, thread, module, &name, value),
        Reply::Unset(is_initialising) => fail(
            alloc,
            thread,
            Fault::NoAttribute {
                is_initialising,
                module: module.name().copy()?,
                name,
            },
        ),
        other => {
            drop(other);
            fail(alloc, thread, Fault::NotInProfile)
        }
    }
}

/// The reply to the read of an attribute, made raw or not.
pub fn member_read(
    alloc: Global,
    thread: &Thread,
    module: ModRef,
    name: Text,
    is_raw: bool,
    reply: Reply,
) -> Result<Want, NoMemory>
    ensures { IfOk result (Does thread.now (replies (ons.Member «module» name is_raw) reply thread.now)) }
{
    match reply {
        Reply::Sleeping if !is_raw => member_awake(alloc, thread, module, name),
        reply => member_known(alloc, thread, module, name, reply),
    }
}

/// The reply to a raw write.
pub fn stored(alloc: Global, thread: &Thread, reply: Reply) -> Result<Want, NoMemory>
    ensures { IfOk result (Does thread.now (replies ons.Stored reply thread.now)) }
{
    match reply {
        Reply::Done => Ok(went(thread, Value::Nothing)),
        other => {
            drop(other);
            fail(alloc, thread, Fault::NotInProfile)
        }
    }
}

/// The attribute of a module that is lazy is set, once it is loaded.
fn store_awake(
    alloc: Global,
    thread: &Thread,
    module: ModRef,
    name: Text,
    value: Value,
) -> Result<Want, NoMemory>
    ensures { IfOk result (Does thread.now (replies (ons.MemberStored «module» name value false) reply_kinds.Sleeping
        thread.now)) }
{
    let event = Event::SetVar {
        raw: true,
        mid: module.mid(),
        name,
        value,
    };
    rouse(alloc, thread, module, event, OnReply::Stored)
}

/// The reply to the write of an attribute, made raw or not.
pub fn member_stored(
    alloc: Global,
    thread: &Thread,
    module: ModRef,
    name: Text,
    value: Value,
    is_raw: bool,
    reply: Reply,
) -> Result<Want, NoMemory>
    ensures { IfOk result (Does thread.now (replies (ons.MemberStored «module» name value is_raw) reply thread.now)) }
{
    match reply {
        Reply::Sleeping if !is_raw => store_awake(alloc, thread, module, name, value),
        reply => {
            drop(module);
            drop(name);
            drop(value);
            stored(alloc, thread, reply)
        }
    }
}

/// An attribute of a module is set.
fn set_module_member(
    thread: &Thread,
    module: ModRef,
    name: Text,
    value: Value,
) -> Result<Want, NoMemory>
    ensures { IfOk result (Does thread.now (pieces (λ w d. spec.sets_member_at (around_at w d).access
        (Value-F.Module «module») name value) thread.now)) }
{
    let _ = thread;
    let event = Event::SetVar {
        raw: false,
        mid: module.mid(),
        name: name.copy()?,
        value: value.copy()?,
    };
    let is_raw = false;
    Ok(Want::Call(
        event,
        OnReply::MemberStored {
            module,
            name,
            value,
            is_raw,
        },
    ))
}

/// An attribute is set.
pub fn set_member(
    alloc: Global,
    thread: &Thread,
    object: Value,
    name: Text,
    value: Value,
) -> Result<Want, NoMemory>
    ensures { IfOk result (Does thread.now (pieces (λ w d. spec.sets_member
        (around_at w d).access object name value) thread.now)) }
{
    match object {
        Value::Module(module) => set_module_member(thread, module, name, value),
        other => {
            drop(other);
            drop(name);
            drop(value);
            fail(alloc, thread, Fault::NotInProfile)
        }
    }
}

/// An attribute of a module is deleted.
fn delete_module_member(thread: &Thread, module: ModRef, name: Text) -> Result<Want, NoMemory>
    ensures { IfOk result (Does thread.now (pieces (λ w d. spec.deletes_member_at (around_at w d).access
        (Value-F.Module «module») name) thread.now)) }
{
    let _ = thread;
    let event = Event::DelVar {
        mid: module.mid(),
        name: name.copy()?,
        raw: false,
    };
    let is_raw = false;
    Ok(Want::Call(
        event,
        OnReply::MemberDeleted {
            module,
            name,
            is_raw,
        },
    ))
}

/// An attribute is deleted.
pub fn delete_member(
    alloc: Global,
    thread: &Thread,
    object: Value,
    name: Text,
) -> Result<Want, NoMemory>
    ensures { IfOk result (Does thread.now (pieces (λ w d. spec.deletes_member
        (around_at w d).access object name) thread.now)) }
{
    match object {
        Value::Module(module) => delete_module_member(thread, module, name),
        other => {
            drop(other);
            drop(name);
            fail(alloc, thread, Fault::NotInProfile)
        }
    }
}

/// The attribute of a module that is lazy is deleted, once it is loaded.
fn delete_awake(
    alloc: Global,
    thread: &Thread,
    module: ModRef,
    name: Text,
) -> Result<Want, NoMemory>
    ensures { IfOk result (Does thread.now (replies (ons.MemberDeleted «module» name false) reply_kinds.Sleeping
        thread.now)) }
{
    let deleted = name.copy()?;
    let lazy = module.copy()?;
    let event = Event::DelVar {
        mid: module.mid(),
        name: deleted,
        raw: true,
    };
    let is_raw = true;
    let reply = OnReply::MemberDeleted {
        module,
        name,
        is_raw,
    };
    rouse(alloc, thread, lazy, event, reply)
}

/// The reply to the deletion of an attribute.
fn removed(alloc: Global, thread: &Thread, name: Text, reply: Reply) -> Result<Want, NoMemory>
    ensures { IfOk result (Does thread.now (pieces (λ w d. spec.removed name reply) thread.now)) }
{
    match reply {
        Reply::Done => Ok(went(thread, Value::Nothing)),
        Reply::Unset(_) => fail(alloc, thread, Fault::NotDeleted(name)),
        other => {
            drop(other);
            fail(alloc, thread, Fault::NotInProfile)
        }
    }
}

/// The reply to the deletion of an attribute, made raw or not.
pub fn member_deleted(
    alloc: Global,
    thread: &Thread,
    module: ModRef,
    name: Text,
    is_raw: bool,
    reply: Reply,
) -> Result<Want, NoMemory>
    ensures { IfOk result (Does thread.now (replies (ons.MemberDeleted «module» name is_raw) reply thread.now)) }
{
    match reply {
        Reply::Sleeping if !is_raw => delete_awake(alloc, thread, module, name),
        reply => {
            drop(module);
            removed(alloc, thread, name, reply)
        }
    }
}
