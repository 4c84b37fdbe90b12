//! Names (Language Reference 4.2.2).
ghost use Rattle.std.specs.Prelude.{◌≡◌, IfOk, true};
ghost use Rattle.meaning_script.specs.Meaning.{around_at};
ghost use Rattle.meaning_script.specs.Names as spec;
ghost use Rattle.meaning_script.specs.Pieces as words;
ghost use Rattle.py_frames.specs.Does.{Does, pieces, begins, replies};
ghost use Rattle.py_frames.specs.declared.work.Item.TheVariants as items;
ghost use Rattle.py_frames.specs.declared.replies.OnReply.TheVariants as ons;

use crate::built_ins::built_in;
use crate::locals::{is_local_name, local_value, set_local, unset_local};
use crate::paths::replace_own;
use base_types::{Exact, NoMemory, Text};
use machine_events::{Event, Reply};
use meaning_state::{Fault, Flow, Thread};
use py_frames::{Frame, Item, OnReply, Want, fail, is_namespace_path, sized, went};
use py_value::Value;
use std::alloc::Global;

/// A variable's value.
fn variable(alloc: Global, thread: &Thread, name: &Text, value: Value) -> Result<Want, NoMemory>
    ensures { IfOk result (Does thread.now (pieces (λ w d. spec.variable
        (around_at w d).access name.now value) thread.now)) }
{
    if is_namespace_path(&value) {
        drop(value);
        return replace_own(alloc, thread, name);
    }
    Ok(went(thread, value))
}

/// A variable of the module is to be read.
pub fn read_global(thread: &Thread, name: Text) -> Result<Want, NoMemory>
    ensures { IfOk result (Does thread.now (begins (items.ReadGlobal name) thread.now)) }
{
    let event = Event::GetVar {
        mid: thread.state.scope.mid,
        name: name.copy()?,
        raw: true,
    };
    Ok(Want::Call(event, OnReply::Global(name)))
}

/// A name that is no variable.
fn read_built_in(alloc: Global, thread: &Thread, name: Text) -> Result<Want, NoMemory>
    ensures { IfOk result (Does thread.now (pieces (λ w d. spec.read_built_in (spec.built_in name) name) thread.now)) }
{
    match built_in(name.as_str()) {
        Some(value) => Ok(went(thread, value)),
        None => fail(alloc, thread, Fault::NotDefined(name)),
    }
}

/// The reply to the read of a variable.
pub fn global(alloc: Global, thread: &Thread, name: Text, reply: Reply) -> Result<Want, NoMemory>
    ensures { IfOk result (Does thread.now (replies (ons.Global name) reply thread.now)) }
{
    match reply {
        Reply::Value(value) => variable(alloc, thread, &name, value),
        Reply::Unset(_) => read_built_in(alloc, thread, name),
        other => {
            drop(other);
            fail(alloc, thread, Fault::NotInProfile)
        }
    }
}

/// A name is bound to a value.
pub fn store(thread: &mut Thread, name: Text, value: Value) -> Result<Want, NoMemory>
    ensures { IfOk result (Does thread.new (begins (items.Store name value) thread.old)) }
{
    if is_local_name(thread, &name) {
        set_local(thread, name, value)?;
        return Ok(Want::Go(Flow::Went(Value::Nothing)));
    }
    let event = Event::SetVar {
        raw: true,
        mid: thread.state.scope.mid,
        name,
        value,
    };
    Ok(Want::Call(event, OnReply::Stored))
}

/// A name is deleted.
pub fn delete_name(alloc: Global, thread: &mut Thread, name: Text) -> Result<Want, NoMemory>
    ensures { IfOk result (Does thread.new (pieces (λ w d. spec.deletes name) thread.old)) }
{
    if is_local_name(thread, &name) {
        return match local_value(thread, &name)? {
            None => fail(alloc, thread, Fault::Unbound(name)),
            Some(_) => {
                unset_local(thread, &name);
                Ok(Want::Go(Flow::Went(Value::Nothing)))
            }
        };
    }
    let event = Event::DelVar {
        mid: thread.state.scope.mid,
        name: name.copy()?,
        raw: true,
    };
    Ok(Want::Call(event, OnReply::Deleted(name)))
}

/// The reply to the deletion of a variable.
pub fn deleted(alloc: Global, thread: &Thread, name: Text, reply: Reply) -> Result<Want, NoMemory>
    ensures { IfOk result (Does thread.now (replies (ons.Deleted name) reply thread.now)) }
{
    match reply {
        Reply::Done => Ok(went(thread, Value::Nothing)),
        Reply::Unset(_) => fail(alloc, thread, Fault::NotDefined(name)),
        other => {
            drop(other);
            fail(alloc, thread, Fault::NotInProfile)
        }
    }
}

/// A name is read, and its value's size is paid.
pub fn read_name(alloc: Global, thread: &Thread, name: &Text) -> Result<Want, NoMemory>
    ensures { IfOk result (Does thread.now (pieces (λ w d s k. spec.reads (around_at w d).access name.now s
        (words.sized k)) thread.now)) }
{
    if !is_local_name(thread, name) {
        return Ok(Want::Both(Item::ReadGlobal(name.copy()?), Frame::Sized));
    }
    match local_value(thread, name)? {
        None => fail(alloc, thread, Fault::Unbound(name.copy()?)),
        Some(value) => Ok(sized(thread, value)),
    }
}
