//! `from .. import *`: the names of `__all__`, else those of the module that do not begin with an underscore.
ghost use Rattle.std.specs.Prelude.{◌≡◌, IfOk, false};
ghost use Rattle.py_value.specs.declared.value.Value.{out-Value};
ghost use Rattle.meaning_script.specs.ImportStatements.{all_names, all_read, stars_of};
ghost use Rattle.meaning_script.specs.Meaning.{around_at};
ghost use Rattle.py_frames.specs.Does.{Does, begins, goes_on, pieces, replies};
ghost use Rattle.py_frames.specs.declared.replies.OnReply.TheVariants as ons;
ghost use Rattle.py_frames.specs.declared.work.Frame.TheVariants as frames;
ghost use Rattle.py_frames.specs.declared.work.Item.TheVariants as items;
ghost use Rattle.machine_events.specs.declared.event.Reply.TheVariants as kinds;

use crate::starred::{all_names, one_part_names, public_names};
use base_types::{Exact, NoMemory, Text, Texts};
use machine_events::{Event, Reply};
use meaning_state::{Fault, Flow, Thread};
use py_frames::{Frame, Item, OnReply, Want, fail, rouse, went};
use py_value::{ModRef, Value};
use std::alloc::Global;

/// The names of `__all__` are bound, once the submodules among them are asked for.
fn bind_all(alloc: Global, thread: &Thread, module: ModRef, value: &Value) -> Result<Want, NoMemory>
    ensures { IfOk result (Does thread.now (pieces (λ w d. stars_of (around_at w d) «module»
        (all_names (out-Value value.now))) thread.now)) }
{
    let Some(names) = all_names(value)? else {
        return fail(alloc, thread, Fault::NotInProfile);
    };
    let asked = Item::AskSubmodules {
        module: module.copy()?,
        names: one_part_names(&names)?,
    };
    let others = Frame::Stars {
        module,
        names,
        at: 0,
    };
    Ok(Want::Both(asked, others))
}

/// What was read as the module's `__all__`, once the module is awake.
fn take_all(alloc: Global, thread: &Thread, module: ModRef, reply: Reply) -> Result<Want, NoMemory>
    ensures { IfOk result (Does thread.now (pieces (λ w d. all_read (around_at w d) «module» reply) thread.now)) }
{
    match reply {
        Reply::Value(value) => bind_all(alloc, thread, module, &value),
        Reply::Unset(_) => Ok(Want::Call(Event::Names(module.mid()), OnReply::Names(module))),
        other => {
            drop(other);
            fail(alloc, thread, Fault::NotInProfile)
        }
    }
}

/// The `__all__` is read of a module that was asleep, once that is loaded.
fn wake_for_all(alloc: Global, thread: &Thread, module: ModRef) -> Result<Want, NoMemory>
    ensures { IfOk result (Does thread.now (replies (ons.All «module» false) kinds.Sleeping thread.now)) }
{
    let name = Text::from_str(alloc, "__all__")?;
    let lazy = module.copy()?;
    let event = Event::GetVar {
        mid: module.mid(),
        name,
        raw: true,
    };
    let is_raw = true;
    rouse(alloc, thread, lazy, event, OnReply::All { module, is_raw })
}

/// The module's `__all__` was read, raw or not.
pub fn replied_all(
    alloc: Global,
    thread: &Thread,
    module: ModRef,
    is_raw: bool,
    reply: Reply,
) -> Result<Want, NoMemory>
    ensures { IfOk result (Does thread.now (replies (ons.All «module» is_raw) reply thread.now)) }
{
    match reply {
        Reply::Sleeping if !is_raw => wake_for_all(alloc, thread, module),
        reply => take_all(alloc, thread, module, reply),
    }
}

/// The names of the module's variables.
pub fn replied_names(
    alloc: Global,
    thread: &Thread,
    module: ModRef,
    reply: Reply,
) -> Result<Want, NoMemory>
    ensures { IfOk result (Does thread.now (replies (ons.Names «module») reply thread.now)) }
{
    match reply {
        Reply::Names(names) => Ok(Want::Then(Item::Stars {
            module,
            names: public_names(&names)?,
            at: 0,
        })),
        other => {
            drop(other);
            fail(alloc, thread, Fault::NotInProfile)
        }
    }
}

/// The names from a place on.
pub fn begin_stars(
    thread: &Thread,
    module: ModRef,
    names: Texts,
    at: usize,
) -> Result<Want, NoMemory>
    ensures { IfOk result (Does thread.now (begins (items.Stars «module» names at) thread.now)) }
{
    let Some(name) = names.get(at) else {
        return Ok(went(thread, Value::Nothing));
    };
    let owner = module.copy()?;
    let name = name.copy()?;
    let first = Item::Star {
        module: owner,
        name,
    };
    let others = Frame::Stars {
        module,
        names,
        at: at + 1,
    };
    Ok(Want::Both(first, others))
}

/// What comes before the names from a place on has ended.
pub fn go_on_stars(thread: &Thread, module: ModRef, names: Texts, at: usize, flow: Flow) -> Want
    ensures { Does thread.now (goes_on (frames.Stars «module» names at) flow thread.now) result }
{
    let _ = thread;
    match flow {
        Flow::Went(value) => {
            drop(value);
            Want::Then(Item::Stars { module, names, at })
        }
        Flow::Left(leave) => Want::Go(Flow::Left(leave)),
    }
}

/// One name: it is read as an attribute, and bound.
pub fn begin_star(thread: &Thread, module: ModRef, name: Text) -> Result<Want, NoMemory>
    ensures { IfOk result (Does thread.now (begins (items.Star «module» name) thread.now)) }
{
    let _ = thread;
    let read = Item::Member {
        object: Value::Module(module),
        name: name.copy()?,
    };
    Ok(Want::Both(read, Frame::Store(name)))
}
