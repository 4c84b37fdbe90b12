//! The submodules that a `from` import asks for (`_handle_fromlist` of `importlib._bootstrap`).
ghost use Rattle.std.specs.Prelude.{◌≡◌, IfOk, false};
ghost use Rattle.meaning_script.specs.ImportStatements as spec;
ghost use Rattle.meaning_script.specs.Meaning.{around_at};
ghost use Rattle.spec_core.specs.Names.{joined};
ghost use Rattle.py_frames.specs.Does.{Does, begins, goes_on, pieces, replies};
ghost use Rattle.py_frames.specs.declared.replies.OnReply.TheVariants as ons;
ghost use Rattle.py_frames.specs.declared.work.Frame.TheVariants as frames;
ghost use Rattle.py_frames.specs.declared.work.Item.TheVariants as items;
ghost use Rattle.machine_events.specs.declared.event.Reply.TheVariants as kinds;

use base_types::{Exact, NoMemory, Text, Texts};
use machine_events::{Event, Reply, Slot};
use meaning_state::{Fault, Flow, Leave, Thread};
use py_frames::{Frame, Item, OnReply, Want, fail, joined_name, rouse, went};
use py_value::{Kind, ModRef, Raised, Value};
use spec_core::Dotted;
use std::alloc::Global;

/// Submodules with these names, where the module is a package.
pub fn begin_ask_submodules(
    alloc: Global,
    thread: &Thread,
    module: ModRef,
    names: Texts,
) -> Result<Want, NoMemory>
    ensures { IfOk result (Does thread.now (begins (items.AskSubmodules «module» names) thread.now)) }
{
    let _ = thread;
    let event = Event::GetVar {
        mid: module.mid(),
        name: Text::from_str(alloc, "__path__")?,
        raw: false,
    };
    let on = OnReply::IfPackage {
        module,
        names,
        is_raw: false,
    };
    Ok(Want::Call(event, on))
}

/// Whether the module is a package, once it is awake.
fn ask_if_package(
    alloc: Global,
    thread: &Thread,
    module: ModRef,
    names: Texts,
    reply: Reply,
) -> Result<Want, NoMemory>
    ensures { IfOk result (Does thread.now (pieces (λ w d. spec.if_package
        (around_at w d) «module» names reply) thread.now)) }
{
    match reply {
        Reply::Value(path) => {
            drop(path);
            Ok(Want::Then(Item::Submodules {
                module,
                names,
                at: 0,
            }))
        }
        Reply::Unset(_) => Ok(went(thread, Value::Nothing)),
        other => {
            drop(other);
            fail(alloc, thread, Fault::NotInProfile)
        }
    }
}

/// The path is read of a module that was asleep, once that is loaded.
fn wake_for_path(
    alloc: Global,
    thread: &Thread,
    module: ModRef,
    names: Texts,
) -> Result<Want, NoMemory>
    ensures { IfOk result (Does thread.now (replies (ons.IfPackage «module» names false) kinds.Sleeping thread.now)) }
{
    let name = Text::from_str(alloc, "__path__")?;
    let lazy = module.copy()?;
    let event = Event::GetVar {
        mid: module.mid(),
        name,
        raw: true,
    };
    let on = OnReply::IfPackage {
        module,
        names,
        is_raw: true,
    };
    rouse(alloc, thread, lazy, event, on)
}

/// Whether the module is a package, read raw or not.
pub fn replied_if_package(
    alloc: Global,
    thread: &Thread,
    module: ModRef,
    names: Texts,
    is_raw: bool,
    reply: Reply,
) -> Result<Want, NoMemory>
    ensures { IfOk result (Does thread.now (replies (ons.IfPackage «module» names is_raw) reply thread.now)) }
{
    match reply {
        Reply::Sleeping if !is_raw => wake_for_path(alloc, thread, module, names),
        reply => ask_if_package(alloc, thread, module, names, reply),
    }
}

/// The submodules with the names from a place on.
pub fn begin_submodules(
    thread: &Thread,
    module: ModRef,
    names: Texts,
    at: usize,
) -> Result<Want, NoMemory>
    ensures { IfOk result (Does thread.now (begins (items.Submodules «module» names at) thread.now)) }
{
    let Some(name) = names.get(at) else {
        return Ok(went(thread, Value::Nothing));
    };
    let owner = module.copy()?;
    let name = name.copy()?;
    let first = Item::Submodule {
        module: owner,
        name,
    };
    let others = Frame::Submodules {
        module,
        names,
        at: at + 1,
    };
    Ok(Want::Both(first, others))
}

/// A submodule is there: the next ones follow.
pub fn go_on_submodules(
    thread: &Thread,
    module: ModRef,
    names: Texts,
    at: usize,
    flow: Flow,
) -> Want
    ensures { Does thread.now (goes_on (frames.Submodules «module» names at) flow thread.now) result }
{
    let _ = thread;
    match flow {
        Flow::Went(value) => {
            drop(value);
            Want::Then(Item::Submodules { module, names, at })
        }
        Flow::Left(leave) => Want::Go(Flow::Left(leave)),
    }
}

/// A submodule is imported where the module has no variable of its name.
pub fn begin_submodule(thread: &Thread, module: ModRef, name: Text) -> Result<Want, NoMemory>
    ensures { IfOk result (Does thread.now (begins (items.Submodule «module» name) thread.now)) }
{
    let _ = thread;
    let event = Event::GetVar {
        mid: module.mid(),
        name: name.copy()?,
        raw: false,
    };
    let on = OnReply::Submodule {
        module,
        name,
        is_raw: false,
    };
    Ok(Want::Call(event, on))
}

/// The import of a submodule, which may be missing.
fn try_submodule(
    alloc: Global,
    thread: &Thread,
    module: &ModRef,
    name: &Text,
) -> Result<Want, NoMemory>
    ensures { IfOk result (Does thread.now (pieces (λ w d. spec.tries_submodule (around_at w d)
        (joined «module».now.name name.now)) thread.now)) }
{
    let full = joined_name(module.name(), name)?;
    let Some(entry) = Dotted::read(&full)? else {
        return fail(alloc, thread, Fault::NotInProfile);
    };
    let item = Item::Import {
        name: full,
        is_parent: false,
        is_lazy: false,
    };
    Ok(Want::Both(item, Frame::TriedSubmodule(entry)))
}

/// Whether the module has a variable of the submodule's name, once the module is awake.
fn ask_for_submodule(
    alloc: Global,
    thread: &Thread,
    module: &ModRef,
    name: &Text,
    reply: Reply,
) -> Result<Want, NoMemory>
    ensures { IfOk result (Does thread.now (pieces (λ w d. spec.submodule_read
        (around_at w d) «module».now name.now reply) thread.now)) }
{
    match reply {
        Reply::Value(value) => {
            drop(value);
            Ok(went(thread, Value::Nothing))
        }
        Reply::Unset(_) => try_submodule(alloc, thread, module, name),
        other => {
            drop(other);
            fail(alloc, thread, Fault::NotInProfile)
        }
    }
}

/// The submodule's name is read of a module that was asleep, once that is loaded.
fn wake_for_submodule(
    alloc: Global,
    thread: &Thread,
    module: &ModRef,
    name: &Text,
) -> Result<Want, NoMemory>
    ensures { IfOk result (Does thread.now (replies (ons.Submodule «module».now name.now false) kinds.Sleeping
        thread.now)) }
{
    let read = name.copy()?;
    let lazy = module.copy()?;
    let owner = module.copy()?;
    let asked = name.copy()?;
    let event = Event::GetVar {
        mid: module.mid(),
        name: read,
        raw: true,
    };
    let on = OnReply::Submodule {
        module: owner,
        name: asked,
        is_raw: true,
    };
    rouse(alloc, thread, lazy, event, on)
}

/// Whether the module has a variable of the submodule's name, read raw or not.
pub fn replied_submodule(
    alloc: Global,
    thread: &Thread,
    module: &ModRef,
    name: &Text,
    is_raw: bool,
    reply: Reply,
) -> Result<Want, NoMemory>
    ensures { IfOk result (Does thread.now (replies (ons.Submodule «module».now name.now is_raw) reply thread.now)) }
{
    match reply {
        Reply::Sleeping if !is_raw => wake_for_submodule(alloc, thread, module, name),
        reply => ask_for_submodule(alloc, thread, module, name, reply),
    }
}

/// Whether an error's name is this one.
fn is_name(name: &Text, other: &Option<Text>) -> bool
    ensures { result ≡ spec.is_name name.now other.now }
{
    match other {
        None => false,
        Some(other) => name.as_str() == other.as_str(),
    }
}

/// Whether the error says that there is no module of this name.
fn is_missing(name: &Text, error: &Raised) -> bool
    ensures { result ≡ spec.is_missing name.now error.now.kind error.now.name }
{
    match error.kind() {
        Kind::ModuleNotFoundError => is_name(name, error.name()),
        _ => false,
    }
}

/// The import of a submodule raised an error, which is dropped where there is no such module.
fn take_error(thread: &Thread, name: Dotted, error: Raised) -> Result<Want, NoMemory>
    ensures { IfOk result (Does thread.now (pieces (λ w d. spec.raised_for name error) thread.now)) }
{
    let _ = thread;
    let text = name.owned()?;
    if is_missing(&text, &error) {
        return Ok(Want::Call(Event::TabGet(name), OnReply::Missed(error)));
    }
    Ok(Want::Go(Flow::Left(Leave::Raised(error))))
}

/// The import of a submodule has ended.
pub fn go_on_tried_submodule(thread: &Thread, name: Dotted, flow: Flow) -> Result<Want, NoMemory>
    ensures { IfOk result (Does thread.now (goes_on (frames.TriedSubmodule name) flow thread.now)) }
{
    match flow {
        Flow::Went(value) => {
            drop(value);
            Ok(went(thread, Value::Nothing))
        }
        Flow::Left(Leave::Raised(error)) => take_error(thread, name, error),
        Flow::Left(leave) => Ok(Want::Go(Flow::Left(leave))),
    }
}

/// What the cache has for a submodule that was not found: where that is `None`, the error is raised after all.
pub fn replied_missed(thread: &Thread, error: Raised, reply: Reply) -> Want
    ensures { Does thread.now (replies (ons.Missed error) reply thread.now) result }
{
    match reply {
        Reply::Slot(Slot::Halted) => Want::Go(Flow::Left(Leave::Raised(error))),
        other => {
            drop(other);
            went(thread, Value::Nothing)
        }
    }
}
