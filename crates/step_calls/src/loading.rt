//! The functions of `importlib` and `pyimport`.
ghost use Rattle.std.specs.Prelude.{IfOk};
ghost use Rattle.meaning_script.specs.Calls as spec;
ghost use Rattle.step_calls.specs.Around.{imports_dotted, imports_lazily, imports_value, reloads_at, reloads_value};
ghost use Rattle.py_frames.specs.Does.{Does, pieces};

use base_owners::Boxed;
use base_types::{NoMemory, Seq, Text};
use find_load::In;
use machine_events::Event;
use meaning_state::{Fault, Thread};
use py_frames::{Item, OnReply, Procedure, Want, fail, only};
use py_value::{ModRef, Native, Value};
use reload_lazy::Reloader;
use spec_core::Dotted;
use std::alloc::Global;

/// The kept listings are dropped (`importlib.invalidate_caches`).
pub fn invalidate(alloc: Global, thread: &Thread, values: &Seq<Value>) -> Result<Want, NoMemory>
    ensures { IfOk result (Does thread.now (pieces (λ w d. spec.invalidate_call values.now) thread.now)) }
{
    match values.as_slice() {
        [] => Ok(Want::Call(Event::Invalidate, OnReply::Done)),
        [_, ..] => fail(
            alloc,
            thread,
            Fault::ArgumentCount(Native::InvalidateCaches),
        ),
    }
}

/// The reload of a module begins.
fn begin_reload(alloc: Global, thread: &Thread, module: ModRef) -> Result<Want, NoMemory>
    ensures { IfOk result (Does thread.now (pieces (λ w d. reloads_at w d «module») thread.now)) }
{
    let _ = thread;
    let reloader = Boxed::new(alloc, Reloader::start(module))?;
    Ok(Want::Then(Item::Feed(Procedure::Reload(reloader), In::Start)))
}

fn reload_value(alloc: Global, thread: &Thread, value: Value) -> Result<Want, NoMemory>
    ensures { IfOk result (Does thread.now (pieces (λ w d. reloads_value w d value) thread.now)) }
{
    match value {
        Value::Module(module) => begin_reload(alloc, thread, module),
        other => {
            drop(other);
            fail(alloc, thread, Fault::NotReloadable)
        }
    }
}

/// A module is loaded again (`importlib.reload`).
pub fn reload(alloc: Global, thread: &Thread, values: Seq<Value>) -> Result<Want, NoMemory>
    ensures { IfOk result (Does thread.now (pieces (λ w d. spec.reload_call (reloads_at w d) values) thread.now)) }
{
    match only(values) {
        None => fail(alloc, thread, Fault::ArgumentCount(Native::Reload)),
        Some(value) => reload_value(alloc, thread, value),
    }
}

/// A module of this name is imported that is loaded at its first use.
fn import_name(alloc: Global, thread: &Thread, name: Text) -> Result<Want, NoMemory>
    ensures { IfOk result (Does thread.now (pieces (λ w d. imports_dotted w d name) thread.now)) }
{
    match Dotted::read(&name)? {
        None => fail(alloc, thread, Fault::NotInProfile),
        Some(_) => Ok(Want::Then(Item::Import {
            name,
            is_parent: false,
            is_lazy: true,
        })),
    }
}

fn import_value(alloc: Global, thread: &Thread, value: Value) -> Result<Want, NoMemory>
    ensures { IfOk result (Does thread.now (pieces (λ w d. imports_value w d value) thread.now)) }
{
    match value {
        Value::Text(name) => import_name(alloc, thread, name),
        other => {
            drop(other);
            fail(alloc, thread, Fault::NotInProfile)
        }
    }
}

/// A module is imported that is loaded at its first use (`pyimport.lazy`).
pub fn import_lazily(alloc: Global, thread: &Thread, values: Seq<Value>) -> Result<Want, NoMemory>
    ensures { IfOk result (Does thread.now (pieces (λ w d. spec.lazy_call (imports_lazily w d) values) thread.now)) }
{
    match only(values) {
        None => fail(alloc, thread, Fault::ArgumentCount(Native::Lazy)),
        Some(value) => import_value(alloc, thread, value),
    }
}
