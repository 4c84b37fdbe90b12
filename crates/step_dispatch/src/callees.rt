//! Calls (Language Reference 6.3.4).
ghost use Rattle.std.specs.Prelude.{◌≡◌, IfOk};
ghost use Rattle.py_frames.specs.Does.{Does, begins};
ghost use Rattle.py_frames.specs.declared.work.Item.TheVariants as items;

use base_types::{NoMemory, Seq};
use meaning_state::{Fault, Thread};
use py_frames::{Want, fail};
use py_value::{Value, type_of};
use std::alloc::Global;
use step_calls::{call_function, call_kind, call_native};

/// A value is called.
pub fn call(
    alloc: Global,
    thread: &mut Thread,
    callee: Value,
    arguments: Seq<Value>,
) -> Result<Want, NoMemory>
    ensures { IfOk result (Does thread.new (begins (items.Call callee arguments) thread.old)) }
{
    match callee {
        Value::Func { load, index, .. } => call_function(alloc, thread, load, index, arguments),
        Value::Kind(kind) => call_kind(alloc, thread, kind, arguments),
        Value::Native(native) => call_native(alloc, thread, native, arguments),
        other => {
            let name = type_of(&other);
            drop(other);
            fail(alloc, thread, Fault::NotCallable(name))
        }
    }
}
