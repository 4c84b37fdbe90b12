//! The value of an attribute of a module, in the place of a namespace's path a list.
ghost use Rattle.std.specs.Prelude.{◌≡◌, IfOk};
ghost use Rattle.meaning_script.specs.Meaning.{around_at};
ghost use Rattle.meaning_script.specs.Names as spec;
ghost use Rattle.py_frames.specs.Does.{Does, pieces};

use base_types::{Exact, NoMemory, Text};
use meaning_state::Thread;
use py_frames::{Want, is_namespace_path, replace, went};
use py_value::{ModRef, Value};
use std::alloc::Global;

/// The value of an attribute of a module.
pub fn member_value(
    alloc: Global,
    thread: &Thread,
    module: ModRef,
    name: &Text,
    value: Value,
) -> Result<Want, NoMemory>
    ensures { IfOk result (Does thread.now (pieces (λ w d. spec.member_value
        (around_at w d).access «module» name.now value) thread.now)) }
{
    if is_namespace_path(&value) {
        drop(value);
        return replace(alloc, thread, module.mid(), module.name().copy()?, name);
    }
    drop(module);
    Ok(went(thread, value))
}
