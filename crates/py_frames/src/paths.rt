//! The path of a namespace, in whose place a list comes.
ghost use Rattle.std.specs.Prelude.{◌≡◌, IfOk};
ghost use Rattle.machine_shown.specs.Shown.{is_namespace_path};
ghost use Rattle.meaning_script.specs.Meaning.{around_at};
ghost use Rattle.meaning_script.specs.Names as spec;
ghost use Rattle.py_frames.specs.Does.{Does, pieces};

use crate::ways::fail;
use crate::{Item, Procedure, Want};
use base_owners::Boxed;
use base_types::{NoMemory, Text};
use find_load::In;
use meaning_state::{Fault, Thread};
use py_value::Value;
use std::alloc::Global;
use step_package_path::PathReader;

/// Whether a value stands for the path of a namespace.
pub fn is_namespace_path(value: &Value) -> bool
    ensures { result ≡ is_namespace_path value.now }
{
    match value {
        Value::NsPath => true,
        _ => false,
    }
}

/// The path of a namespace was read under the name: a list comes in its place. Only a module's
/// `__path__` can be one.
pub fn replace(
    alloc: Global,
    thread: &Thread,
    mid: u32,
    module: Text,
    name: &Text,
) -> Result<Want, NoMemory>
    ensures { IfOk result (Does thread.now (pieces (λ w d. spec.replaces
        (around_at w d).access mid «module» name.now) thread.now)) }
{
    if name.as_str() == "__path__" {
        let reader = Boxed::new(alloc, PathReader::replacing(mid, module)?)?;
        return Ok(Want::Then(Item::Feed(Procedure::Path(reader), In::Start)));
    }
    drop(module);
    fail(alloc, thread, Fault::NotInProfile)
}
