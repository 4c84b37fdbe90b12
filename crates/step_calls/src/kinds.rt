//! Calls of kinds of errors (Library Reference, "Built-in Exceptions").
ghost use Rattle.std.specs.Prelude.{◌≡◌, IfOk};
ghost use Rattle.meaning_script.specs.Calls as spec;
ghost use Rattle.meaning_script.specs.Pieces.{listed};
ghost use Rattle.step_calls.specs.Around.{gives_error};
ghost use Rattle.py_frames.specs.Does.{Does, pieces};

use crate::operands::call_listed;
use crate::values::{give, text_of};
use base_types::{NoMemory, Seq, Text};
use meaning_state::{Fault, Thread};
use py_frames::{Want, fail, is_listed, only, went};
use py_value::{Applied, Kind, Raised, Value};
use std::alloc::Global;
use value_texts::{repr_of, str_of};

/// An error of the kind with the text.
fn made_error(alloc: Global, kind: Kind, applied: Applied) -> Result<Applied, NoMemory>
    ensures { IfOk result (λ made. made ≡ spec.made_error kind applied) }
{
    match applied {
        Applied::Value(value) => {
            let text = Text::from_str(alloc, text_of(&value))?;
            Ok(Applied::Value(Value::Error(Raised::of(kind, text, None)?)))
        }
        Applied::Raised(error) => Ok(Applied::Raised(error)),
    }
}

fn error_text(alloc: Global, kind: Kind, value: &Value) -> Result<Applied, NoMemory>
    ensures { IfOk result (λ text. text ≡ spec.error_text kind value.now) }
{
    match kind {
        Kind::KeyError => repr_of(alloc, value),
        _ => str_of(alloc, value),
    }
}

/// An error of the kind with the text of a value.
fn error_of(alloc: Global, thread: &Thread, kind: Kind, value: Value) -> Result<Want, NoMemory>
    ensures { IfOk result (Does thread.now (pieces (λ w d. listed value (gives_error kind)) thread.now)) }
{
    if is_listed(&value) {
        return call_listed(alloc, thread, Value::Kind(kind), value);
    }
    let text = error_text(alloc, kind, &value)?;
    let made = made_error(alloc, kind, text)?;
    Ok(give(thread, made))
}

/// A kind is called.
pub fn call_kind(
    alloc: Global,
    thread: &Thread,
    kind: Kind,
    values: Seq<Value>,
) -> Result<Want, NoMemory>
    ensures { IfOk result (Does thread.now (pieces (λ w d. spec.calls_kind kind values) thread.now)) }
{
    if values.is_empty() {
        let error = Raised::of(kind, Text::new(alloc), None)?;
        return Ok(went(thread, Value::Error(error)));
    }
    match only(values) {
        None => fail(alloc, thread, Fault::NotInProfile),
        Some(value) => error_of(alloc, thread, kind, value),
    }
}
