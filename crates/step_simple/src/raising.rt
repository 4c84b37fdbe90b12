//! `return` and `raise` (Language Reference 7.6 and 7.8).
ghost use Rattle.std.specs.Prelude.{◌≡◌, IfOk, ◌∷◌, []};
ghost use Rattle.py_value.specs.declared.value.Value.{out-Value};
ghost use Rattle.meaning_script.specs.Statements.{raises_again, raises_at, returns};
ghost use Rattle.step_simple.specs.Known.{raises_known};
ghost use Rattle.py_frames.specs.Does.{Does, pieces};

use base_types::{Exact, NoMemory, Seq, Text};
use meaning_state::{Fault, Flow, Leave, Thread};
use py_frames::{Want, fail, only};
use py_value::{Raised, Value};
use std::alloc::Global;

/// A function returns its value, or `None`.
pub fn return_value(alloc: Global, thread: &Thread, values: Seq<Value>) -> Result<Want, NoMemory>
    ensures { IfOk result (Does thread.now (pieces (λ w d. returns values) thread.now)) }
{
    if values.is_empty() {
        return Ok(Want::Go(Flow::Left(Leave::Return(Value::Nothing))));
    }
    match only(values) {
        None => fail(alloc, thread, Fault::NotInProfile),
        Some(value) => Ok(Want::Go(Flow::Left(Leave::Return(value)))),
    }
}

/// The innermost error that is handled is raised again.
fn raise_again(alloc: Global, thread: &Thread) -> Result<Want, NoMemory>
    ensures { IfOk result (Does thread.now (pieces (λ w d. raises_again thread.now.state.handling) thread.now)) }
{
    match thread.state.handling.first() {
        None => fail(alloc, thread, Fault::NothingToRaise),
        Some(error) => Ok(Want::Go(Flow::Left(Leave::Raised(error.copy()?)))),
    }
}

/// An error is raised, or a kind, which is called without arguments.
fn raise_error(alloc: Global, thread: &Thread, value: Value) -> Result<Want, NoMemory>
    ensures { IfOk result (Does thread.now (pieces (λ w d. raises_at (out-Value value)) thread.now)) }
{
    match value {
        Value::Kind(kind) => {
            let error = Raised::of(kind, Text::new(alloc), None)?;
            Ok(Want::Go(Flow::Left(Leave::Raised(error))))
        }
        Value::Error(error) => Ok(Want::Go(Flow::Left(Leave::Raised(error)))),
        other => {
            drop(other);
            fail(alloc, thread, Fault::NoException)
        }
    }
}

/// `raise`, with or without what is to be raised, which has a value of its own.
pub fn raise(alloc: Global, thread: &Thread, values: Seq<Value>) -> Result<Want, NoMemory>
    ensures { IfOk result (Does thread.now (pieces (λ w d. raises_known values) thread.now)) }
{
    if values.is_empty() {
        return raise_again(alloc, thread);
    }
    match only(values) {
        None => fail(alloc, thread, Fault::NotInProfile),
        Some(value) => raise_error(alloc, thread, value),
    }
}
