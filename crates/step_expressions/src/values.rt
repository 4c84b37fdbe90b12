//! Values of operands.
ghost use Rattle.std.specs.Prelude.{◌≡◌, ℕ, length};
ghost use Rattle.std.specs.List.{list_any};
ghost use Rattle.value_operators.specs.Outcomes.{is_special};
ghost use Rattle.step_expressions.specs.OperatorForms.{one_of, two_of};
ghost use Rattle.py_frames.specs.Does.{Does, goes_on};
ghost use Rattle.py_frames.specs.declared.work.Frame.TheVariants as frames;

use base_types::Seq;
use meaning_state::{Flow, Thread};
use py_frames::{Want, sized};
use py_value::Value;

/// Whether a value stands for something in the machine.
pub fn is_special(value: &Value) -> bool
    ensures { result ≡ is_special value.now }
{
    match value {
        Value::SysModules | Value::SysPath | Value::NsPath => true,
        _ => false,
    }
}

/// Whether one of the values stands for something in the machine.
pub fn has_special(values: &Seq<Value>) -> bool
    ensures { result ≡ list_any is_special values.now }
{
    values.as_slice().iter().any(|value| is_special(value))
}

/// The value of a list of one.
pub fn one(values: Seq<Value>) -> Option<Value>
    ensures { result ≡ one_of values }
{
    let mut values = values;
    if values.len() != 1 {
        return None;
    }
    values.pop()
}

/// The values of a list of two.
pub fn two(values: Seq<Value>) -> Option<(Value, Value)>
    ensures { result ≡ two_of values }
{
    let mut values = values;
    if values.len() != 2 {
        return None;
    }
    let second = values.pop()?;
    let first = values.pop()?;
    Some((first, second))
}

/// A form's value, or its leave.
pub fn give_sized(thread: &Thread, flow: Flow) -> Want
    ensures { Does thread.now (goes_on frames.Sized flow thread.now) result }
{
    match flow {
        Flow::Went(value) => sized(thread, value),
        Flow::Left(leave) => Want::Go(Flow::Left(leave)),
    }
}
