//! Calls of built-in functions (Library Reference, "Built-in Functions").
ghost use Rattle.std.specs.Prelude.{◌≡◌, Some, IfOk};
ghost use Rattle.meaning_script.specs.Calls as spec;
ghost use Rattle.meaning_script.specs.Pieces.{all_listed, listed};
ghost use Rattle.step_calls.specs.Around.{calls_built_in, gives_length, gives_repr, gives_str, prints_all};
ghost use Rattle.py_frames.specs.Listing.{first_listed};
ghost use Rattle.py_frames.specs.Does.{Does, pieces};

use crate::attributes::{get_attribute, has_attribute};
use crate::loading::{import_lazily, invalidate, reload};
use crate::operands::call_listed;
use crate::print::print;
use crate::values::give;
use base_types::{Exact, NoMemory, Seq, Text, Wide};
use meaning_state::{Fault, Thread};
use py_frames::{Item, Want, fail, first_listed, is_listed, list_operand, only, went};
use py_value::{Native, Value, type_of};
use std::alloc::Global;
use value_operators::length_of;
use value_texts::{repr_of, str_of};

/// `print` of values that are operands.
#[tactic(auto, using(crate::proofs::Lines::prints_is))]
fn print_built(alloc: Global, thread: &Thread, values: &Seq<Value>) -> Result<Want, NoMemory>
    ensures { IfOk result (Does thread.now (pieces (λ w d. prints_all values.now) thread.now)) }
{
    print(alloc, thread, values.as_slice())
}

/// `print` of values of which one is none yet: that at this place.
fn print_listed(
    alloc: Global,
    thread: &Thread,
    values: Seq<Value>,
    at: usize,
) -> Result<Want, NoMemory>
    requires first { first_listed values ≡ Some at }
    ensures { IfOk result (Does thread.now (pieces (λ w d. all_listed values prints_all) thread.now)) }
{
    let value = values.as_slice()[at].copy()?;
    let item = Item::Call {
        callee: Value::Native(Native::Print),
        arguments: values,
    };
    list_operand(alloc, thread, item, at, value)
}

fn call_print(alloc: Global, thread: &Thread, values: Seq<Value>) -> Result<Want, NoMemory>
    ensures { IfOk result (Does thread.now (pieces (λ w d. all_listed values prints_all) thread.now)) }
{
    match first_listed(&values) {
        None => print_built(alloc, thread, &values),
        Some(at) => print_listed(alloc, thread, values, at),
    }
}

fn str_value(alloc: Global, thread: &Thread, value: Value) -> Result<Want, NoMemory>
    ensures { IfOk result (Does thread.now (pieces (λ w d. listed value gives_str) thread.now)) }
{
    if is_listed(&value) {
        return call_listed(alloc, thread, Value::Native(Native::Str), value);
    }
    let given = str_of(alloc, &value)?;
    Ok(give(thread, given))
}

fn call_str(alloc: Global, thread: &Thread, values: Seq<Value>) -> Result<Want, NoMemory>
    ensures { IfOk result (Does thread.now (pieces (λ w d. spec.str_call values) thread.now)) }
{
    if values.is_empty() {
        return Ok(went(thread, Value::Text(Text::new(alloc))));
    }
    match only(values) {
        None => fail(alloc, thread, Fault::ArgumentCount(Native::Str)),
        Some(value) => str_value(alloc, thread, value),
    }
}

fn repr_value(alloc: Global, thread: &Thread, value: Value) -> Result<Want, NoMemory>
    ensures { IfOk result (Does thread.now (pieces (λ w d. listed value gives_repr) thread.now)) }
{
    if is_listed(&value) {
        return call_listed(alloc, thread, Value::Native(Native::Repr), value);
    }
    let given = repr_of(alloc, &value)?;
    Ok(give(thread, given))
}

fn call_repr(alloc: Global, thread: &Thread, values: Seq<Value>) -> Result<Want, NoMemory>
    ensures { IfOk result (Does thread.now (pieces (λ w d. spec.repr_call values) thread.now)) }
{
    match only(values) {
        None => fail(alloc, thread, Fault::ArgumentCount(Native::Repr)),
        Some(value) => repr_value(alloc, thread, value),
    }
}

/// The length of a value that is an operand.
fn give_length(alloc: Global, thread: &Thread, value: &Value) -> Result<Want, NoMemory>
    ensures { IfOk result (Does thread.now (pieces (λ w d. gives_length value.now) thread.now)) }
{
    match length_of(value) {
        Some(length) => Ok(went(thread, Value::Int(Wide::of(length as i128)))),
        None => fail(alloc, thread, Fault::NoLength(type_of(value))),
    }
}

fn len_value(alloc: Global, thread: &Thread, value: Value) -> Result<Want, NoMemory>
    ensures { IfOk result (Does thread.now (pieces (λ w d. listed value gives_length) thread.now)) }
{
    if is_listed(&value) {
        return call_listed(alloc, thread, Value::Native(Native::Len), value);
    }
    give_length(alloc, thread, &value)
}

fn call_len(alloc: Global, thread: &Thread, values: Seq<Value>) -> Result<Want, NoMemory>
    ensures { IfOk result (Does thread.now (pieces (λ w d. spec.len_call values) thread.now)) }
{
    match only(values) {
        None => fail(alloc, thread, Fault::ArgumentCount(Native::Len)),
        Some(value) => len_value(alloc, thread, value),
    }
}

/// A built-in function is called.
pub fn call_native(
    alloc: Global,
    thread: &Thread,
    native: Native,
    values: Seq<Value>,
) -> Result<Want, NoMemory>
    ensures { IfOk result (Does thread.now (pieces (λ w d. calls_built_in w d native values) thread.now)) }
{
    match native {
        Native::Print => call_print(alloc, thread, values),
        Native::Str => call_str(alloc, thread, values),
        Native::Repr => call_repr(alloc, thread, values),
        Native::Len => call_len(alloc, thread, values),
        Native::HasAttr => has_attribute(alloc, thread, values),
        Native::GetAttr => get_attribute(alloc, thread, values),
        Native::InvalidateCaches => invalidate(alloc, thread, &values),
        Native::Reload => reload(alloc, thread, values),
        Native::Lazy => import_lazily(alloc, thread, values),
    }
}
