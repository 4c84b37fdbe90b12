//! `hasattr` and `getattr` (Library Reference, "Built-in Functions").
ghost use Rattle.std.specs.Prelude.{◌≡◌, IfOk};
ghost use Rattle.meaning_script.specs.Calls as spec;
ghost use Rattle.step_calls.specs.Around.{access_at};
ghost use Rattle.py_frames.specs.Few.{pair};
ghost use Rattle.step_calls.specs.Asking.{asks_for, asks_or, asks_whether};
ghost use Rattle.py_frames.specs.Unwind.{is_missing};
ghost use Rattle.py_frames.specs.Does.{Does, pieces, goes_on};
ghost use Rattle.py_frames.specs.declared.work.Frame.TheVariants as frames;

use base_types::{NoMemory, Seq};
use meaning_state::{Fault, Flow, Leave, Thread};
use py_frames::{Frame, Item, Want, fail, pair};
use py_value::{Kind, Native, Value};
use std::alloc::Global;

/// Whether there is an attribute, by an object and a name.
fn whether(alloc: Global, thread: &Thread, values: Seq<Value>) -> Result<Want, NoMemory>
    ensures { IfOk result (Does thread.now (pieces (λ w d. asks_whether w d (pair values)) thread.now)) }
{
    match pair(values) {
        None => fail(alloc, thread, Fault::ArgumentCount(Native::HasAttr)),
        Some((object, name)) => match name {
            Value::Text(name) => Ok(Want::Both(Item::Member { object, name }, Frame::HasAttr)),
            other => {
                drop(other);
                fail(alloc, thread, Fault::NameNotText)
            }
        },
    }
}

/// Whether there is an attribute.
#[tactic(auto, using(crate::proofs::Asking::hasattr_is))]
pub fn has_attribute(alloc: Global, thread: &Thread, values: Seq<Value>) -> Result<Want, NoMemory>
    ensures { IfOk result (Does thread.now (pieces (λ w d. spec.hasattr_call (access_at w d) values) thread.now)) }
{
    whether(alloc, thread, values)
}

/// An attribute.
fn attribute(alloc: Global, thread: &Thread, values: Seq<Value>) -> Result<Want, NoMemory>
    ensures { IfOk result (Does thread.now (pieces (λ w d. asks_for w d (pair values)) thread.now)) }
{
    match pair(values) {
        None => fail(alloc, thread, Fault::ArgumentCount(Native::GetAttr)),
        Some((object, name)) => match name {
            Value::Text(name) => Ok(Want::Then(Item::Member { object, name })),
            other => {
                drop(other);
                fail(alloc, thread, Fault::NameNotText)
            }
        },
    }
}

/// An attribute, or the value in its place.
fn attribute_or(
    alloc: Global,
    thread: &Thread,
    values: Seq<Value>,
    default: Value,
) -> Result<Want, NoMemory>
    ensures { IfOk result (Does thread.now (pieces (λ w d. asks_or w d (pair values) default) thread.now)) }
{
    match pair(values) {
        None => fail(alloc, thread, Fault::ArgumentCount(Native::GetAttr)),
        Some((object, name)) => match name {
            Value::Text(name) => Ok(Want::Both(
                Item::Member { object, name },
                Frame::GetAttr(default),
            )),
            other => {
                drop(other);
                fail(alloc, thread, Fault::NameNotText)
            }
        },
    }
}

/// An attribute, or the third argument in its place.
#[tactic(auto, using(crate::proofs::Asking::getattr_is, crate::proofs::Asking::getattr_or))]
pub fn get_attribute(alloc: Global, thread: &Thread, values: Seq<Value>) -> Result<Want, NoMemory>
    ensures { IfOk result (Does thread.now (pieces (λ w d. spec.getattr_call (access_at w d) values) thread.now)) }
{
    if values.len() != 3 {
        return attribute(alloc, thread, values);
    }
    let mut values = values;
    match values.pop() {
        Some(default) => attribute_or(alloc, thread, values, default),
        None => fail(alloc, thread, Fault::ArgumentCount(Native::GetAttr)),
    }
}

/// Whether only an attribute was missing.
fn is_missing(leave: &Leave) -> bool
    ensures { result ≡ is_missing leave.now }
{
    match leave {
        Leave::Raised(error) => match error.kind() {
            Kind::AttributeError => true,
            _ => false,
        },
        _ => false,
    }
}

/// It is told whether the attribute was there.
#[tactic(auto, using(crate::proofs::Missing::met, crate::proofs::Missing::passed))]
pub fn tell(thread: &Thread, flow: Flow) -> Want
    ensures { Does thread.now (goes_on frames.HasAttr flow thread.now) result }
{
    let _ = thread;
    match flow {
        Flow::Went(_) => Want::Go(Flow::Went(Value::Bool(true))),
        Flow::Left(leave) => {
            if is_missing(&leave) {
                drop(leave);
                return Want::Go(Flow::Went(Value::Bool(false)));
            }
            Want::Go(Flow::Left(leave))
        }
    }
}

/// The value in place of an attribute that was not there.
#[tactic(auto, using(crate::proofs::Missing::met, crate::proofs::Missing::passed))]
pub fn give_default(thread: &Thread, default: Value, flow: Flow) -> Want
    ensures { Does thread.now (goes_on (frames.GetAttr default) flow thread.now) result }
{
    let _ = thread;
    match flow {
        Flow::Went(value) => Want::Go(Flow::Went(value)),
        Flow::Left(leave) => {
            if is_missing(&leave) {
                drop(leave);
                return Want::Go(Flow::Went(default));
            }
            Want::Go(Flow::Left(leave))
        }
    }
}
