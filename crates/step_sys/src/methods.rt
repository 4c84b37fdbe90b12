//! Methods of `sys.path` and `sys.modules`.
ghost use Rattle.std.specs.Prelude.{◌≡◌, IfOk};
ghost use Rattle.value_operators.specs.Outcomes as outcomes;
ghost use Rattle.py_syntax.specs.declared.expr.Expr.{out-Expr};
ghost use Rattle.meaning_script.specs.Methods as methods;
ghost use Rattle.meaning_script.specs.Methods.{calls_on_path, calls_on_cache};
ghost use Rattle.meaning_script.specs.Pieces.{fails, sized};
ghost use Rattle.step_sys.specs.Arguments.{appends_one, inserts_two, gets_key, pops_key};
ghost use Rattle.py_frames.specs.Does as does;
ghost use Rattle.py_frames.specs.Does.{Does, pieces, begins, replies};
ghost use Rattle.meaning_state.specs.declared.fault.Fault.TheVariants as faults;
ghost use Rattle.py_frames.specs.declared.work.Item.TheVariants as items;
ghost use Rattle.py_frames.specs.declared.replies.OnReply.TheVariants as ons;

use crate::arguments::{key_and_default, one, or_nothing, two};
use base_owners::Shared;
use base_types::{NoMemory, Seq, Text, Wide};
use machine_events::{Carried, Event, Reply};
use meaning_state::{Fault, Thread};
use py_frames::{Frame, Item, OnReply, Want, fail, went};
use py_syntax::Expr;
use py_value::{Value, nesting};
use std::alloc::Global;
use value_operators::MOST_NESTING;

fn attribute_name(expr: &Expr) -> &str
    ensures { result.now ≡ does.attribute_name (out-Expr expr.now) }
{
    match expr {
        Expr::Attribute(_, name) => name.as_str(),
        _ => "",
    }
}

/// The name of the attribute that a call names.
fn method_name(expr: &Expr) -> &str
    ensures { result.now ≡ does.method_name expr.now }
{
    match expr {
        Expr::Call(callee, _) => attribute_name(callee.get()),
        _ => "",
    }
}

/// Whether a value stands for something in the machine.
fn is_special(value: &Value) -> bool
    ensures { result ≡ outcomes.is_special value.now }
{
    match value {
        Value::SysModules | Value::SysPath | Value::NsPath => true,
        _ => false,
    }
}

/// Whether a list around a value would be nested too deep.
fn nests_too_deep(value: &Value) -> bool
    ensures { result ≡ methods.nests_too_deep value.now }
{
    nesting(value) >= MOST_NESTING
}

/// A value as a number.
fn number_of(value: &Value) -> Option<Wide>
    ensures { result ≡ outcomes.number_of value.now }
{
    match value {
        Value::Bool(true) => Some(Wide::of(1)),
        Value::Bool(false) => Some(Wide::of(0)),
        Value::Int(n) => Some(*n),
        _ => None,
    }
}

/// A method was given too few or too many arguments.
fn miscounted(alloc: Global, thread: &Thread, name: &str) -> Result<Want, NoMemory>
    ensures { IfOk result (Does thread.now (pieces (λ w d. fails (faults.MethodCount name.now)) thread.now)) }
{
    let name = Text::from_str(alloc, name)?;
    fail(alloc, thread, Fault::MethodCount(name))
}

fn append(alloc: Global, thread: &Thread, name: &str, values: Seq<Value>) -> Result<Want, NoMemory>
    ensures { IfOk result (Does thread.now (pieces (λ w d s k. appends_one name.now values s (sized k)) thread.now)) }
{
    let Some(value) = one(values) else {
        return miscounted(alloc, thread, name);
    };
    let at = None;
    Ok(Want::Both(Item::AddEntry { at, value }, Frame::Sized))
}

fn insert(alloc: Global, thread: &Thread, name: &str, values: Seq<Value>) -> Result<Want, NoMemory>
    ensures { IfOk result (Does thread.now (pieces (λ w d s k. inserts_two name.now values s (sized k)) thread.now)) }
{
    let Some((index, value)) = two(values) else {
        return miscounted(alloc, thread, name);
    };
    match number_of(&index) {
        None => fail(alloc, thread, Fault::NotIndices),
        at => Ok(Want::Both(Item::AddEntry { at, value }, Frame::Sized)),
    }
}

/// A method of the search path.
fn call_on_path(
    alloc: Global,
    thread: &Thread,
    name: &str,
    values: Seq<Value>,
) -> Result<Want, NoMemory>
    ensures { IfOk result (Does thread.now (pieces (λ w d s k. calls_on_path name.now values s (sized k)) thread.now)) }
{
    if name == "append" {
        append(alloc, thread, name, values)
    } else {
        insert(alloc, thread, name, values)
    }
}

fn get(alloc: Global, thread: &Thread, name: &str, values: Seq<Value>) -> Result<Want, NoMemory>
    ensures { IfOk result (Does thread.now (pieces (λ w d s k. gets_key name.now values s (sized k)) thread.now)) }
{
    let Some((key, default)) = key_and_default(values) else {
        return miscounted(alloc, thread, name);
    };
    let default = Some(or_nothing(default));
    Ok(Want::Both(Item::ReadEntry { key, default }, Frame::Sized))
}

fn pop(alloc: Global, thread: &Thread, name: &str, values: Seq<Value>) -> Result<Want, NoMemory>
    ensures { IfOk result (Does thread.now (pieces (λ w d s k. pops_key name.now values s (sized k)) thread.now)) }
{
    let Some((key, default)) = key_and_default(values) else {
        return miscounted(alloc, thread, name);
    };
    Ok(Want::Both(Item::PopEntry { key, default }, Frame::Sized))
}

/// A method of the cache.
fn call_on_cache(
    alloc: Global,
    thread: &Thread,
    name: &str,
    values: Seq<Value>,
) -> Result<Want, NoMemory>
    ensures { IfOk result (Does thread.now (pieces (λ w d s k. calls_on_cache name.now values s
        (sized k)) thread.now)) }
{
    if name == "get" {
        get(alloc, thread, name, values)
    } else {
        pop(alloc, thread, name, values)
    }
}

/// A call of a method of this object, once its unit is paid.
pub fn method(
    alloc: Global,
    thread: &Thread,
    expr: Shared<Expr>,
    object: Value,
    values: Seq<Value>,
) -> Result<Want, NoMemory>
    ensures { IfOk result (Does thread.now (begins (items.Method expr object values) thread.now)) }
{
    let name = method_name(expr.get());
    match object {
        Value::SysPath => call_on_path(alloc, thread, name, values),
        Value::SysModules => call_on_cache(alloc, thread, name, values),
        other => {
            drop(other);
            drop(values);
            fail(alloc, thread, Fault::NotInProfile)
        }
    }
}

/// An entry is put into the search path, at its end or before this place.
pub fn add_entry(
    alloc: Global,
    thread: &Thread,
    at: Option<Wide>,
    value: Value,
) -> Result<Want, NoMemory>
    ensures { IfOk result (Does thread.now (begins (items.AddEntry at value) thread.now)) }
{
    if is_special(&value) {
        return fail(alloc, thread, Fault::NotInProfile);
    }
    if nests_too_deep(&value) {
        return fail(alloc, thread, Fault::PathTooDeep);
    }
    let value = Carried::new(alloc, value)?;
    Ok(Want::Call(Event::PathAdd { at, value }, OnReply::PathAdded))
}

/// An entry was put into the search path.
pub fn path_added(alloc: Global, thread: &Thread, reply: Reply) -> Result<Want, NoMemory>
    ensures { IfOk result (Does thread.now (replies ons.PathAdded reply thread.now)) }
{
    match reply {
        Reply::Done => Ok(went(thread, Value::Nothing)),
        Reply::Full => fail(alloc, thread, Fault::PathFull),
        other => {
            drop(other);
            fail(alloc, thread, Fault::NotInProfile)
        }
    }
}
