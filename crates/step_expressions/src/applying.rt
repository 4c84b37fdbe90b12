//! Operators on the values of their operands.
ghost use Rattle.std.specs.Prelude.{◌≡◌, IfOk, [], ◌∷◌, Some, None, true, false};
ghost use Rattle.py_value.specs.declared.value.Value.TheVariants as kinds_of_value;
ghost use Rattle.py_syntax.specs.declared.expr.Expr.{out-Expr};
ghost use Rattle.meaning_script.specs.Meaning.{around_at};
ghost use Rattle.meaning_script.specs.Operators as spec;
ghost use Rattle.step_expressions.specs.OperatorForms as forms;
ghost use Rattle.step_expressions.specs.OperatorForms.{by_one, by_two, member_of, one_of, two_of, sizes};
ghost use Rattle.py_frames.specs.Does.{Does, begins};
ghost use Rattle.py_frames.specs.declared.work.Item.TheVariants as items;

use crate::placing::place_of;
use crate::values::{has_special, one, two};
use base_owners::Shared;
use base_types::{Exact, NoMemory, Seq, Text};
use meaning_state::{Fault, Flow, Leave, Thread};
use py_frames::{Frame, Item, Want, fail, given, is_cache, is_namespace_path, list_operand, sized};
use py_syntax::{BinaryOp, Comparison, Expr};
use py_value::{Applied, BinOp, CmpOp, Value, truth};
use std::alloc::Global;
use value_operators::{
    binary, compare, contains, identical, limited, negate, not_in_profile, subscript,
};

/// The operator on values that an operator of an expression stands for (Language Reference 6.7).
pub fn operator_of(op: BinaryOp) -> BinOp
    ensures { result ≡ spec.operator_of op }
{
    match op {
        BinaryOp::Add => BinOp::Add,
        BinaryOp::Sub => BinOp::Sub,
        BinaryOp::Mul => BinOp::Mul,
        BinaryOp::FloorDiv => BinOp::FloorDiv,
        BinaryOp::Mod => BinOp::Mod,
    }
}

fn inverted(applied: Applied) -> Applied
    ensures { result ≡ spec.inverted applied }
{
    match applied {
        Applied::Value(value) => Applied::Value(Value::Bool(!truth(&value))),
        Applied::Raised(error) => Applied::Raised(error),
    }
}

/// What a comparison of two values gives, none of which is asked of the machine (Language Reference 6.10).
pub fn compared(alloc: Global, op: Comparison, a: &Value, b: &Value) -> Result<Applied, NoMemory>
    ensures { IfOk result (λ applied. applied ≡ spec.compared op a.now b.now) }
{
    match op {
        Comparison::Eq => compare(alloc, CmpOp::Eq, a, b),
        Comparison::Ne => compare(alloc, CmpOp::Ne, a, b),
        Comparison::Lt => compare(alloc, CmpOp::Lt, a, b),
        Comparison::Le => compare(alloc, CmpOp::Le, a, b),
        Comparison::Gt => compare(alloc, CmpOp::Gt, a, b),
        Comparison::Ge => compare(alloc, CmpOp::Ge, a, b),
        Comparison::In => contains(alloc, b, a),
        Comparison::NotIn => Ok(inverted(contains(alloc, b, a)?)),
        Comparison::Is => identical(alloc, a, b),
        Comparison::IsNot => Ok(inverted(identical(alloc, a, b)?)),
    }
}

fn tuple(alloc: Global, values: Seq<Value>) -> Result<Applied, NoMemory>
    ensures { IfOk result (λ applied. applied ≡ spec.displayed kinds_of_value.Tuple values) }
{
    if has_special(&values) {
        return not_in_profile(alloc);
    }
    limited(alloc, Value::Tuple(values))
}

fn list(alloc: Global, values: Seq<Value>) -> Result<Applied, NoMemory>
    ensures { IfOk result (λ applied. applied ≡ spec.displayed kinds_of_value.List values) }
{
    if has_special(&values) {
        return not_in_profile(alloc);
    }
    limited(alloc, Value::List(values))
}

/// An attribute of the one value.
fn attribute(
    alloc: Global,
    thread: &Thread,
    name: &Text,
    values: Seq<Value>,
) -> Result<Want, NoMemory>
    ensures { IfOk result (Does thread.now (sizes (λ w d. member_of (around_at w d) name.now values) thread.now)) }
{
    match one(values) {
        None => fail(alloc, thread, Fault::NotInProfile),
        Some(object) => Ok(Want::Both(
            Item::Member {
                object,
                name: name.copy()?,
            },
            Frame::Sized,
        )),
    }
}

/// A call of the first value with the others.
fn call(alloc: Global, thread: &Thread, values: Seq<Value>) -> Result<Want, NoMemory>
    ensures { IfOk result (Does thread.now (sizes (λ w d. spec.calls_first (around_at w d) values) thread.now)) }
{
    let mut arguments = values;
    if arguments.is_empty() {
        return fail(alloc, thread, Fault::NotInProfile);
    }
    let callee = arguments.remove(0);
    Ok(Want::Both(Item::Call { callee, arguments }, Frame::Sized))
}

/// An item of a list or tuple, of which none is the path of a namespace.
fn item(alloc: Global, thread: &Thread, applied: Applied) -> Result<Want, NoMemory>
    ensures { IfOk result (Does thread.now (sizes (λ w d. spec.gives_item applied) thread.now)) }
{
    match applied {
        Applied::Value(value) => {
            if is_namespace_path(&value) {
                return fail(alloc, thread, Fault::NotInProfile);
            }
            Ok(sized(thread, value))
        }
        Applied::Raised(error) => Ok(Want::Go(Flow::Left(Leave::Raised(error)))),
    }
}

/// An entry of the cache, an item, or a code point.
fn item_of(alloc: Global, thread: &Thread, value: &Value, index: Value) -> Result<Want, NoMemory>
    ensures { IfOk result (Does thread.now (sizes (λ w d. forms.item_of value.now index) thread.now)) }
{
    if is_cache(value) {
        let entry = Item::ReadEntry {
            key: index,
            default: None,
        };
        return Ok(Want::Both(entry, Frame::Sized));
    }
    item(alloc, thread, subscript(alloc, value, &index)?)
}

fn subscription(alloc: Global, thread: &Thread, values: Seq<Value>) -> Result<Want, NoMemory>
    ensures { IfOk result (Does thread.now (sizes (λ w d. by_two (two_of values) forms.item_of) thread.now)) }
{
    match two(values) {
        None => fail(alloc, thread, Fault::NotInProfile),
        Some((value, index)) => item_of(alloc, thread, &value, index),
    }
}

fn negative(alloc: Global, thread: &Thread, values: Seq<Value>) -> Result<Want, NoMemory>
    ensures { IfOk result (Does thread.now (sizes (λ w d. by_one (one_of values) forms.negative_of) thread.now)) }
{
    match one(values) {
        None => fail(alloc, thread, Fault::NotInProfile),
        Some(value) => Ok(given(thread, negate(alloc, &value)?)),
    }
}

fn inverse(alloc: Global, thread: &Thread, values: Seq<Value>) -> Result<Want, NoMemory>
    ensures { IfOk result (Does thread.now (sizes (λ w d. by_one (one_of values) forms.inverse_of) thread.now)) }
{
    match one(values) {
        None => fail(alloc, thread, Fault::NotInProfile),
        Some(value) => Ok(sized(thread, Value::Bool(!truth(&value)))),
    }
}

fn operation(
    alloc: Global,
    thread: &Thread,
    op: BinaryOp,
    values: Seq<Value>,
) -> Result<Want, NoMemory>
    ensures { IfOk result (Does thread.now (sizes (λ w d. by_two (two_of values) (forms.operation_of op)) thread.now)) }
{
    match two(values) {
        None => fail(alloc, thread, Fault::NotInProfile),
        Some((a, b)) => Ok(given(thread, binary(alloc, operator_of(op), &a, &b)?)),
    }
}

/// Whether an item is in a list, tuple or text, or a key in the cache.
fn told_in(
    alloc: Global,
    thread: &Thread,
    op: Comparison,
    is_negated: bool,
    a: Value,
    b: &Value,
) -> Result<Want, NoMemory>
    ensures { IfOk result (Does thread.now (sizes (λ w d. forms.told_in op is_negated a b.now) thread.now)) }
{
    if is_cache(b) {
        return Ok(Want::Both(Item::HasEntry { key: a, is_negated }, Frame::Sized));
    }
    Ok(given(thread, compared(alloc, op, &a, b)?))
}

fn told(
    alloc: Global,
    thread: &Thread,
    op: Comparison,
    a: Value,
    b: &Value,
) -> Result<Want, NoMemory>
    ensures { IfOk result (Does thread.now (sizes (λ w d. forms.told op a b.now) thread.now)) }
{
    match op {
        Comparison::In => told_in(alloc, thread, op, false, a, b),
        Comparison::NotIn => told_in(alloc, thread, op, true, a, b),
        _ => Ok(given(thread, compared(alloc, op, &a, b)?)),
    }
}

fn comparison(
    alloc: Global,
    thread: &Thread,
    op: Comparison,
    values: Seq<Value>,
) -> Result<Want, NoMemory>
    ensures { IfOk result (Does thread.now (sizes (λ w d. by_two (two_of values) (forms.told op)) thread.now)) }
{
    match two(values) {
        None => fail(alloc, thread, Fault::NotInProfile),
        Some((a, b)) => told(alloc, thread, op, a, &b),
    }
}

fn is_call(expr: &Expr) -> bool
    ensures { result ≡ forms.is_call (out-Expr expr.now) }
{
    match expr {
        Expr::Call(_, _) => true,
        _ => false,
    }
}

/// An operator, by its form, on operands that have values.
fn by_form(
    alloc: Global,
    thread: &Thread,
    expr: &Expr,
    values: Seq<Value>,
) -> Result<Want, NoMemory>
    ensures { IfOk result (Does thread.now (sizes (λ w d. forms.given_on (around_at w d) expr.now values) thread.now)) }
{
    if is_call(expr) {
        return call(alloc, thread, values);
    }
    match expr {
        Expr::Tuple(_) => Ok(given(thread, tuple(alloc, values)?)),
        Expr::List(_) => Ok(given(thread, list(alloc, values)?)),
        Expr::Attribute(_, name) => attribute(alloc, thread, name, values),
        Expr::Subscript(_, _) => subscription(alloc, thread, values),
        Expr::Negative(_) => negative(alloc, thread, values),
        Expr::Binary(op, _, _) => operation(alloc, thread, *op, values),
        Expr::Compare(op, _, _) => comparison(alloc, thread, *op, values),
        Expr::Not(_) => inverse(alloc, thread, values),
        _ => fail(alloc, thread, Fault::NotInProfile),
    }
}

/// The operand at this place is the first in whose place a list comes, or which is none.
fn apply_listed(
    alloc: Global,
    thread: &Thread,
    expr: Shared<Expr>,
    values: Seq<Value>,
    at: usize,
) -> Result<Want, NoMemory>
    requires place { forms.place_at (out-Expr expr) values ≡ Some at }
    ensures { IfOk result (Does thread.now (begins (items.Apply expr values) thread.now)) }
{
    let value = match values.get(at) {
        None => return fail(alloc, thread, Fault::NotInProfile),
        Some(value) => value.copy()?,
    };
    list_operand(alloc, thread, Item::Apply { expr, values }, at, value)
}

/// An operator on the values of its operands, once its unit is paid.
pub fn apply(
    alloc: Global,
    thread: &Thread,
    expr: Shared<Expr>,
    values: Seq<Value>,
) -> Result<Want, NoMemory>
    ensures { IfOk result (Does thread.now (begins (items.Apply expr values) thread.now)) }
{
    match place_of(expr.get(), &values) {
        None => by_form(alloc, thread, expr.get(), values),
        Some(at) => apply_listed(alloc, thread, expr, values, at),
    }
}
