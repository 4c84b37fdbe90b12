ghost use Rattle.std.specs.Prelude.{◌≡◌, map, not, IfOk};
ghost use Rattle.py_value.specs.declared.value.Value.{out-Value};
ghost use Rattle.value_operators.specs.Outcomes.{number_of};
ghost use Rattle.value_operators.specs.Comparison as table;

use crate::outcome::{
    bool_number, is_plain, is_special, not_in_profile, number_of, raise, truth_value,
};
use base_types::{NoMemory, Text};
use py_value::{Applied, CmpOp, Items, Kind, ModRef, Native, TypeName, Value, type_of};
use std::alloc::Global;
use std::cmp::Ordering;

/// How two values compare: the same, in this order, or neither. The types are those of the values
/// that decide.
#[derive(Clone, Copy, Drop)]
pub enum Compared {
    Same,
    Less,
    Greater,
    Apart(TypeName, TypeName),
}

fn compared_numbers(a: i128, b: i128) -> Compared
    ensures { result ≡ table.compared_numbers a b }
{
    if a < b {
        return Compared::Less;
    }
    if b < a {
        return Compared::Greater;
    }
    Compared::Same
}

fn compared_texts(a: &Text, b: &Text) -> Compared
    ensures { result ≡ table.compared_texts a.now b.now }
{
    match a.cmp(b) {
        Ordering::Less => Compared::Less,
        Ordering::Equal => Compared::Same,
        Ordering::Greater => Compared::Greater,
    }
}

fn same_where(same: bool, left: TypeName, right: &Value) -> Compared
    ensures { result ≡ table.same_where same left right.now }
{
    if same {
        return Compared::Same;
    }
    Compared::Apart(left, type_of(right))
}

fn beside_number(left: TypeName, a: i128, right: &Value) -> Compared
    ensures { result ≡ table.beside_number left a right.now (number_of right.now) }
{
    match number_of(right) {
        Some(b) => compared_numbers(a, b),
        None => Compared::Apart(left, type_of(right)),
    }
}

fn beside_text(a: &Text, right: &Value) -> Compared
    ensures { result ≡ table.beside_text a.now right.now (out-Value right.now) }
{
    match right {
        Value::Text(b) => compared_texts(a, b),
        _ => Compared::Apart(TypeName::Str, type_of(right)),
    }
}

fn is_nothing(value: &Value) -> bool
    ensures { result ≡ table.is_nothing (out-Value value.now) }
{
    match value {
        Value::Nothing => true,
        _ => false,
    }
}

fn is_func(load: u32, index: u32, value: &Value) -> bool
    ensures { result ≡ table.is_func load index (out-Value value.now) }
{
    match value {
        Value::Func {
            load: other_load,
            index: other_index,
            name: _,
        } => load == *other_load && index == *other_index,
        _ => false,
    }
}

fn is_native(native: Native, value: &Value) -> bool
    ensures { result ≡ table.is_native native (out-Value value.now) }
{
    match value {
        Value::Native(other) => native == *other,
        _ => false,
    }
}

fn is_kind(kind: Kind, value: &Value) -> bool
    ensures { result ≡ table.is_kind kind (out-Value value.now) }
{
    match value {
        Value::Kind(other) => kind == *other,
        _ => false,
    }
}

fn is_module(held: &ModRef, value: &Value) -> bool
    ensures { result ≡ table.is_module held.now.mid (out-Value value.now) }
{
    match value {
        Value::Module(other) => held.mid() == other.mid(),
        _ => false,
    }
}

#[cycle(compares)]
pub(crate) fn order_of(left: &Value, right: &Value) -> Compared
    ensures { result ≡ table.order_of left.now right.now }
{
    match left {
        Value::Nothing => same_where(is_nothing(right), TypeName::NoneType, right),
        Value::Bool(b) => beside_number(TypeName::Bool, bool_number(*b), right),
        Value::Int(n) => beside_number(TypeName::Int, n.get(), right),
        Value::Text(text) => beside_text(text, right),
        Value::List(items) => beside_list(items, right),
        Value::Tuple(items) => beside_tuple(items, right),
        Value::Func {
            load,
            index,
            name: _,
        } => same_where(is_func(*load, *index, right), TypeName::Function, right),
        Value::Native(native) => same_where(is_native(*native, right), type_of(left), right),
        Value::Kind(kind) => same_where(is_kind(*kind, right), TypeName::Type, right),
        Value::Module(held) => same_where(is_module(held, right), TypeName::Module, right),
        _ => Compared::Apart(type_of(left), type_of(right)),
    }
}

#[cycle(compares)]
fn beside_list(items: &Items, right: &Value) -> Compared
    ensures { result ≡ table.beside_list (map table.order_of items.now) right.now (out-Value right.now) }
{
    match right {
        Value::List(others) => compared_items(items, others),
        _ => Compared::Apart(TypeName::List, type_of(right)),
    }
}

#[cycle(compares)]
fn beside_tuple(items: &Items, right: &Value) -> Compared
    ensures { result ≡ table.beside_tuple (map table.order_of items.now) right.now (out-Value right.now) }
{
    match right {
        Value::Tuple(others) => compared_items(items, others),
        _ => Compared::Apart(TypeName::Tuple, type_of(right)),
    }
}

#[cycle(compares)]
fn compared_items(items: &Items, others: &Items) -> Compared
    ensures { result ≡ table.compared_items (map table.order_of items.now) others.now }
{
    let xs = items.as_slice();
    let ys = others.as_slice();
    for i in 0..xs.len() {
        if ys.len() <= i {
            return Compared::Greater;
        }
        match order_of(&xs[i], &ys[i]) {
            Compared::Same => {}
            found => return found,
        }
    }
    if xs.len() < ys.len() {
        return Compared::Less;
    }
    Compared::Same
}

pub(crate) fn are_equal(left: &Value, right: &Value) -> bool
    ensures { result ≡ table.is_same (table.order_of left.now right.now) }
{
    match order_of(left, right) {
        Compared::Same => true,
        _ => false,
    }
}

fn written(op: CmpOp) -> &'static str
    ensures { result.now ≡ table.written op }
{
    match op {
        CmpOp::Eq => "==",
        CmpOp::Ne => "!=",
        CmpOp::Lt => "<",
        CmpOp::Le => "<=",
        CmpOp::Gt => ">",
        CmpOp::Ge => ">=",
    }
}

fn no_order(alloc: Global, op: CmpOp, left: TypeName, right: TypeName) -> Result<Applied, NoMemory>
    ensures { IfOk result (λ applied. applied ≡ table.no_order op left right) }
{
    let text = format!(in alloc;
        "'{}' not supported between instances of '{}' and '{}'",
        written(op),
        left.text(),
        right.text()
    )?;
    raise(alloc, Kind::TypeError, text.as_str())
}

fn where_less(op: CmpOp) -> bool
    ensures { result ≡ table.where_less op }
{
    match op {
        CmpOp::Lt | CmpOp::Le => true,
        _ => false,
    }
}

fn where_same(op: CmpOp) -> bool
    ensures { result ≡ table.where_same op }
{
    match op {
        CmpOp::Le | CmpOp::Ge => true,
        _ => false,
    }
}

fn where_greater(op: CmpOp) -> bool
    ensures { result ≡ table.where_greater op }
{
    match op {
        CmpOp::Gt | CmpOp::Ge => true,
        _ => false,
    }
}

fn by_order(alloc: Global, op: CmpOp, order: Compared) -> Result<Applied, NoMemory>
    ensures { IfOk result (λ applied. applied ≡ table.by_order op order) }
{
    match order {
        Compared::Less => Ok(Applied::Value(Value::Bool(where_less(op)))),
        Compared::Same => Ok(Applied::Value(Value::Bool(where_same(op)))),
        Compared::Greater => Ok(Applied::Value(Value::Bool(where_greater(op)))),
        Compared::Apart(left, right) => no_order(alloc, op, left, right),
    }
}

fn has_order(value: &Value) -> bool
    ensures { result ≡ table.has_order (out-Value value.now) }
{
    match value {
        Value::Bool(_) | Value::Int(_) | Value::Text(_) | Value::List(_) | Value::Tuple(_) => true,
        _ => false,
    }
}

fn ordered(alloc: Global, op: CmpOp, left: &Value, right: &Value) -> Result<Applied, NoMemory>
    ensures { IfOk result (λ applied. applied ≡ table.ordered op left.now right.now) }
{
    if has_order(left) {
        return by_order(alloc, op, order_of(left, right));
    }
    no_order(alloc, op, type_of(left), type_of(right))
}

fn answered(alloc: Global, op: CmpOp, left: &Value, right: &Value) -> Result<Applied, NoMemory>
    ensures { IfOk result (λ applied. applied ≡ table.answered op left.now right.now) }
{
    match op {
        CmpOp::Eq => Ok(Applied::Value(Value::Bool(are_equal(left, right)))),
        CmpOp::Ne => Ok(Applied::Value(Value::Bool(!are_equal(left, right)))),
        _ => ordered(alloc, op, left, right),
    }
}

/// What a comparison gives (Language Reference 6.10.1). A Bool counts as 0 or 1. Texts are ordered
/// by their bytes, lists and tuples by their first items that differ, and else by length. What is or
/// holds an error, or holds what stands for something in the machine, is not compared.
pub fn compare(alloc: Global, op: CmpOp, left: &Value, right: &Value) -> Result<Applied, NoMemory>
    ensures { IfOk result (λ applied. applied ≡ table.compare op left.now right.now) }
{
    if !is_plain(left) {
        return not_in_profile(alloc);
    }
    if !is_plain(right) {
        return not_in_profile(alloc);
    }
    answered(alloc, op, left, right)
}

fn same_module(alloc: Global, held: &ModRef, right: &Value) -> Result<Applied, NoMemory>
    ensures { IfOk result (λ applied. applied ≡ table.module_beside held.now.mid (out-Value right.now)) }
{
    match right {
        Value::Nothing => Ok(truth_value(false)),
        Value::Module(other) => Ok(truth_value(held.mid() == other.mid())),
        _ => not_in_profile(alloc),
    }
}

fn not_nothing(alloc: Global, right: &Value) -> Result<Applied, NoMemory>
    ensures { IfOk result (λ applied. applied ≡ table.other_beside (out-Value right.now)) }
{
    match right {
        Value::Nothing => Ok(truth_value(false)),
        _ => not_in_profile(alloc),
    }
}

/// Whether two values are one object (Language Reference 6.10.3): asked only where one of them is
/// None, or where both are modules.
pub fn identical(alloc: Global, left: &Value, right: &Value) -> Result<Applied, NoMemory>
    ensures { IfOk result (λ applied. applied ≡ table.identical left.now right.now) }
{
    if is_special(left) {
        return not_in_profile(alloc);
    }
    if is_special(right) {
        return not_in_profile(alloc);
    }
    match left {
        Value::Nothing => Ok(truth_value(is_nothing(right))),
        Value::Module(held) => same_module(alloc, held, right),
        _ => not_nothing(alloc, right),
    }
}
