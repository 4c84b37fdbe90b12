ghost use Rattle.std.specs.Prelude.{◌≡◌, ◌++◌, ◌<◌, nat_lt, length, pos, neg_ℤ, ◌+ℤ◌, ◌-ℤ◌, ◌*ℤ◌, ◌<ℤ◌, ◌≢◌, IfOk};
ghost use Rattle.value_operators.specs.Outcomes.{fitting, limited, number_of};
ghost use Rattle.value_operators.specs.Arithmetic.{written, floor_quotient, floor_remainder, by_zero, divided, remainder, calculated, unsupported, joined, copies, repeated_text, times, repeated, formatted, combined, by_numbers, binary, augmented, negated_number, negated};
ghost use Rattle.py_value.specs.declared.value.Value.{out-Value};
ghost use Rattle.py_value.specs.declared.value.Value.TheVariants as values;
ghost use Rattle.py_value.specs.declared.operator.BinOp.TheVariants as ops;

use crate::outcome::{
    MOST_ITEMS, MOST_TEXT, is_special, limited, not_in_profile, number, number_of, raise,
    too_long_list, too_long_text,
};
use base_types::{Exact, NoMemory, Text};
use py_value::{Applied, BinOp, Items, Kind, Value, type_name};
use std::alloc::Global;

fn written(op: BinOp) -> &'static str
    ensures { result.now ≡ written op }
{
    match op {
        BinOp::Add => "+",
        BinOp::Sub => "-",
        BinOp::Mul => "*",
        BinOp::FloorDiv => "//",
        BinOp::Mod => "%",
    }
}

fn unsupported(alloc: Global, op: BinOp, left: &Value, right: &Value) -> Result<Applied, NoMemory>
    ensures { IfOk result (λ applied. applied ≡ unsupported op left.now right.now) }
{
    let text = format!(in alloc;
        "unsupported operand type(s) for {}: '{}' and '{}'",
        written(op),
        type_name(left),
        type_name(right)
    )?;
    raise(alloc, Kind::TypeError, text.as_str())
}

fn by_zero(alloc: Global) -> Result<Applied, NoMemory>
    ensures { IfOk result (λ applied. applied ≡ by_zero) }
{
    raise(alloc, Kind::ZeroDivisionError, "division by zero")
}

fn sum(a: i128, b: i128) -> Option<i128>
    ensures { result ≡ fitting (a +ℤ b) }
{
    a.checked_add(b)
}

fn difference(a: i128, b: i128) -> Option<i128>
    ensures { result ≡ fitting (a -ℤ b) }
{
    a.checked_sub(b)
}

fn product(a: i128, b: i128) -> Option<i128>
    ensures { result ≡ fitting (a *ℤ b) }
{
    a.checked_mul(b)
}

fn opposite(a: i128) -> Option<i128>
    ensures { result ≡ fitting (neg_ℤ a) }
{
    a.checked_neg()
}

/// The quotient rounded down.
fn floor_quotient(a: i128, b: i128) -> Option<i128>
    requires { b ≢ pos 0 }
    ensures { result ≡ fitting (floor_quotient a b) }
{
    if 0 < b {
        return Some(a.div_euclid(b));
    }
    let size = b.unsigned_abs();
    if 0 < a {
        // -a is -(a - 1) - 1, so the quotient below 0 is the other one turned bit by bit.
        return Some(!(((a - 1) as u128 / size) as i128));
    }
    i128::try_from(a.unsigned_abs() / size).ok()
}

/// The remainder with the divisor's sign.
fn floor_remainder(a: i128, b: i128) -> Option<i128>
    requires { b ≢ pos 0 }
    ensures { result ≡ fitting (floor_remainder a b) }
{
    if 0 < b {
        return Some(a.rem_euclid(b));
    }
    let size = b.unsigned_abs();
    if 0 < a {
        return Some(-((size - 1 - (a - 1) as u128 % size) as i128));
    }
    Some(-((a.unsigned_abs() % size) as i128))
}

fn divided(alloc: Global, a: i128, b: i128) -> Result<Applied, NoMemory>
    ensures { IfOk result (λ applied. applied ≡ divided a b) }
{
    if b == 0 {
        return by_zero(alloc);
    }
    number(alloc, floor_quotient(a, b))
}

fn remainder(alloc: Global, a: i128, b: i128) -> Result<Applied, NoMemory>
    ensures { IfOk result (λ applied. applied ≡ remainder a b) }
{
    if b == 0 {
        return by_zero(alloc);
    }
    number(alloc, floor_remainder(a, b))
}

fn calculated(alloc: Global, op: BinOp, a: i128, b: i128) -> Result<Applied, NoMemory>
    ensures { IfOk result (λ applied. applied ≡ calculated op a b) }
{
    match op {
        BinOp::Add => number(alloc, sum(a, b)),
        BinOp::Sub => number(alloc, difference(a, b)),
        BinOp::Mul => number(alloc, product(a, b)),
        BinOp::FloorDiv => divided(alloc, a, b),
        BinOp::Mod => remainder(alloc, a, b),
    }
}

fn joined_texts(alloc: Global, a: &Text, b: &Text) -> Result<Applied, NoMemory>
    ensures { IfOk result (λ applied. applied ≡ limited (values.Text (a.now ++ b.now))) }
{
    if a.len() > MOST_TEXT {
        return too_long_text(alloc);
    }
    if b.len() > MOST_TEXT - a.len() {
        return too_long_text(alloc);
    }
    let mut text = a.copy()?;
    text.push_str(b.as_str())?;
    Ok(Applied::Value(Value::Text(text)))
}

/// The items of both, in this order.
fn joined_items(a: &Items, b: &Items) -> Result<Items, NoMemory>
    ensures { IfOk result (λ items. items ≡ a.now ++ b.now) }
{
    let mut items = a.copy()?;
    for item in b.as_slice() {
        items.push(item.copy()?)?;
    }
    Ok(items)
}

/// Whether two lists together have more items than a list may have.
fn are_too_long(a: &Items, b: &Items) -> bool
    ensures { result ≡ nat_lt 4096 (length (a.now ++ b.now)) }
{
    if a.len() > MOST_ITEMS {
        return true;
    }
    b.len() > MOST_ITEMS - a.len()
}

fn joined_lists(alloc: Global, a: &Items, b: &Items) -> Result<Applied, NoMemory>
    ensures { IfOk result (λ applied. applied ≡ limited (values.List (a.now ++ b.now))) }
{
    if are_too_long(a, b) {
        return too_long_list(alloc);
    }
    limited(alloc, Value::List(joined_items(a, b)?))
}

fn joined_tuples(alloc: Global, a: &Items, b: &Items) -> Result<Applied, NoMemory>
    ensures { IfOk result (λ applied. applied ≡ limited (values.Tuple (a.now ++ b.now))) }
{
    if are_too_long(a, b) {
        return too_long_list(alloc);
    }
    limited(alloc, Value::Tuple(joined_items(a, b)?))
}

fn joined(alloc: Global, left: &Value, right: &Value) -> Result<Applied, NoMemory>
    ensures { IfOk result (λ applied. applied ≡ joined (out-Value left.now) (out-Value right.now)
        (unsupported ops.Add left.now right.now)) }
{
    match left {
        Value::Text(a) => match right {
            Value::Text(b) => joined_texts(alloc, a, b),
            _ => unsupported(alloc, BinOp::Add, left, right),
        },
        Value::List(a) => match right {
            Value::List(b) => joined_lists(alloc, a, b),
            _ => unsupported(alloc, BinOp::Add, left, right),
        },
        Value::Tuple(a) => match right {
            Value::Tuple(b) => joined_tuples(alloc, a, b),
            _ => unsupported(alloc, BinOp::Add, left, right),
        },
        _ => unsupported(alloc, BinOp::Add, left, right),
    }
}

/// The text n times. What is made is never longer than a text may be.
fn copies_of(text: &Text, n: usize) -> Result<Text, NoMemory>
    ensures { IfOk result (λ made. made ≡ copies n text.now) }
{
    let mut made = Text::new(text.alloc());
    for _ in 0..n {
        made.push_str(text.as_str())?;
    }
    Ok(made)
}

fn copied_text(alloc: Global, text: &Text, n: u128) -> Result<Applied, NoMemory>
    ensures { IfOk result (λ applied. applied ≡ limited (values.Text (copies n text.now))) }
{
    if text.len() == 0 {
        return Ok(Applied::Value(Value::Text(Text::new(alloc))));
    }
    if n > (MOST_TEXT / text.len()) as u128 {
        return too_long_text(alloc);
    }
    Ok(Applied::Value(Value::Text(copies_of(text, n as usize)?)))
}

fn repeated_text(alloc: Global, text: &Text, n: i128) -> Result<Applied, NoMemory>
    ensures { IfOk result (λ applied. applied ≡ repeated_text text.now n) }
{
    if n < 0 {
        return Ok(Applied::Value(Value::Text(Text::new(alloc))));
    }
    copied_text(alloc, text, n as u128)
}

fn times(
    alloc: Global,
    value: &Value,
    n: i128,
    left: &Value,
    right: &Value,
) -> Result<Applied, NoMemory>
    ensures { IfOk result (λ applied. applied ≡ times (out-Value value.now) n
        (unsupported ops.Mul left.now right.now)) }
{
    match value {
        Value::Text(text) => repeated_text(alloc, text, n),
        Value::List(_) => not_in_profile(alloc),
        Value::Tuple(_) => not_in_profile(alloc),
        _ => unsupported(alloc, BinOp::Mul, left, right),
    }
}

fn repeated(alloc: Global, left: &Value, right: &Value) -> Result<Applied, NoMemory>
    ensures { IfOk result (λ applied. applied ≡ repeated left.now right.now (number_of left.now) (number_of right.now)
        (unsupported ops.Mul left.now right.now)) }
{
    match number_of(left) {
        Some(n) => match number_of(right) {
            Some(_) => unsupported(alloc, BinOp::Mul, left, right),
            None => times(alloc, right, n, left, right),
        },
        None => match number_of(right) {
            Some(n) => times(alloc, left, n, left, right),
            None => unsupported(alloc, BinOp::Mul, left, right),
        },
    }
}

fn formatted(alloc: Global, left: &Value, right: &Value) -> Result<Applied, NoMemory>
    ensures { IfOk result (λ applied. applied ≡ formatted (out-Value left.now)
        (unsupported ops.Mod left.now right.now)) }
{
    match left {
        Value::Text(_) => not_in_profile(alloc),
        _ => unsupported(alloc, BinOp::Mod, left, right),
    }
}

fn combined(alloc: Global, op: BinOp, left: &Value, right: &Value) -> Result<Applied, NoMemory>
    ensures { IfOk result (λ applied. applied ≡ combined op left.now right.now) }
{
    match op {
        BinOp::Add => joined(alloc, left, right),
        BinOp::Mul => repeated(alloc, left, right),
        BinOp::Mod => formatted(alloc, left, right),
        BinOp::Sub => unsupported(alloc, BinOp::Sub, left, right),
        BinOp::FloorDiv => unsupported(alloc, BinOp::FloorDiv, left, right),
    }
}

fn by_numbers(alloc: Global, op: BinOp, left: &Value, right: &Value) -> Result<Applied, NoMemory>
    ensures { IfOk result (λ applied. applied ≡ by_numbers op left.now right.now (number_of left.now)
        (number_of right.now)) }
{
    match number_of(left) {
        Some(a) => match number_of(right) {
            Some(b) => calculated(alloc, op, a, b),
            None => combined(alloc, op, left, right),
        },
        None => combined(alloc, op, left, right),
    }
}

/// What a binary operator gives (Language Reference 6.7). Numbers have 128 bits; division rounds
/// down, and a remainder has the divisor's sign. Texts, lists and tuples are joined by `+`, and a
/// text is repeated by `*`. What these operators do in Python beside this is refused as not in the
/// profile, or as a TypeError where Python refuses it too.
pub fn binary(alloc: Global, op: BinOp, left: &Value, right: &Value) -> Result<Applied, NoMemory>
    ensures { IfOk result (λ applied. applied ≡ binary op left.now right.now) }
{
    if is_special(left) {
        return not_in_profile(alloc);
    }
    if is_special(right) {
        return not_in_profile(alloc);
    }
    by_numbers(alloc, op, left, right)
}

/// What an augmented assignment computes (Language Reference 7.2.1): as `binary`, but `+=` with a
/// list on the left, which Python does in place, is refused.
pub fn augmented(alloc: Global, op: BinOp, left: &Value, right: &Value) -> Result<Applied, NoMemory>
    ensures { IfOk result (λ applied. applied ≡ augmented op left.now right.now) }
{
    match op {
        BinOp::Add => match left {
            Value::List(_) => not_in_profile(alloc),
            _ => binary(alloc, op, left, right),
        },
        _ => binary(alloc, op, left, right),
    }
}

/// What unary minus gives (Language Reference 6.6).
pub fn negate(alloc: Global, value: &Value) -> Result<Applied, NoMemory>
    ensures { IfOk result (λ applied. applied ≡ negated value.now) }
{
    if is_special(value) {
        return not_in_profile(alloc);
    }
    match number_of(value) {
        Some(n) => number(alloc, opposite(n)),
        None => no_opposite(alloc, value),
    }
}

fn no_opposite(alloc: Global, value: &Value) -> Result<Applied, NoMemory>
    ensures { IfOk result (λ applied. applied ≡ negated_number value.now None) }
{
    let text = format!(in alloc; "bad operand type for unary -: '{}'", type_name(value))?;
    raise(alloc, Kind::TypeError, text.as_str())
}
