ghost use Rattle.std.specs.Prelude.{◌≡◌, length, slice_get, pos, negsuc, codes, IfOk};
ghost use Rattle.std.specs.Option.{option_map};
ghost use Rattle.std.specs.Str.{chars};
ghost use Rattle.py_value.specs.declared.value.Value.{out-Value};
ghost use Rattle.value_operators.specs.Items as table;

use crate::comparison::are_equal;
use crate::outcome::{is_plain, is_special, not_in_profile, number_of, raise, truth_value};
use base_types::{Exact, NoMemory, Text};
use py_value::{Applied, Items, Kind, Value, type_name};
use std::alloc::Global;

fn among(alloc: Global, items: &Items, item: &Value) -> Result<Applied, NoMemory>
    ensures { IfOk result (λ applied. applied ≡ table.among items.now item.now) }
{
    for x in items.as_slice() {
        if !is_plain(x) {
            return not_in_profile(alloc);
        }
        if !is_plain(item) {
            return not_in_profile(alloc);
        }
        if are_equal(x, item) {
            return Ok(truth_value(true));
        }
    }
    Ok(truth_value(false))
}

fn holds_text(text: &str, needle: &str) -> bool
    ensures { result ≡ table.holds_text text.now needle.now }
{
    text.contains(needle)
}

fn not_iterable(alloc: Global, container: &Value) -> Result<Applied, NoMemory>
    ensures { IfOk result (λ applied. applied ≡ table.not_iterable container.now) }
{
    let text = format!(in alloc;
        "argument of type '{}' is not iterable",
        type_name(container)
    )?;
    raise(alloc, Kind::TypeError, text.as_str())
}

fn inside_text(
    alloc: Global,
    text: &Text,
    item: &Value,
    container: &Value,
) -> Result<Applied, NoMemory>
    ensures { IfOk result (λ applied. applied ≡ table.inside_text text.now (out-Value item.now)
        (table.not_iterable container.now)) }
{
    match item {
        Value::Text(needle) => Ok(truth_value(holds_text(text.as_str(), needle.as_str()))),
        _ => not_iterable(alloc, container),
    }
}

/// What `in` gives (Language Reference 6.10.2): whether some item of a list or tuple equals the item,
/// or whether one text stands inside another.
pub fn contains(alloc: Global, container: &Value, item: &Value) -> Result<Applied, NoMemory>
    ensures { IfOk result (λ applied. applied ≡ table.contains container.now item.now) }
{
    if is_special(container) {
        return not_in_profile(alloc);
    }
    if is_special(item) {
        return not_in_profile(alloc);
    }
    match container {
        Value::List(items) => among(alloc, items, item),
        Value::Tuple(items) => among(alloc, items, item),
        Value::Text(text) => inside_text(alloc, text, item, container),
        _ => not_iterable(alloc, container),
    }
}

fn place_of(len: usize, n: i128) -> Option<usize>
    ensures { result ≡ table.place_of len n }
{
    if 0 <= n {
        return place_from_start(len, n as u128);
    }
    place_from_end(len, !n as u128)
}

fn place_from_start(len: usize, n: u128) -> Option<usize>
    ensures { result ≡ table.place_of len (pos n) }
{
    if n < len as u128 {
        Some(n as usize)
    } else {
        None
    }
}

/// The place that is n places before the last one.
fn place_from_end(len: usize, n: u128) -> Option<usize>
    ensures { result ≡ table.place_of len (negsuc n) }
{
    if n < len as u128 {
        Some(len - 1 - n as usize)
    } else {
        None
    }
}

fn item_at(alloc: Global, items: &Items, n: i128, name: &str) -> Result<Applied, NoMemory>
    ensures { IfOk result (λ applied. applied ≡ table.found (table.item_at items.now n) (table.out_of_range name.now)) }
{
    match place_of(items.len(), n) {
        Some(at) => match items.get(at) {
            Some(item) => Ok(Applied::Value(item.copy()?)),
            None => out_of_range(alloc, name),
        },
        None => out_of_range(alloc, name),
    }
}

fn out_of_range(alloc: Global, name: &str) -> Result<Applied, NoMemory>
    ensures { IfOk result (λ applied. applied ≡ table.out_of_range name.now) }
{
    let text = format!(in alloc; "{} index out of range", name)?;
    raise(alloc, Kind::IndexError, text.as_str())
}

fn count_letters(text: &str) -> usize
    ensures { result ≡ length (chars text.now) }
{
    text.chars().count()
}

fn letter_at(text: &str, at: usize) -> Option<char>
    ensures { result ≡ slice_get (chars text.now) at }
{
    text.chars().nth(at)
}

fn letter(alloc: Global, c: char) -> Result<Value, NoMemory>
    ensures { IfOk result (λ value. value ≡ table.letter c) }
{
    let mut text = String::new(alloc);
    text.push(c)?;
    Ok(Value::Text(Text::from_string(text)?))
}

fn letter_of(alloc: Global, text: &str, n: i128) -> Result<Applied, NoMemory>
    ensures { IfOk result (λ applied. applied ≡ table.found
        (option_map table.letter (table.item_at (chars text.now) n)) (table.out_of_range (codes "string"))) }
{
    match place_of(count_letters(text), n) {
        Some(at) => match letter_at(text, at) {
            Some(c) => Ok(Applied::Value(letter(alloc, c)?)),
            None => out_of_range(alloc, "string"),
        },
        None => out_of_range(alloc, "string"),
    }
}

fn not_subscriptable(alloc: Global, value: &Value) -> Result<Applied, NoMemory>
    ensures { IfOk result (λ applied. applied ≡ table.not_subscriptable value.now) }
{
    let text = format!(in alloc; "'{}' object is not subscriptable", type_name(value))?;
    raise(alloc, Kind::TypeError, text.as_str())
}

fn has_items(value: &Value) -> bool
    ensures { result ≡ table.has_items (out-Value value.now) }
{
    match value {
        Value::List(_) | Value::Tuple(_) | Value::Text(_) => true,
        _ => false,
    }
}

fn at_number(alloc: Global, value: &Value, n: i128) -> Result<Applied, NoMemory>
    ensures { IfOk result (λ applied. applied ≡ table.subscript_at (out-Value value.now) n
        (table.not_subscriptable value.now)) }
{
    match value {
        Value::List(items) => item_at(alloc, items, n, "list"),
        Value::Tuple(items) => item_at(alloc, items, n, "tuple"),
        Value::Text(text) => letter_of(alloc, text.as_str(), n),
        _ => not_subscriptable(alloc, value),
    }
}

fn at_no_number(alloc: Global, value: &Value) -> Result<Applied, NoMemory>
    ensures { IfOk result (λ applied. applied ≡ table.at_index value.now None) }
{
    if has_items(value) {
        return raise(alloc, Kind::TypeError, "indices must be integers");
    }
    not_subscriptable(alloc, value)
}

/// What a subscription gives (Language Reference 6.3.2): the item of a list or tuple, or the code
/// point of a text, at a place counted from 0, or from the end where it is below 0.
pub fn subscript(alloc: Global, value: &Value, index: &Value) -> Result<Applied, NoMemory>
    ensures { IfOk result (λ applied. applied ≡ table.subscript value.now index.now) }
{
    if is_special(value) {
        return not_in_profile(alloc);
    }
    if is_special(index) {
        return not_in_profile(alloc);
    }
    match number_of(index) {
        Some(n) => at_number(alloc, value, n),
        None => at_no_number(alloc, value),
    }
}

/// How many items a list or tuple has, or how many code points a text; None for all else.
pub fn length_of(value: &Value) -> Option<usize>
    ensures { result ≡ table.length_of value.now }
{
    match value {
        Value::List(items) => Some(items.len()),
        Value::Tuple(items) => Some(items.len()),
        Value::Text(text) => Some(count_letters(text.as_str())),
        _ => None,
    }
}
