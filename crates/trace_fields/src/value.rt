//! Values.
ghost use Rattle.std.specs.Prelude.{◌≡◌, ◌≤◌, IfOk};
ghost use Rattle.trace_fields.specs.Splitting.{views};
ghost use Rattle.trace_fields.specs.Parts.{each};
ghost use Rattle.trace_fields.specs.Values as values;

use crate::parts::{between, items, three_in};
use crate::simple::{error_in, module_in, signed_in};
use crate::words::{constant_in, constant_value, kind_in, native_in};
use crate::{any_name_in, small_number_in};
use base_spelling::read_quoted;
use base_types::{NoMemory, Seq, Wide};
use py_value::{Items, Value};
use std::alloc::Global;

/// So many lists and tuples stand inside one another in a value at most.
const DEEPEST: u32 = 64;

fn function_of(
    alloc: Global,
    load: &[u8],
    index: &[u8],
    name: &[u8],
) -> Result<Option<Value>, NoMemory>
    ensures { IfOk result (λ o. o ≡ values.function_of (load.now, index.now, name.now)) }
{
    let Some(load) = small_number_in(load) else {
        return Ok(None);
    };
    let Some(index) = small_number_in(index) else {
        return Ok(None);
    };
    match any_name_in(alloc, name)? {
        Some(name) => Ok(Some(Value::Func { load, index, name })),
        None => Ok(None),
    }
}

fn function_in(alloc: Global, field: &[u8]) -> Result<Option<Value>, NoMemory>
    ensures { IfOk result (λ o. o ≡ values.function_in field.now) }
{
    match three_in(alloc, b"func(", field)? {
        Some((a, b, c)) => function_of(alloc, a, b, c),
        None => Ok(None),
    }
}

fn native_value_in(field: &[u8]) -> Option<Value>
    ensures { result ≡ values.native_value_in field.now }
{
    let Some(name) = between(b"native(", b')', field) else {
        return None;
    };
    match native_in(name) {
        Some(native) => Some(Value::Native(native)),
        None => None,
    }
}

fn kind_value_in(field: &[u8]) -> Option<Value>
    ensures { result ≡ values.kind_value_in field.now }
{
    let Some(name) = between(b"kind(", b')', field) else {
        return None;
    };
    match kind_in(name) {
        Some(kind) => Some(Value::Kind(kind)),
        None => None,
    }
}

fn module_value_in(alloc: Global, field: &[u8]) -> Result<Option<Value>, NoMemory>
    ensures { IfOk result (λ o. o ≡ values.module_value_in field.now) }
{
    match module_in(alloc, field)? {
        Some(m) => Ok(Some(Value::Module(m))),
        None => Ok(None),
    }
}

fn error_value_in(alloc: Global, field: &[u8]) -> Result<Option<Value>, NoMemory>
    ensures { IfOk result (λ o. o ≡ values.error_value_in field.now) }
{
    match error_in(alloc, field)? {
        Some(error) => Ok(Some(Value::Error(error))),
        None => Ok(None),
    }
}

/// A value that is written with its parts behind a word.
fn called_in(alloc: Global, field: &[u8]) -> Result<Option<Value>, NoMemory>
    ensures { IfOk result (λ o. o ≡ values.called_in field.now) }
{
    if let Some(value) = native_value_in(field) {
        return Ok(Some(value));
    }
    if let Some(value) = kind_value_in(field) {
        return Ok(Some(value));
    }
    if let Some(value) = function_in(alloc, field)? {
        return Ok(Some(value));
    }
    if let Some(value) = module_value_in(alloc, field)? {
        return Ok(Some(value));
    }
    error_value_in(alloc, field)
}

/// A value that begins with a word.
fn worded_in(alloc: Global, field: &[u8]) -> Result<Option<Value>, NoMemory>
    ensures { IfOk result (λ o. o ≡ values.worded_in field.now) }
{
    match constant_in(field) {
        Some(constant) => Ok(Some(constant_value(constant))),
        None => called_in(alloc, field),
    }
}

fn text_value_in(alloc: Global, field: &[u8]) -> Result<Option<Value>, NoMemory>
    ensures { IfOk result (λ o. o ≡ values.text_value_in field.now) }
{
    match read_quoted(alloc, field)? {
        Some(text) => Ok(Some(Value::Text(text))),
        None => Ok(None),
    }
}

fn number_value_in(alloc: Global, field: &[u8]) -> Result<Option<Value>, NoMemory>
    ensures { IfOk result (λ o. o ≡ values.number_value_in field.now) }
{
    match signed_in(alloc, field)? {
        Some(n) => Ok(Some(Value::Int(Wide::of(n)))),
        None => Ok(None),
    }
}

fn begins_number(b: u8) -> bool
    ensures { result ≡ values.begins_number b }
{
    b == b'-' || b.is_ascii_digit()
}

/// A value that is no list and no tuple.
#[tactic(auto, unfolding(crate::specs::Values::plain_in))]
fn plain_in(alloc: Global, field: &[u8]) -> Result<Option<Value>, NoMemory>
    ensures { IfOk result (λ o. o ≡ values.plain_in field.now) }
{
    let [b, ..] = field else {
        return Ok(None);
    };
    if *b == b'"' {
        return text_value_in(alloc, field);
    }
    if begins_number(*b) {
        return number_value_in(alloc, field);
    }
    worded_in(alloc, field)
}

/// The value that a field spells, in which at most so many lists and tuples stand inside one another.
#[cycle(values)]
fn value_within(alloc: Global, levels: u32, field: &[u8]) -> Result<Option<Value>, NoMemory>
    ensures { IfOk result (λ o. o ≡ values.value_in levels field.now) }
{
    if levels == 0 {
        plain_in(alloc, field)
    } else {
        nested(alloc, levels - 1, field)
    }
}

/// A value whose items, where it is a list or a tuple, have so many levels at most.
#[cycle(values)]
#[tactic(auto, unfolding(crate::specs::Values::nested))]
fn nested(alloc: Global, levels: u32, field: &[u8]) -> Result<Option<Value>, NoMemory>
    ensures { IfOk result (λ o. o ≡ values.nested (values.value_in levels) field.now) }
{
    let [b, ..] = field else {
        return Ok(None);
    };
    if *b == b'[' {
        return match listed_values(alloc, levels, b"[", b']', field)? {
            Some(items) => Ok(Some(Value::List(items))),
            None => Ok(None),
        };
    }
    if *b == b'(' {
        return match listed_values(alloc, levels, b"(", b')', field)? {
            Some(items) => Ok(Some(Value::Tuple(items))),
            None => Ok(None),
        };
    }
    plain_in(alloc, field)
}

#[cycle(values)]
fn listed_values(
    alloc: Global,
    levels: u32,
    front: &[u8],
    last: u8,
    field: &[u8],
) -> Result<Option<Items>, NoMemory>
    ensures { IfOk result (λ o. o ≡ values.listed_values levels front.now last field.now) }
{
    match between(front, last, field) {
        Some(inside) => {
            let pieces = items(alloc, inside)?;
            each_value(alloc, levels, pieces.as_slice())
        }
        None => Ok(None),
    }
}

#[cycle(values)]
fn each_value(alloc: Global, levels: u32, pieces: &[&[u8]]) -> Result<Option<Items>, NoMemory>
    ensures { IfOk result (λ o. o ≡ each (values.value_in levels) (views pieces.now)) }
{
    let mut items = Seq::new(alloc);
    for i in 0..pieces.len() {
        match value_within(alloc, levels, pieces[i])? {
            Some(value) => items.push(value)?,
            None => return Ok(None),
        }
    }
    Ok(Some(items))
}

/// The value that a field spells.
pub fn value_in(alloc: Global, field: &[u8]) -> Result<Option<Value>, NoMemory>
    ensures { IfOk result (λ o. o ≡ values.value_in 64 field.now) }
{
    value_within(alloc, DEEPEST, field)
}

/// The values in brackets that a field spells.
pub fn values_in(alloc: Global, field: &[u8]) -> Result<Option<Items>, NoMemory>
    ensures { IfOk result (λ o. o ≡ values.values_in field.now) }
{
    listed_values(alloc, DEEPEST, b"[", b']', field)
}
