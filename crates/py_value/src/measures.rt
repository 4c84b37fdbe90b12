ghost use Rattle.std.specs.Prelude.{◌≡◌, ◌+◌, ◌/◌, ◌^◌, ◌-◌, min, map, length};
ghost use Rattle.std.specs.List.{sum};
ghost use Rattle.py_value.specs.Measures.{is_true, size_of, nesting_of, most};

use crate::Items;
use crate::value::Value;
use base_types::Text;

/// Whether a value counts as true in a condition (Language Reference 6.11).
pub fn truth(value: &Value) -> bool
    ensures { result ≡ is_true value.now }
{
    match value {
        Value::Nothing => false,
        Value::Bool(b) => *b,
        Value::Int(n) => n.get() != 0,
        Value::Text(text) => text.len() != 0,
        Value::List(items) => items.len() != 0,
        Value::Tuple(items) => items.len() != 0,
        _ => true,
    }
}

/// What a value costs to hold, in units of the budget: the whole 64 bytes of a text or of an error's
/// text, the number of items and their sizes for a list or tuple, and 0 for all else. Where that is
/// more than a u64 holds, the greatest u64.
pub fn size(value: &Value) -> u64
    ensures { result ≡ min (size_of value.now) (2 ^ 64 - 1) }
{
    size_of(value)
}

/// How many lists and tuples stand inside one another, the value itself included. Where that is more
/// than a u64 holds, the greatest u64.
pub fn nesting(value: &Value) -> u64
    ensures { result ≡ min (nesting_of value.now) (2 ^ 64 - 1) }
{
    nesting_of(value)
}

fn blocks(text: &Text) -> u64
    ensures { result ≡ length text.now / 64 }
{
    (text.len() / 64) as u64
}

#[cycle(sizes)]
fn size_of(value: &Value) -> u64
    ensures { result ≡ min (size_of value.now) (2 ^ 64 - 1) }
{
    match value {
        Value::Text(text) => blocks(text),
        Value::Error(error) => blocks(error.text()),
        Value::List(items) => size_of_all(items),
        Value::Tuple(items) => size_of_all(items),
        _ => 0,
    }
}

#[cycle(sizes)]
fn size_of_all(items: &Items) -> u64
    ensures { result ≡ min (length items.now + sum (map size_of items.now)) (2 ^ 64 - 1) }
{
    let mut size = 0_u64;
    for item in items.as_slice() {
        size = size.saturating_add(1).saturating_add(size_of(item));
    }
    size
}

#[cycle(nestings)]
fn nesting_of(value: &Value) -> u64
    ensures { result ≡ min (nesting_of value.now) (2 ^ 64 - 1) }
{
    match value {
        Value::List(items) => most_nesting_of(items).saturating_add(1),
        Value::Tuple(items) => most_nesting_of(items).saturating_add(1),
        _ => 0,
    }
}

#[cycle(nestings)]
fn most_nesting_of(items: &Items) -> u64
    ensures { result ≡ min (most (map nesting_of items.now)) (2 ^ 64 - 1) }
{
    let mut deepest = 0_u64;
    for item in items.as_slice() {
        deepest = deepest.max(nesting_of(item));
    }
    deepest
}
