//! Keys of the cache.
ghost use Rattle.std.specs.Prelude.{◌≡◌, IfOk, map};
ghost use Rattle.std.specs.List.{list_any};
ghost use Rattle.meaning_script.specs.Entries as spec;

use base_types::NoMemory;
use py_value::{Items, Value};
use spec_core::Dotted;

/// Whether a value cannot be a key: a list, or a tuple that holds one at any depth.
#[cycle(hashing)]
pub(crate) fn is_unhashable(value: &Value) -> bool
    ensures { result ≡ spec.is_unhashable value.now }
{
    match value {
        Value::List(_) => true,
        Value::Tuple(items) => holds_unhashable(items),
        _ => false,
    }
}

#[cycle(hashing)]
fn holds_unhashable(items: &Items) -> bool
    ensures { result ≡ list_any (λ b. b) (map spec.is_unhashable items.now) }
{
    for item in items.as_slice() {
        if is_unhashable(item) {
            return true;
        }
    }
    false
}

/// The name that a key is, if it is one.
pub(crate) fn key_name(key: &Value) -> Result<Option<Dotted>, NoMemory>
    ensures { IfOk result (λ name. name ≡ spec.key_name key.now) }
{
    match key {
        Value::Text(text) => Dotted::read(text),
        _ => Ok(None),
    }
}
