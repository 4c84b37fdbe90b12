//! The arguments of methods.
ghost use Rattle.std.specs.Prelude.{◌≡◌};
ghost use Rattle.step_sys.specs.Arguments as spec;

use base_types::Seq;
use py_value::Value;

/// The value of a list of one.
pub(crate) fn one(values: Seq<Value>) -> Option<Value>
    ensures { result ≡ spec.one_of values }
{
    let mut values = values;
    if values.len() != 1 {
        return None;
    }
    values.pop()
}

/// The values of a list of two.
pub(crate) fn two(values: Seq<Value>) -> Option<(Value, Value)>
    ensures { result ≡ spec.two_of values }
{
    let mut values = values;
    if values.len() != 2 {
        return None;
    }
    let second = values.pop()?;
    let first = values.pop()?;
    Some((first, second))
}

/// A key, and a default behind it, if there is one.
pub(crate) fn key_and_default(values: Seq<Value>) -> Option<(Value, Option<Value>)>
    ensures { result ≡ spec.key_of values }
{
    if values.len() == 1 {
        let key = one(values)?;
        return Some((key, None));
    }
    let (key, default) = two(values)?;
    Some((key, Some(default)))
}

/// `.get` answers `None` where no other default is given.
pub(crate) fn or_nothing(default: Option<Value>) -> Value
    ensures { result ≡ spec.or_nothing default }
{
    match default {
        None => Value::Nothing,
        Some(value) => value,
    }
}
