//! Lists of exactly so many values, and what stands for the cache.
ghost use Rattle.std.specs.Prelude.{◌≡◌, ◌∷◌, [], Some};
ghost use Rattle.py_frames.specs.Few as spec;

use base_types::Seq;
use py_value::Value;

/// The value of a list of one.
pub fn only(values: Seq<Value>) -> Option<Value>
    ensures { result ≡ spec.only values }
{
    if values.len() != 1 {
        return None;
    }
    let mut values = values;
    values.pop()
}

/// The values of a list of two.
pub fn pair(values: Seq<Value>) -> Option<(Value, Value)>
    ensures { result ≡ spec.pair values }
{
    if values.len() != 2 {
        return None;
    }
    let mut values = values;
    let second = values.pop()?;
    let first = values.pop()?;
    Some((first, second))
}

/// The values of a list of three.
pub fn triple(values: Seq<Value>) -> Option<(Value, Value, Value)>
    ensures { result ≡ spec.triple values }
{
    if values.len() != 3 {
        return None;
    }
    let mut values = values;
    let third = values.pop()?;
    let second = values.pop()?;
    let first = values.pop()?;
    Some((first, second, third))
}

/// Whether a value stands for the cache.
pub fn is_cache(value: &Value) -> bool
    ensures { result ≡ spec.is_cache value.now }
{
    match value {
        Value::SysModules => true,
        _ => false,
    }
}
