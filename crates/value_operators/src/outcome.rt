ghost use Rattle.std.specs.Prelude.{◌≡◌, IfOk, map, codes};
ghost use Rattle.std.specs.List.{list_all};
ghost use Rattle.value_operators.specs.Outcomes.{raises, type_error, profile_error, not_in_profile, is_special, is_plain, bool_number, number_of, limited, number, truth_value};

use base_types::{NoMemory, Text, Wide};
use py_value::{Applied, Items, Kind, Raised, Value, nesting};
use std::alloc::Global;

/// The most bytes of a text that a script makes.
pub const MOST_TEXT: usize = 65536;

/// The most items of a list or tuple that a script makes.
pub const MOST_ITEMS: usize = 4096;

/// How many lists and tuples may stand inside one another.
pub const MOST_NESTING: u64 = 64;

/// An error of this kind and text, without a name.
pub fn raise(alloc: Global, kind: Kind, text: &str) -> Result<Applied, NoMemory>
    ensures { IfOk result (λ applied. applied ≡ raises kind text.now) }
{
    let text = Text::from_str(alloc, text)?;
    Ok(Applied::Raised(Raised::of(kind, text, None)?))
}

/// The refusal of what scripts cannot do here, though Python may.
pub fn not_in_profile(alloc: Global) -> Result<Applied, NoMemory>
    ensures { IfOk result (λ applied. applied ≡ not_in_profile) }
{
    raise(alloc, Kind::ProfileError, "not in the profile")
}

/// The value itself, or what is raised where it is beyond the limits: a text of more than 65,536
/// bytes, a list or tuple of more than 4,096 items, or more than 64 lists and tuples inside one
/// another.
pub fn limited(alloc: Global, value: Value) -> Result<Applied, NoMemory>
    ensures { IfOk result (λ applied. applied ≡ limited value) }
{
    match &value {
        Value::Text(text) => {
            if text.len() > MOST_TEXT {
                return too_long_text(alloc);
            }
        }
        Value::List(items) => {
            if items.len() > MOST_ITEMS {
                return too_long_list(alloc);
            }
        }
        Value::Tuple(items) => {
            if items.len() > MOST_ITEMS {
                return too_long_list(alloc);
            }
        }
        _ => {}
    }
    if nesting(&value) > MOST_NESTING {
        return raise(alloc, Kind::ProfileError, "list too deep");
    }
    Ok(Applied::Value(value))
}

/// The refusal of a text that is too long.
pub fn too_long_text(alloc: Global) -> Result<Applied, NoMemory>
    ensures { IfOk result (λ applied. applied ≡ profile_error (codes "text too long")) }
{
    raise(alloc, Kind::ProfileError, "text too long")
}

pub(crate) fn too_long_list(alloc: Global) -> Result<Applied, NoMemory>
    ensures { IfOk result (λ applied. applied ≡ profile_error (codes "list too long")) }
{
    raise(alloc, Kind::ProfileError, "list too long")
}

/// A number that 128 bits hold, or what is raised where there is none.
pub(crate) fn number(alloc: Global, n: Option<i128>) -> Result<Applied, NoMemory>
    ensures { IfOk result (λ applied. applied ≡ number n) }
{
    match n {
        Some(n) => Ok(Applied::Value(Value::Int(Wide::of(n)))),
        None => raise(alloc, Kind::ProfileError, "number past 128 bits"),
    }
}

pub(crate) fn truth_value(b: bool) -> Applied
    ensures { result ≡ truth_value b }
{
    Applied::Value(Value::Bool(b))
}

/// Whether the value stands for something in the machine.
pub(crate) fn is_special(value: &Value) -> bool
    ensures { result ≡ is_special value.now }
{
    match value {
        Value::SysModules | Value::SysPath | Value::NsPath => true,
        _ => false,
    }
}

/// The value as a number. A Bool counts as 0 or 1.
pub(crate) fn number_of(value: &Value) -> Option<i128>
    ensures { result ≡ number_of value.now }
{
    match value {
        Value::Bool(b) => Some(bool_number(*b)),
        Value::Int(n) => Some(n.get()),
        _ => None,
    }
}

pub(crate) fn bool_number(b: bool) -> i128
    ensures { result ≡ bool_number b }
{
    if b { 1 } else { 0 }
}

/// Whether the value neither is nor holds an error or what stands for something in the machine.
#[cycle(plain)]
pub fn is_plain(value: &Value) -> bool
    ensures { result ≡ is_plain value.now }
{
    match value {
        Value::Error(_) | Value::SysModules | Value::SysPath | Value::NsPath => false,
        Value::List(items) => are_plain(items),
        Value::Tuple(items) => are_plain(items),
        _ => true,
    }
}

#[cycle(plain)]
fn are_plain(items: &Items) -> bool
    ensures { result ≡ list_all (λ b. b) (map is_plain items.now) }
{
    for item in items.as_slice() {
        if !is_plain(item) {
            return false;
        }
    }
    true
}
