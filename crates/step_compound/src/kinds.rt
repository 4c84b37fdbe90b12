//! Which errors an `except` takes.
ghost use Rattle.std.specs.Prelude.{◌≡◌, ◌∷◌, [], Some};
ghost use Rattle.py_value.specs.declared.value.Value.{out-Value};
ghost use Rattle.meaning_script.specs.Statements.{either, is_within, kind_at, takes, takes_any, takes_kind};

use py_value::{Items, Kind, Value};

/// Below one kind stand at most three others.
const MOST_KINDS: u32 = 4;

/// Whether one of so many kinds, from this one upwards, is the other.
#[tactic(auto, using(crate::proofs::Within::within_more))]
fn is_within(left: u32, kind: Option<Kind>, other: Kind) -> bool
    ensures { result ≡ is_within left kind other }
{
    if left == 0 {
        return false;
    }
    match kind {
        None => false,
        Some(kind) => {
            if kind.name() == other.name() {
                true
            } else {
                is_within(left - 1, kind.parent(), other)
            }
        }
    }
}

/// The kind that a value is.
fn kind_of(value: &Value) -> Option<Kind>
    ensures { result ≡ kind_at (out-Value value.now) }
{
    match value {
        Value::Kind(kind) => Some(*kind),
        _ => None,
    }
}

/// Whether an error of the kind is one of the other kind. None where there is no other.
fn takes_kind(kind: Kind, other: Option<Kind>) -> Option<bool>
    ensures { result ≡ takes_kind kind other }
{
    match other {
        None => None,
        Some(other) => Some(is_within(MOST_KINDS, Some(kind), other)),
    }
}

/// Whether one of both holds. None where one of them is None.
fn either(one: Option<bool>, other: Option<bool>) -> Option<bool>
    ensures { result ≡ either one other }
{
    match (one, other) {
        (Some(one), Some(other)) => Some(one || other),
        _ => None,
    }
}

/// Whether an error of the kind is of one of the kinds in a list. None where one of these is no kind.
fn takes_any(kind: Kind, values: &Items) -> Option<bool>
    ensures { result ≡ takes_any kind values.now }
{
    let mut found = Some(false);
    for value in values.as_slice() {
        found = either(found, takes_kind(kind, kind_of(value)));
    }
    found
}

/// Whether an `except` that names this value takes an error of the kind. None where it names what is no kind.
pub fn takes(kind: Kind, value: &Value) -> Option<bool>
    ensures { result ≡ takes kind value.now }
{
    match value {
        Value::Tuple(values) => takes_any(kind, values),
        _ => takes_kind(kind, kind_of(value)),
    }
}
