//! The built-in names (Library Reference, "Built-in Functions" and "Built-in Exceptions").
ghost use Rattle.std.specs.Prelude.{◌≡◌, None, Some};
ghost use Rattle.meaning_script.specs.Names as spec;

use py_value::{Kind, Native, Value};

const NATIVES: [Native; 6] = [
    Native::Print,
    Native::Str,
    Native::Repr,
    Native::Len,
    Native::HasAttr,
    Native::GetAttr,
];

const KINDS: [Kind; 17] = [
    Kind::BaseException,
    Kind::Exception,
    Kind::ArithmeticError,
    Kind::ZeroDivisionError,
    Kind::AttributeError,
    Kind::ImportError,
    Kind::ModuleNotFoundError,
    Kind::LookupError,
    Kind::IndexError,
    Kind::KeyError,
    Kind::NameError,
    Kind::UnboundLocalError,
    Kind::RuntimeError,
    Kind::RecursionError,
    Kind::SyntaxError,
    Kind::TypeError,
    Kind::ValueError,
];

fn native_named(name: &str, natives: &[Native]) -> Option<Native>
    ensures { result ≡ spec.native_named name.now natives.now }
{
    match natives {
        [] => None,
        [native, others @ ..] => {
            if native.name() == name {
                Some(*native)
            } else {
                native_named(name, others)
            }
        }
    }
}

fn kind_named(name: &str, kinds: &[Kind]) -> Option<Kind>
    ensures { result ≡ spec.kind_named name.now kinds.now }
{
    match kinds {
        [] => None,
        [kind, others @ ..] => {
            if kind.name() == name {
                Some(*kind)
            } else {
                kind_named(name, others)
            }
        }
    }
}

/// The built-in value of a name.
pub fn built_in(name: &str) -> Option<Value>
    ensures { result ≡ spec.built_in name.now }
{
    match native_named(name, &NATIVES) {
        Some(native) => Some(Value::Native(native)),
        None => match kind_named(name, &KINDS) {
            Some(kind) => Some(Value::Kind(kind)),
            None => None,
        },
    }
}
