//! Words that stand for themselves.
ghost use Rattle.std.specs.Prelude.{◌≡◌};
ghost use Rattle.trace_fields.specs.Words as words;

use crate::lookup;
use py_value::{Kind, Native, Value};

/// The values without parts.
#[derive(Clone, Copy, Drop)]
pub(crate) enum Constant {
    Nothing,
    True,
    False,
    SysModules,
    SysPath,
    NsPath,
}

const CONSTANTS: [(&str, Constant); 6] = [
    ("None", Constant::Nothing),
    ("True", Constant::True),
    ("False", Constant::False),
    ("sysmodules", Constant::SysModules),
    ("syspath", Constant::SysPath),
    ("nspath", Constant::NsPath),
];

const KINDS: [(&str, Kind); 19] = [
    ("BaseException", Kind::BaseException),
    ("Exception", Kind::Exception),
    ("ArithmeticError", Kind::ArithmeticError),
    ("ZeroDivisionError", Kind::ZeroDivisionError),
    ("AttributeError", Kind::AttributeError),
    ("ImportError", Kind::ImportError),
    ("ModuleNotFoundError", Kind::ModuleNotFoundError),
    ("LookupError", Kind::LookupError),
    ("IndexError", Kind::IndexError),
    ("KeyError", Kind::KeyError),
    ("NameError", Kind::NameError),
    ("UnboundLocalError", Kind::UnboundLocalError),
    ("RuntimeError", Kind::RuntimeError),
    ("RecursionError", Kind::RecursionError),
    ("_DeadlockError", Kind::DeadlockError),
    ("SyntaxError", Kind::SyntaxError),
    ("TypeError", Kind::TypeError),
    ("ValueError", Kind::ValueError),
    ("ProfileError", Kind::ProfileError),
];

const NATIVES: [(&str, Native); 9] = [
    ("print", Native::Print),
    ("str", Native::Str),
    ("repr", Native::Repr),
    ("len", Native::Len),
    ("hasattr", Native::HasAttr),
    ("getattr", Native::GetAttr),
    ("invalidate_caches", Native::InvalidateCaches),
    ("reload", Native::Reload),
    ("lazy", Native::Lazy),
];

pub(crate) fn kind_in(field: &[u8]) -> Option<Kind>
    ensures { result ≡ words.kind_in field.now }
{
    lookup(field, &KINDS)
}

pub(crate) fn native_in(field: &[u8]) -> Option<Native>
    ensures { result ≡ words.native_in field.now }
{
    lookup(field, &NATIVES)
}

pub(crate) fn constant_in(field: &[u8]) -> Option<Constant>
    ensures { result ≡ words.constant_in field.now }
{
    lookup(field, &CONSTANTS)
}

pub(crate) fn constant_value(constant: Constant) -> Value
    ensures { result ≡ words.constant_value constant }
{
    match constant {
        Constant::Nothing => Value::Nothing,
        Constant::True => Value::Bool(true),
        Constant::False => Value::Bool(false),
        Constant::SysModules => Value::SysModules,
        Constant::SysPath => Value::SysPath,
        Constant::NsPath => Value::NsPath,
    }
}
