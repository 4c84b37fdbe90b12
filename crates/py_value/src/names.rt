ghost use Rattle.std.specs.Prelude.{◌≡◌};
ghost use Rattle.py_value.specs.Names.{kind_name, native_name, native_type, type_of, type_text, type_name};

use crate::kind::{Kind, Native};
use crate::value::Value;

impl Kind {
    /// The name that scripts and messages write.
    pub fn name(self) -> &'static str
        ensures { result.now ≡ kind_name self }
    {
        match self {
            Kind::BaseException => "BaseException",
            Kind::Exception => "Exception",
            Kind::ArithmeticError => "ArithmeticError",
            Kind::ZeroDivisionError => "ZeroDivisionError",
            Kind::AttributeError => "AttributeError",
            Kind::ImportError => "ImportError",
            Kind::ModuleNotFoundError => "ModuleNotFoundError",
            Kind::LookupError => "LookupError",
            Kind::IndexError => "IndexError",
            Kind::KeyError => "KeyError",
            Kind::NameError => "NameError",
            Kind::UnboundLocalError => "UnboundLocalError",
            Kind::RuntimeError => "RuntimeError",
            Kind::RecursionError => "RecursionError",
            Kind::DeadlockError => "_DeadlockError",
            Kind::SyntaxError => "SyntaxError",
            Kind::TypeError => "TypeError",
            Kind::ValueError => "ValueError",
            Kind::ProfileError => "ProfileError",
        }
    }
}

impl Native {
    /// The name that scripts and messages write.
    pub fn name(self) -> &'static str
        ensures { result.now ≡ native_name self }
    {
        match self {
            Native::Print => "print",
            Native::Str => "str",
            Native::Repr => "repr",
            Native::Len => "len",
            Native::HasAttr => "hasattr",
            Native::GetAttr => "getattr",
            Native::InvalidateCaches => "invalidate_caches",
            Native::Reload => "reload",
            Native::Lazy => "lazy",
        }
    }
}

/// The types of values. An error's type is its kind.
#[derive(Clone, Copy, Drop)]
pub enum TypeName {
    NoneType,
    Bool,
    Int,
    Str,
    List,
    Tuple,
    Function,
    Builtin,
    Type,
    Module,
    Dict,
    Error(Kind),
}

impl TypeName {
    /// The type's name, as messages write it.
    pub fn text(self) -> &'static str
        ensures { result.now ≡ type_text self }
    {
        match self {
            TypeName::NoneType => "NoneType",
            TypeName::Bool => "bool",
            TypeName::Int => "int",
            TypeName::Str => "str",
            TypeName::List => "list",
            TypeName::Tuple => "tuple",
            TypeName::Function => "function",
            TypeName::Builtin => "builtin_function_or_method",
            TypeName::Type => "type",
            TypeName::Module => "module",
            TypeName::Dict => "dict",
            TypeName::Error(kind) => kind.name(),
        }
    }
}

/// A value's type. Python's `str` is a class, and so is each kind. What stands for the cache of
/// modules is a dict, and the two paths are lists.
pub fn type_of(value: &Value) -> TypeName
    ensures { result ≡ type_of value.now }
{
    match value {
        Value::Nothing => TypeName::NoneType,
        Value::Bool(_) => TypeName::Bool,
        Value::Int(_) => TypeName::Int,
        Value::Text(_) => TypeName::Str,
        Value::List(_) | Value::SysPath | Value::NsPath => TypeName::List,
        Value::Tuple(_) => TypeName::Tuple,
        Value::Func {
            load: _,
            index: _,
            name: _,
        } => TypeName::Function,
        Value::Native(native) => native_type(*native),
        Value::Kind(_) => TypeName::Type,
        Value::Module(_) => TypeName::Module,
        Value::Error(error) => TypeName::Error(error.kind()),
        Value::SysModules => TypeName::Dict,
    }
}

/// The name of a value's type, as messages write it.
pub fn type_name(value: &Value) -> &'static str
    ensures { result.now ≡ type_name value.now }
{
    type_of(value).text()
}

fn native_type(native: Native) -> TypeName
    ensures { result ≡ native_type native }
{
    match native {
        Native::Str => TypeName::Type,
        _ => TypeName::Builtin,
    }
}
