//! The methods of `sys.path` and `sys.modules`.
ghost use Rattle.std.specs.Prelude.{◌≡◌};
ghost use Rattle.meaning_script.specs.Methods as spec;

use py_value::Value;

/// Whether an object has a method of this name.
pub fn has_method(object: &Value, name: &str) -> bool
    ensures { result ≡ spec.has_method object.now name.now }
{
    match object {
        Value::SysPath => name == "append" || name == "insert",
        Value::SysModules => name == "get" || name == "pop",
        _ => false,
    }
}
