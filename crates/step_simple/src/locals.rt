//! The local variables of the call that a thread stands in.
ghost use Rattle.std.specs.Prelude.{◌≡◌, IfOk, OnOk, ◌∷◌};
ghost use Rattle.meaning_script.specs.Names as spec;

use base_types::{Exact, NoMemory, Text};
use meaning_state::{FunctionScope, Thread};
use py_value::Value;
use std::mem;

/// Whether a name is local in the call.
pub fn is_local_name(thread: &Thread, name: &Text) -> bool
    ensures { result ≡ spec.is_local_name thread.now.state name.now }
{
    match &thread.state.scope.function {
        None => false,
        Some(scope) => scope.function.is_local(name),
    }
}

/// A local variable's value. None where it is not set.
pub fn local_value(thread: &Thread, name: &Text) -> Result<Option<Value>, NoMemory>
    ensures { IfOk result (λ value. value ≡ spec.local_value thread.now.state name.now) }
{
    match &thread.state.scope.function {
        None => Ok(None),
        Some(scope) => match scope.locals.get(name) {
            None => Ok(None),
            Some(value) => Ok(Some(value.copy()?)),
        },
    }
}

fn set_in(
    scope: Option<FunctionScope>,
    name: Text,
    value: Value,
) -> Result<Option<FunctionScope>, NoMemory>
    ensures { IfOk result (λ after. after ≡ spec.set_in scope name value) }
{
    match scope {
        None => Ok(None),
        Some(scope) => {
            let mut locals = scope.locals;
            let function = scope.function;
            locals.set(name, value)?;
            Ok(Some(FunctionScope { function, locals }))
        }
    }
}

fn unset_in(scope: Option<FunctionScope>, name: &Text) -> Option<FunctionScope>
    ensures { result ≡ spec.unset_in scope name.now }
{
    match scope {
        None => None,
        Some(scope) => {
            let mut locals = scope.locals;
            let function = scope.function;
            drop(locals.unset(name));
            Some(FunctionScope { function, locals })
        }
    }
}

/// Sets a local variable.
pub fn set_local(thread: &mut Thread, name: Text, value: Value) -> Result<(), NoMemory>
    ensures { OnOk result (thread.new ≡ record {
      left = thread.old.left;
      state = spec.with_local thread.old.state name value;
    }) }
{
    let scope = mem::replace(&mut thread.state.scope.function, None);
    thread.state.scope.function = set_in(scope, name, value)?;
    Ok(())
}

/// Unsets a local variable.
pub fn unset_local(thread: &mut Thread, name: &Text)
    ensures { thread.new ≡ record { left = thread.old.left; state = spec.without_local thread.old.state name.now } }
{
    let scope = mem::replace(&mut thread.state.scope.function, None);
    thread.state.scope.function = unset_in(scope, name);
}
