ghost use Rattle.std.specs.Prelude.{◌≡◌, IfOk};
ghost use Rattle.std.specs.Result.{result_map_both};

use crate::Items;
use crate::value::{ModRef, NsState, Place, Raised, Value};
use base_types::{Exact, NoMemory, Seq, Text};
use std::alloc::AllocError;

// A call clears the places of all locals of its function, and values are copied all the time: so
// each arm of `copy_of` with more than one such place has a function of its own.

fn copy_of_text(text: &Text) -> Result<Value, AllocError>
    ensures { IfOk result (λ it. it ≡ Value.Text text.now) }
{
    Ok(Value::Text(text.clone()?))
}

fn copy_of_function(load: u32, index: u32, name: &Text) -> Result<Value, AllocError>
    ensures { IfOk result (λ it. it ≡ Value.Func load index name.now) }
{
    Ok(Value::Func {
        load,
        index,
        name: name.clone()?,
    })
}

fn copy_of_module(reference: &ModRef) -> Result<Value, AllocError>
    ensures { IfOk result (λ it. it ≡ Value.Module reference.now) }
{
    Ok(Value::Module(reference.clone()?))
}

fn copy_of_error(error: &Raised) -> Result<Value, AllocError>
    ensures { IfOk result (λ it. it ≡ Value.Error error.now) }
{
    Ok(Value::Error(error.clone()?))
}

/// The list of the copies that were made.
fn list_of(items: Result<Items, AllocError>) -> Result<Value, AllocError>
    ensures { result ≡ result_map_both (λ given. Value.List given) (λ error. error) items }
{
    Ok(Value::List(items?))
}

/// The tuple of the copies that were made.
fn tuple_of(items: Result<Items, AllocError>) -> Result<Value, AllocError>
    ensures { result ≡ result_map_both (λ given. Value.Tuple given) (λ error. error) items }
{
    Ok(Value::Tuple(items?))
}

#[cycle(copies)]
fn copy_of(value: &Value) -> Result<Value, AllocError>
    ensures { IfOk result (λ it. it ≡ value.now) }
{
    match value {
        Value::Nothing => Ok(Value::Nothing),
        Value::Bool(b) => Ok(Value::Bool(*b)),
        Value::Int(n) => Ok(Value::Int(*n)),
        Value::Text(text) => copy_of_text(text),
        Value::List(items) => list_of(copy_of_all(items)),
        Value::Tuple(items) => tuple_of(copy_of_all(items)),
        Value::Func { load, index, name } => copy_of_function(*load, *index, name),
        Value::Native(native) => Ok(Value::Native(*native)),
        Value::Kind(kind) => Ok(Value::Kind(*kind)),
        Value::Module(module) => copy_of_module(module),
        Value::Error(error) => copy_of_error(error),
        Value::SysModules => Ok(Value::SysModules),
        Value::SysPath => Ok(Value::SysPath),
        Value::NsPath => Ok(Value::NsPath),
    }
}

#[cycle(copies)]
fn copy_of_all(items: &Items) -> Result<Items, AllocError>
    ensures { IfOk result (λ it. it ≡ items.now) }
{
    let mut copies = Seq::new(items.alloc());
    for value in items.as_slice() {
        let copy = copy_of(value)?;
        if copies.push(copy).is_err() {
            return Err(AllocError);
        }
    }
    Ok(copies)
}

impl Clone for Value {
    ghost is_clone = { λ value it. it ≡ value };

    fn clone(&self) -> Result<Value, AllocError> {
        copy_of(self)
    }
}

impl Exact for Value {
    fn copy(&self) -> Result<Value, NoMemory> {
        Ok(copy_of(self)?)
    }
}

impl Exact for ModRef {
    fn copy(&self) -> Result<ModRef, NoMemory> {
        Ok(self.clone()?)
    }
}

impl Exact for Place {
    fn copy(&self) -> Result<Place, NoMemory> {
        Ok(self.clone()?)
    }
}

impl Exact for Raised {
    fn copy(&self) -> Result<Raised, NoMemory> {
        Ok(self.clone()?)
    }
}

impl Exact for NsState {
    fn copy(&self) -> Result<NsState, NoMemory> {
        Ok(self.clone()?)
    }
}
