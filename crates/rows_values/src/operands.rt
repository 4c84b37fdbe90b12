//! Values as rows spell them, which is as Python does.
ghost use Rattle.std.specs.Prelude.{◌≡◌, IfSome};
ghost use Rattle.py_value.specs.Names.{kind_name};

use base_types::{Text, Wide};
use py_value::{Items, Kind, ModRef, Native, Place, Raised, Value};
use rows_words::{Row, RowError};
use std::alloc::Global;

const KINDS: [Kind; 19] = [
    Kind::BaseException,
    Kind::Exception,
    Kind::ArithmeticError,
    Kind::ZeroDivisionError,
    Kind::AttributeError,
    Kind::ImportError,
    Kind::ModuleNotFoundError,
    Kind::LookupError,
    Kind::IndexError,
    Kind::KeyError,
    Kind::NameError,
    Kind::UnboundLocalError,
    Kind::RuntimeError,
    Kind::RecursionError,
    Kind::DeadlockError,
    Kind::SyntaxError,
    Kind::TypeError,
    Kind::ValueError,
    Kind::ProfileError,
];

const NATIVES: [Native; 9] = [
    Native::Print,
    Native::Str,
    Native::Repr,
    Native::Len,
    Native::HasAttr,
    Native::GetAttr,
    Native::InvalidateCaches,
    Native::Reload,
    Native::Lazy,
];

/// The most brackets, values and ends that a row may hold.
const MOST_PARTS: u32 = 1000;

/// The kind of this name.
pub fn kind_named(name: &str) -> Option<Kind>
    ensures { IfSome result (λ kind. kind_name kind ≡ name.now) }
{
    for kind in KINDS {
        if kind.name() == name {
            return Some(kind);
        }
    }
    None
}

fn native_named(name: &str) -> Option<Native> {
    for native in NATIVES {
        if native.name() == name {
            return Some(native);
        }
    }
    None
}

/// Whether a call's bracket closes here.
fn closes(row: &mut Row<'_>) -> Result<(), RowError> {
    row.must(")")
}

/// So many zeros in a list.
fn zeros(alloc: Global, n: u64) -> Result<Items, RowError> {
    let mut items = Items::new(alloc);
    for _ in 0..n {
        items.push(Value::Int(Wide::of(0)))?;
    }
    Ok(items)
}

/// A text of so many letters.
fn letters(alloc: Global, n: u64) -> Result<Text, RowError> {
    let mut text = Text::new(alloc);
    for _ in 0..n {
        text.push_str("a")?;
    }
    Ok(text)
}

/// A list inside a list, so many lists in all.
fn deep(alloc: Global, n: u64) -> Result<Items, RowError> {
    let mut items = Items::new(alloc);
    for _ in 1..n {
        let mut around = Items::new(alloc);
        around.push(Value::List(items))?;
        items = around;
    }
    Ok(items)
}

/// An error, behind its kind and its bracket.
fn error(alloc: Global, kind: Kind, row: &mut Row<'_>) -> Result<Value, RowError> {
    let text = row.quoted(alloc)?;
    closes(row)?;
    Ok(Value::Error(Raised::of(kind, text, None)?))
}

/// Where a module comes from: a file, `built-in` or `namespace`.
fn place(alloc: Global, row: &mut Row<'_>) -> Result<Place, RowError> {
    if row.is_quoted() {
        return Ok(Place::File(row.quoted(alloc)?));
    }
    if row.takes("built-in") {
        return Ok(Place::BuiltIn);
    }
    row.must("namespace")?;
    Ok(Place::Namespace)
}

/// A module, behind its bracket: its number, name and place.
fn module(alloc: Global, row: &mut Row<'_>) -> Result<Value, RowError> {
    let mid = row.small()?;
    row.must(",")?;
    let name = row.quoted(alloc)?;
    row.must(",")?;
    let place = place(alloc, row)?;
    closes(row)?;
    Ok(Value::Module(ModRef::of(mid, name, place)?))
}

/// A function, behind its bracket: its name.
fn function(alloc: Global, row: &mut Row<'_>) -> Result<Value, RowError> {
    let name = row.quoted(alloc)?;
    closes(row)?;
    Ok(Value::Func {
        load: 0,
        index: 0,
        name,
    })
}

/// A value that is made by a call, behind the name and its bracket.
fn made(alloc: Global, name: &str, row: &mut Row<'_>) -> Result<Value, RowError> {
    match name {
        "module" => return module(alloc, row),
        "function" => return function(alloc, row),
        _ => {}
    }
    if let Some(kind) = kind_named(name) {
        return error(alloc, kind, row);
    }
    let count = row.number()?;
    closes(row)?;
    match name {
        "zeros" => Ok(Value::List(zeros(alloc, count)?)),
        "letters" => Ok(Value::Text(letters(alloc, count)?)),
        "deep" => Ok(Value::List(deep(alloc, count)?)),
        _ => Err(RowError::Unknown),
    }
}

/// A value that has a name.
fn named(name: &str) -> Result<Value, RowError> {
    if let Some(kind) = kind_named(name) {
        return Ok(Value::Kind(kind));
    }
    if let Some(native) = native_named(name) {
        return Ok(Value::Native(native));
    }
    match name {
        "None" => Ok(Value::Nothing),
        "True" => Ok(Value::Bool(true)),
        "False" => Ok(Value::Bool(false)),
        "sys_modules" => Ok(Value::SysModules),
        "sys_path" => Ok(Value::SysPath),
        "namespace_path" => Ok(Value::NsPath),
        _ => Err(RowError::Unknown),
    }
}

/// A value without brackets of its own.
fn atom(alloc: Global, row: &mut Row<'_>) -> Result<Value, RowError> {
    if row.is_quoted() {
        return Ok(Value::Text(row.quoted(alloc)?));
    }
    if row.is_integer() {
        return Ok(Value::Int(Wide::of(row.integer()?)));
    }
    let name = row.name()?;
    if row.takes("(") {
        return made(alloc, name, row);
    }
    named(name)
}

/// The value that begins here. A round bracket is a tuple's.
pub fn operand(alloc: Global, row: &mut Row<'_>) -> Result<Value, RowError> {
    let mut open: Vec<Items> = Vec::new(alloc);
    for _ in 0..MOST_PARTS {
        if row.takes("[") || row.takes("(") {
            open.push(Items::new(alloc))?;
            continue;
        }
        let value = if row.takes("]") {
            Value::List(open.pop().ok_or(RowError::Unknown)?)
        } else if row.takes(")") {
            Value::Tuple(open.pop().ok_or(RowError::Unknown)?)
        } else {
            atom(alloc, row)?
        };
        match open.last_mut() {
            None => return Ok(value),
            Some(items) => items.push(value)?,
        }
        row.takes(",");
    }
    Err(RowError::Unknown)
}
