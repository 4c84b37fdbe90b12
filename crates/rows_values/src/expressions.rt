//! Operators and calls on values, as Python writes them.

use crate::operands::{kind_named, operand};
use base_types::{Exact, Text};
use py_value::{Applied, BinOp, CmpOp, Value, nesting, size, truth, type_name};
use rows_words::{Row, RowError};
use std::alloc::Global;
use value_operators::{
    augmented, binary, compare, contains, identical, length_of, limited, negate, subscript,
};
use value_texts::{repr_of, str_of};

/// Texts, lists and tuples that are longer are shown by their length.
const MOST_SHOWN: usize = 130;

const BINARY: [(&str, BinOp); 5] = [
    ("//", BinOp::FloorDiv),
    ("+", BinOp::Add),
    ("-", BinOp::Sub),
    ("*", BinOp::Mul),
    ("%", BinOp::Mod),
];

const AUGMENTED: [(&str, BinOp); 5] = [
    ("//=", BinOp::FloorDiv),
    ("+=", BinOp::Add),
    ("-=", BinOp::Sub),
    ("*=", BinOp::Mul),
    ("%=", BinOp::Mod),
];

const COMPARED: [(&str, CmpOp); 6] = [
    ("==", CmpOp::Eq),
    ("!=", CmpOp::Ne),
    ("<=", CmpOp::Le),
    (">=", CmpOp::Ge),
    ("<", CmpOp::Lt),
    (">", CmpOp::Gt),
];

fn text(alloc: Global, text: &str) -> Result<Text, RowError> {
    Ok(Text::from_str(alloc, text)?)
}

fn yes(alloc: Global, answer: bool) -> Result<Text, RowError> {
    text(alloc, if answer { "True" } else { "False" })
}

fn number(alloc: Global, number: u64) -> Result<Text, RowError> {
    Ok(Text::from_string(format!(in alloc; "{number}")?)?)
}

/// A value as `repr` writes it, or its length where it is long.
fn shown(alloc: Global, value: &Value) -> Result<Text, RowError> {
    if let Some(len) = length_of(value) {
        if len > MOST_SHOWN {
            return Ok(Text::from_string(format!(in alloc; "{len} long")?)?);
        }
    }
    match repr_of(alloc, value)? {
        Applied::Value(Value::Text(text)) => Ok(text),
        _ => text(alloc, "a value without repr"),
    }
}

/// The error that is raised, or the value that is given.
fn outcome(alloc: Global, applied: Applied) -> Result<Text, RowError> {
    match applied {
        Applied::Raised(raised) => {
            let kind = raised.kind().name();
            let text = raised.text().as_str();
            Ok(Text::from_string(format!(in alloc; "{kind}: {text}")?)?)
        }
        Applied::Value(value) => shown(alloc, &value),
    }
}

/// The same, where a text is written as it is.
fn plain(alloc: Global, applied: Applied) -> Result<Text, RowError> {
    match applied {
        Applied::Value(Value::Text(text)) => Ok(text),
        other => outcome(alloc, other),
    }
}

fn length(alloc: Global, value: &Value) -> Result<Text, RowError> {
    match length_of(value) {
        Some(len) => number(alloc, len as u64),
        None => text(alloc, "no length"),
    }
}

/// A text of the value.
fn texted(alloc: Global, name: &str, value: &Value) -> Result<Text, RowError> {
    match name {
        "str" => plain(alloc, str_of(alloc, value)?),
        "repr" => plain(alloc, repr_of(alloc, value)?),
        _ => text(alloc, type_name(value)),
    }
}

/// A measure of the value.
fn measured(alloc: Global, name: &str, value: &Value) -> Result<Text, RowError> {
    match name {
        "len" => length(alloc, value),
        "bool" => yes(alloc, truth(value)),
        "size" => number(alloc, size(value)),
        _ => number(alloc, nesting(value)),
    }
}

/// The value itself, where it is within the limits.
fn kept(alloc: Global, value: &Value) -> Result<Text, RowError> {
    outcome(alloc, limited(alloc, value.copy()?)?)
}

fn called_on(alloc: Global, name: &str, value: &Value) -> Result<Text, RowError> {
    match name {
        "str" | "repr" | "type" => texted(alloc, name, value),
        "limited" => kept(alloc, value),
        _ => measured(alloc, name, value),
    }
}

/// A call of the name, behind its bracket.
fn called(alloc: Global, name: &str, row: &mut Row<'_>) -> Result<Text, RowError> {
    let value = operand(alloc, row)?;
    row.must(")")?;
    called_on(alloc, name, &value)
}

fn is_called(name: &str) -> bool {
    matches!(
        name,
        "str" | "repr" | "len" | "bool" | "type" | "size" | "nesting" | "limited"
    )
}

/// Whether one kind is below another, behind the bracket.
fn is_subclass(alloc: Global, row: &mut Row<'_>) -> Result<Text, RowError> {
    let kind = kind_named(row.name()?).ok_or(RowError::Unknown)?;
    row.must(",")?;
    let other = kind_named(row.name()?).ok_or(RowError::Unknown)?;
    row.must(")")?;
    yes(alloc, kind.is_a(other))
}

/// What an operator in words gives; `None` where none stands here.
fn in_words(alloc: Global, left: &Value, row: &mut Row<'_>) -> Result<Option<Applied>, RowError> {
    if row.takes("in ") {
        let right = operand(alloc, row)?;
        return Ok(Some(contains(alloc, &right, left)?));
    }
    if row.takes("is ") {
        let right = operand(alloc, row)?;
        return Ok(Some(identical(alloc, left, &right)?));
    }
    if row.takes("[") {
        let index = operand(alloc, row)?;
        row.must("]")?;
        return Ok(Some(subscript(alloc, left, &index)?));
    }
    Ok(None)
}

fn compared(alloc: Global, left: &Value, row: &mut Row<'_>) -> Result<Option<Applied>, RowError> {
    for (sign, op) in COMPARED {
        if row.takes(sign) {
            let right = operand(alloc, row)?;
            return Ok(Some(compare(alloc, op, left, &right)?));
        }
    }
    Ok(None)
}

fn assigned(alloc: Global, left: &Value, row: &mut Row<'_>) -> Result<Option<Applied>, RowError> {
    for (sign, op) in AUGMENTED {
        if row.takes(sign) {
            let right = operand(alloc, row)?;
            return Ok(Some(augmented(alloc, op, left, &right)?));
        }
    }
    Ok(None)
}

fn computed(alloc: Global, left: &Value, row: &mut Row<'_>) -> Result<Applied, RowError> {
    for (sign, op) in BINARY {
        if row.takes(sign) {
            let right = operand(alloc, row)?;
            return Ok(binary(alloc, op, left, &right)?);
        }
    }
    Err(RowError::Unknown)
}

fn applied(alloc: Global, row: &mut Row<'_>) -> Result<Applied, RowError> {
    let left = operand(alloc, row)?;
    if let Some(applied) = in_words(alloc, &left, row)? {
        return Ok(applied);
    }
    if let Some(applied) = compared(alloc, &left, row)? {
        return Ok(applied);
    }
    match assigned(alloc, &left, row)? {
        Some(applied) => Ok(applied),
        None => computed(alloc, &left, row),
    }
}

/// What the expression of a row gives.
pub fn answer(alloc: Global, row: &mut Row<'_>) -> Result<Text, RowError> {
    if row.takes("issubclass(") {
        return is_subclass(alloc, row);
    }
    let mut behind = *row;
    let name = behind.name()?;
    if is_called(name) && behind.takes("(") {
        *row = behind;
        return called(alloc, name, row);
    }
    if !row.is_integer() && row.takes("-") {
        let value = operand(alloc, row)?;
        return outcome(alloc, negate(alloc, &value)?);
    }
    outcome(alloc, applied(alloc, row)?)
}
