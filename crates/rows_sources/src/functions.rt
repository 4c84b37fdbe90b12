//! The functions of a source by their numbers, with their names, parameters and global names, or whether a name is local.

use crate::trees::refusal;
use base_types::{Text, Texts};
use py_parser::parse;
use py_syntax::FuncDef;
use rows_words::RowError;
use source_functions::{Function, Program};
use std::alloc::Global;

/// The most functions that a row may have.
const MOST_FUNCTIONS: u32 = 10_000;

/// The text with these names behind it.
fn put_names(mut text: Text, names: &Texts) -> Result<Text, RowError> {
    let mut between = "";
    for name in names.as_slice() {
        text.push_str(between)?;
        text.push_str(name.as_str())?;
        between = ", ";
    }
    Ok(text)
}

fn put_globals(mut text: Text, function: &FuncDef) -> Result<Text, RowError> {
    if function.globals.is_empty() {
        return Ok(text);
    }
    text.push_str(" global ")?;
    put_names(text, &function.globals)
}

/// The text with the number and the name of a function behind it.
fn put_name(mut text: Text, function: &FuncDef) -> Result<Text, RowError> {
    let number = function.number;
    let name = function.name.as_str();
    let between = if text.len() > 0 { "; " } else { "" };
    text.push_str(format!(in text.alloc(); "{between}{number} {name}")?.as_str())?;
    Ok(text)
}

fn put(text: Text, function: &FuncDef) -> Result<Text, RowError> {
    let mut text = put_name(text, function)?;
    text.push_str("(")?;
    text = put_names(text, &function.parameters)?;
    text.push_str(")")?;
    put_globals(text, function)
}

/// The text with a function behind it, and whether the name is local there.
fn put_local(text: Text, function: &Function, name: &Text) -> Result<Text, RowError> {
    let mut text = put_name(text, function.def())?;
    let told = if function.is_local(name) {
        " yes"
    } else {
        " no"
    };
    text.push_str(told)?;
    Ok(text)
}

/// The functions by their numbers; where a name is given, whether it is local in each.
fn functions(alloc: Global, program: &Program, name: Option<&Text>) -> Result<Text, RowError> {
    let mut text = Text::new(alloc);
    for number in 0..MOST_FUNCTIONS {
        let Some(function) = program.function_at(number) else {
            return Ok(text);
        };
        text = match name {
            Some(name) => put_local(text, function.get(), name)?,
            None => put(text, function.get().def())?,
        };
    }
    Err(RowError::Unknown)
}

/// The functions of a source; where a name is given, whether it is local in each.
pub fn answer(alloc: Global, name: Option<&Text>, source: &[u8]) -> Result<Text, RowError> {
    match parse(alloc, source) {
        Ok(script) => functions(alloc, &Program::of(script)?, name),
        Err(error) => refusal(alloc, &error),
    }
}
