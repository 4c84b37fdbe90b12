//! The tree of a source as the printer writes it, or why it has none.

use crate::tokens::fault;
use base_spelling::write_quoted;
use base_types::{LONGEST_SOURCE, Text};
use py_parser::{ParseError, parse};
use py_syntax::Script;
use rows_words::RowError;
use source_print::print_script;
use std::alloc::Global;

/// Longer texts are only counted.
const MOST_SHOWN: usize = 400;

/// How a source without a tree is refused.
pub fn refusal(alloc: Global, error: &ParseError) -> Result<Text, RowError> {
    match error {
        ParseError::Lex(error) => fault(alloc, error),
        ParseError::NoMemory => Err(RowError::NoMemory),
        ParseError::Profile { line, what } => {
            let what = what.as_str();
            Ok(Text::from_string(format!(in alloc; "{what} is left out, in line {line}")?)?)
        }
        error => Ok(Text::from_string(format!(in alloc; "{error}")?)?),
    }
}

/// A text in quotes, or its length where it is long.
fn shown(alloc: Global, source: &[u8], text: &Text) -> Result<Text, RowError> {
    let len = text.len();
    if len <= MOST_SHOWN {
        return Ok(write_quoted(Text::new(alloc), text.as_str())?);
    }
    let same = if text.as_bytes() == source {
        ", the source itself"
    } else {
        ""
    };
    Ok(Text::from_string(format!(in alloc; "{len} bytes{same}")?)?)
}

/// Whether what is printed is parsed and printed again as it is.
fn is_printed_again(alloc: Global, text: &Text) -> Result<bool, RowError> {
    match parse(alloc, text.as_bytes()) {
        Ok(script) => Ok(print_script(&script)?.as_str() == text.as_str()),
        Err(ParseError::NoMemory) => Err(RowError::NoMemory),
        Err(_) => Ok(false),
    }
}

/// A script as the printer writes it.
pub fn printed(alloc: Global, source: &[u8], script: &Script) -> Result<Text, RowError> {
    let text = print_script(script)?;
    if text.len() <= LONGEST_SOURCE && !is_printed_again(alloc, &text)? {
        return Ok(Text::from_str(alloc, "printed otherwise when it is read again")?);
    }
    shown(alloc, source, &text)
}

/// The tree of a source.
pub fn answer(alloc: Global, source: &[u8]) -> Result<Text, RowError> {
    match parse(alloc, source) {
        Ok(script) => printed(alloc, source, &script),
        Err(error) => refusal(alloc, &error),
    }
}
