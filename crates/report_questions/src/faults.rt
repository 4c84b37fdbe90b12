//! Sources that have no tree, as a report tells them.
ghost use Rattle.std.specs.Prelude.{◌≡◌, ◌++◌, IfOk, codes};
ghost use Rattle.report_questions.specs.Faults as spec;

use crate::question::{Query, Question};
use base_types::{NoMemory, Text};
use py_lexer::LexError;
use py_parser::ParseError;
use std::alloc::Global;

/// A fault in a line.
fn fault_at(alloc: Global, line: u32, text: &str) -> Result<Question, NoMemory>
    ensures { IfOk result (λ it. it ≡ spec.fault_at line text.now) }
{
    let text = Text::from_str(alloc, text)?;
    Ok(Question {
        line,
        query: Query::Fault(text),
    })
}

/// A source without tokens.
fn lexing_fault(alloc: Global, error: LexError) -> Result<Question, NoMemory>
    ensures { IfOk result (λ it. it ≡ spec.lexing_fault error) }
{
    match error {
        LexError::TooLong => fault_at(alloc, 1, "source is longer than 1048576 bytes"),
        LexError::NotUtf8 { line } => fault_at(alloc, line, "source is not UTF-8"),
        LexError::BadChar { line } => fault_at(alloc, line, "bad character"),
        LexError::BadNumber { line } => fault_at(alloc, line, "number not in the profile"),
        LexError::NumberTooWide { line } => fault_at(alloc, line, "number past 128 bits"),
        LexError::OpenString { line } => fault_at(alloc, line, "string not closed"),
        LexError::BadEscape { line } => fault_at(alloc, line, "bad escape"),
        LexError::BadDedent { line } => fault_at(alloc, line, "bad dedent"),
        LexError::MixedTabs { line } => fault_at(alloc, line, "inconsistent tabs"),
        LexError::NoMemory => Err(NoMemory),
    }
}

/// What is said of a part of the language that is left out.
fn left_out(alloc: Global, what: &str) -> Result<Text, NoMemory>
    ensures { IfOk result (λ text. text ≡ codes "'" ++ what.now ++ codes "' is not in the profile") }
{
    Text::from_string(format!(in alloc; "'{what}' is not in the profile")?)
}

/// A part of the language that is left out, in a line.
fn left_out_at(alloc: Global, line: u32, what: &str) -> Result<Question, NoMemory>
    ensures { IfOk result (λ it. it ≡ spec.fault_at line (codes "'" ++ what.now ++ codes "' is not in the profile")) }
{
    let text = left_out(alloc, what)?;
    fault_at(alloc, line, text.as_str())
}

/// A source without a tree. Want of memory is no fault of a source.
pub fn fault_of(alloc: Global, error: ParseError) -> Result<Question, NoMemory>
    ensures { IfOk result (λ it. it ≡ spec.fault_of error) }
{
    match error {
        ParseError::Lex(error) => lexing_fault(alloc, error),
        ParseError::Syntax { line } => fault_at(alloc, line, "invalid syntax"),
        ParseError::TooDeep { line } => fault_at(alloc, line, "too deep"),
        ParseError::Profile { line, what } => left_out_at(alloc, line, what.as_str()),
        ParseError::NoMemory => Err(NoMemory),
    }
}
