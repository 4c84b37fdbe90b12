//! The errors of sources that do not parse.
ghost use Rattle.std.specs.Prelude.{◌≡◌, ◌++◌, IfOk, codes};
ghost use Rattle.std.specs.Fmt.{decimal};
ghost use Rattle.meaning_state.specs.Faults.{raised};
ghost use Rattle.py_parser.specs.declared.error.ParseError.TheVariants as errors;
ghost use Rattle.step_calls.specs.Sources as spec;
ghost use Rattle.step_calls.specs.Raised.{IsRaised};

use base_types::{NoMemory, Text};
use py_lexer::LexError;
use py_parser::ParseError;
use py_value::{Kind, Raised};
use std::alloc::Global;

/// An error without a name.
fn plain(alloc: Global, kind: Kind, text: &str) -> Result<Raised, NoMemory>
    ensures { IfOk result (λ error. error ≡ raised kind text.now) }
{
    Raised::of(kind, Text::from_str(alloc, text)?, None)
}

/// Where in a source.
fn place(alloc: Global, line: u32) -> Result<Text, NoMemory>
    ensures { IfOk result (λ text. text ≡ codes "line " ++ decimal line ++ codes ": ") }
{
    Text::from_string(format!(in alloc; "line {line}: ")?)
}

/// What is wrong in a line.
fn in_line(alloc: Global, kind: Kind, line: u32, what: &str) -> Result<Raised, NoMemory>
    ensures { IfOk result (λ error. error ≡ raised kind (spec.in_line line what.now)) }
{
    let mut text = place(alloc, line)?;
    text.push_str(what)?;
    Raised::of(kind, text, None)
}

fn syntax_error(alloc: Global, line: u32, text: &str) -> Result<Raised, NoMemory>
    ensures { IfOk result (λ error. error ≡ spec.syntax_error line text.now) }
{
    in_line(alloc, Kind::SyntaxError, line, text)
}

/// A source has no tokens.
fn lexing_error(alloc: Global, error: LexError) -> Result<Raised, NoMemory>
    ensures { IfOk result (λ raised. raised ≡ spec.lexing_error error) }
{
    match error {
        LexError::TooLong => plain(
            alloc,
            Kind::SyntaxError,
            "source is longer than 1048576 bytes",
        ),
        LexError::NotUtf8 { line } => syntax_error(alloc, line, "source is not UTF-8"),
        LexError::BadChar { line } => syntax_error(alloc, line, "bad character"),
        LexError::BadNumber { line } => syntax_error(alloc, line, "number not in the profile"),
        LexError::NumberTooWide { line: _ } => {
            plain(alloc, Kind::ProfileError, "number past 128 bits")
        }
        LexError::OpenString { line } => syntax_error(alloc, line, "string not closed"),
        LexError::BadEscape { line } => syntax_error(alloc, line, "bad escape"),
        LexError::BadDedent { line } => syntax_error(alloc, line, "bad dedent"),
        LexError::MixedTabs { line } => syntax_error(alloc, line, "inconsistent tabs"),
        LexError::NoMemory => Err(NoMemory),
    }
}

/// What is said of a part of the language that is left out.
fn without(alloc: Global, what: &str) -> Result<Text, NoMemory>
    ensures { IfOk result (λ text. text ≡ codes "'" ++ what.now ++ codes "' is not in the profile") }
{
    Text::from_string(format!(in alloc; "'{what}' is not in the profile")?)
}

/// A part of the language that is left out.
fn left_out(alloc: Global, line: u32, what: &str) -> Result<Raised, NoMemory>
    ensures { IfOk result (λ raised. raised ≡ spec.parsing_error (errors.Profile line what.now)) }
{
    let text = without(alloc, what)?;
    let error = in_line(alloc, Kind::ProfileError, line, text.as_str())?;
    Ok(error)
}

/// The error that the body of a source raises that has no tree. Want of memory is no such error.
pub fn parsing_error(alloc: Global, error: ParseError) -> Result<Raised, NoMemory>
    ensures { IfOk result (IsRaised error) }
{
    match error {
        ParseError::Lex(error) => lexing_error(alloc, error),
        ParseError::Syntax { line } => syntax_error(alloc, line, "invalid syntax"),
        ParseError::TooDeep { line } => syntax_error(alloc, line, "too deep"),
        ParseError::Profile { line, what } => left_out(alloc, line, what.as_str()),
        ParseError::NoMemory => Err(NoMemory),
    }
}
