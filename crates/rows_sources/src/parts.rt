//! What the readers of an expression, of a line and of a script give for the tokens of a source, with so many levels left.
ghost use Rattle.std.specs.Prelude.{◌≡◌, ◌∷◌, [], codes};
ghost use Rattle.std.specs.List.{list_any};
ghost use Rattle.std.specs.Str.{bytes_eq};

use crate::tokens::fault;
use crate::trees::printed;
use base_owners::Shared;
use base_types::{Seq, Text};
use py_lexer::tokens;
use py_parser::lexemes;
use py_syntax::{Context, Lexeme, Script, Stmt};
use rows_words::RowError;
use source_combinators::{ReadError, Refusal};
use source_parse_expressions::expression;
use source_parse_lines::line;
use source_parse_statements::script;
use std::alloc::Global;

const TOP: Context = Context {
    in_function: false,
    in_loop: false,
    in_finally: false,
};

/// Whether the word is that of a call that is answered here: the reader of an expression, of a line or of a script.
pub fn is_call(word: &str) -> bool
    ensures { result ≡ list_any (bytes_eq word.now)
        (codes "expression" ∷ codes "line" ∷ codes "script" ∷ []) }
{
    matches!(word, "expression" | "line" | "script")
}

/// How many tokens are left from the refused one on.
fn refusal(alloc: Global, error: ReadError) -> Result<Text, RowError> {
    match error {
        ReadError::NoMemory => Err(RowError::NoMemory),
        ReadError::Refused(fault) => {
            let why = match fault.kind {
                Refusal::TooDeep => "too deep",
                Refusal::Syntax => "invalid syntax",
            };
            let left = fault.left;
            Ok(Text::from_string(format!(in alloc; "{why}, {left} tokens left")?)?)
        }
    }
}

/// Statements as the printer writes them, and how many tokens are left.
fn told(alloc: Global, body: Seq<Stmt>, left: usize) -> Result<Text, RowError> {
    let script = Script {
        body: Shared::new(alloc, body)?,
    };
    let text = printed(alloc, b"", &script)?;
    let text = text.as_str();
    Ok(Text::from_string(format!(in alloc; "{text}, {left} tokens left")?)?)
}

fn expression_of(alloc: Global, room: usize, tokens: &[Lexeme]) -> Result<Text, RowError> {
    match expression(alloc, tokens, room) {
        Ok((found, rest)) => {
            let mut body = Seq::new(alloc);
            body.push(Stmt::Evaluate(found.tree))?;
            told(alloc, body, rest.len())
        }
        Err(error) => refusal(alloc, error),
    }
}

fn line_of(alloc: Global, room: usize, tokens: &[Lexeme]) -> Result<Text, RowError> {
    match line(alloc, TOP, tokens, room) {
        Ok((found, rest)) => told(alloc, found, rest.len()),
        Err(error) => refusal(alloc, error),
    }
}

fn script_of(alloc: Global, room: usize, tokens: &[Lexeme]) -> Result<Text, RowError> {
    match script(alloc, tokens, room) {
        Ok(script) => printed(alloc, b"", &script),
        Err(error) => refusal(alloc, error),
    }
}

/// What the tokens of a source begin with.
pub fn answer(alloc: Global, call: &str, room: usize, source: &[u8]) -> Result<Text, RowError> {
    let tokens = match tokens(alloc, source) {
        Ok(tokens) => tokens,
        Err(error) => return fault(alloc, &error),
    };
    let lexemes = lexemes(alloc, tokens.as_slice())?;
    match call {
        "expression" => expression_of(alloc, room, lexemes.as_slice()),
        "line" => line_of(alloc, room, lexemes.as_slice()),
        "script" => script_of(alloc, room, lexemes.as_slice()),
        _ => Err(RowError::Unknown),
    }
}
