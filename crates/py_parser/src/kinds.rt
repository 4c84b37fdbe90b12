//! How the refused token is refused.

ghost use Rattle.std.specs.Prelude.{◌≡◌, IfOk, Some, None, map, if◌then◌else◌};
ghost use Rattle.py_parser.specs.Kinds as kinds;

use crate::error::ParseError;
use base_types::{Exact, NoMemory, Text};
use py_lexer::{Tok, Token};
use source_combinators::Refusal;
use std::alloc::Global;

const LISTED_WORDS: [&str; 11] = [
    "class", "for", "with", "async", "await", "yield", "lambda", "nonlocal", "assert", "global",
    "def",
];

const LISTED_SIGNS: [&str; 22] = [
    "@", "**", "/", ":=", "&", "|", "^", "~", "<<", ">>", "->", "{", "}", "...", "=", ",", "==",
    "!=", "<", "<=", ">", ">=",
];

const LACKING: [&str; 8] = ["**=", ">>=", "<<=", "/=", "@=", "&=", "|=", "^="];

const JUMPS: [&str; 3] = ["return", "break", "continue"];

fn is_among(text: &str, words: &[&str]) -> bool
    ensures { result ≡ kinds.is_among (map (λ x. x.now) words.now) text.now }
{
    for word in words {
        if text == *word {
            return true;
        }
    }
    false
}

fn is_left_out_word(inside_finally: bool, text: &str) -> bool
    ensures { result ≡ kinds.is_left_out_word inside_finally text.now }
{
    is_among(text, &LISTED_WORDS) || (inside_finally && is_among(text, &JUMPS))
}

fn is_left_out_sign(text: &str) -> bool
    ensures { result ≡ kinds.is_left_out_sign text.now }
{
    is_among(text, &LISTED_SIGNS) || is_among(text, &LACKING)
}

/// A text, where it is asked for.
fn copied(text: &Text, is_asked: bool) -> Result<Option<Text>, NoMemory>
    ensures { IfOk result (λ it. it ≡ (if is_asked then Some text.now else None)) }
{
    if is_asked {
        return Ok(Some(text.copy()?));
    }
    Ok(None)
}

/// What is left out, where the token belongs to it.
fn what_of(alloc: Global, inside_finally: bool, tok: &Tok) -> Result<Option<Text>, NoMemory>
    ensures { IfOk result (λ it. it ≡ kinds.what_of inside_finally tok.now) }
{
    match tok {
        Tok::Str(_) => Ok(Some(Text::from_str(alloc, "string")?)),
        Tok::Keyword(text) => copied(text, is_left_out_word(inside_finally, text.as_str())),
        Tok::Op(text) => copied(text, is_left_out_sign(text.as_str())),
        _ => Ok(None),
    }
}

fn by_what(what: Option<Text>, line: u32) -> ParseError
    ensures { result ≡ kinds.by_what what line }
{
    match what {
        Some(what) => ParseError::Profile { line, what },
        None => ParseError::Syntax { line },
    }
}

/// How the token is refused, where the refusal is of this kind.
pub fn refusal_of(
    alloc: Global,
    kind: Refusal,
    inside_finally: bool,
    token: &Token,
) -> Result<ParseError, NoMemory>
    ensures { IfOk result (λ it. it ≡ kinds.refusal_of kind inside_finally token.now) }
{
    match kind {
        Refusal::TooDeep => Ok(ParseError::TooDeep { line: token.line }),
        Refusal::Syntax => Ok(by_what(what_of(alloc, inside_finally, &token.kind)?, token.line)),
    }
}
