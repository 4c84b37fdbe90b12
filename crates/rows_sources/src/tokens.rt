//! The tokens of a source, by lines, or its first fault.

use base_spelling::write_quoted;
use base_types::Text;
use py_lexer::{LexError, Tok, Token, tokens};
use rows_words::RowError;
use std::alloc::Global;

/// More tokens are only counted.
const MOST_SHOWN: usize = 100;

/// What stands for a token that has no text of its own.
fn word(tok: &Tok) -> &'static str {
    match tok {
        Tok::Newline => " newline",
        Tok::Indent => " indent",
        Tok::Dedent => " dedent",
        Tok::End => " end",
        Tok::Name(_) => " name ",
        Tok::Keyword(_) => " word ",
        _ => " ",
    }
}

/// The text with a token behind it.
fn put(mut text: Text, tok: &Tok) -> Result<Text, RowError> {
    text.push_str(word(tok))?;
    match tok {
        Tok::Name(inside) | Tok::Keyword(inside) | Tok::Op(inside) => {
            text.push_str(inside.as_str())?;
        }
        Tok::Number(value) => text.push_str(format!(in text.alloc(); "{value}")?.as_str())?,
        Tok::Str(inside) => return Ok(write_quoted(text, inside.as_str())?),
        _ => {}
    }
    Ok(text)
}

/// The tokens, those of a line behind its number.
fn by_lines(alloc: Global, tokens: &[Token]) -> Result<Text, RowError> {
    let mut text = Text::new(alloc);
    let mut line = 0;
    for token in tokens {
        if token.line != line {
            if line != 0 {
                text.push_str("; ")?;
            }
            line = token.line;
            text.push_str(format!(in alloc; "line {line}:")?.as_str())?;
        }
        text = put(text, &token.kind)?;
    }
    Ok(text)
}

/// Why a source has no tokens.
pub fn fault(alloc: Global, error: &LexError) -> Result<Text, RowError> {
    match error {
        LexError::NoMemory => Err(RowError::NoMemory),
        error => Ok(Text::from_string(format!(in alloc; "{error}")?)?),
    }
}

/// The tokens of a source.
pub fn answer(alloc: Global, source: &[u8]) -> Result<Text, RowError> {
    match tokens(alloc, source) {
        Ok(tokens) => {
            let count = tokens.len();
            if count > MOST_SHOWN {
                return Ok(Text::from_string(format!(in alloc; "{count} tokens")?)?);
            }
            by_lines(alloc, tokens.as_slice())
        }
        Err(error) => fault(alloc, &error),
    }
}
