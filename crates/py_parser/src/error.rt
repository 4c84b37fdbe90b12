//! Why a source has no tree.

use base_types::{NoMemory, Text};
use py_lexer::LexError;
use thiserror::Error;

/// Why a source has no tree, with the line of the refused token, from 1.
#[derive(Debug, Drop, Error)]
pub enum ParseError {
    /// It has no tokens.
    #[error("{0}")]
    Lex(LexError),
    /// The first token that no script has after the tokens before it.
    #[error("invalid syntax in line {line}")]
    Syntax { line: u32 },
    /// Only the limit of 64 open levels refuses the token.
    #[error("too deep in line {line}")]
    TooDeep { line: u32 },
    /// The token belongs to a part of Python that is left out: its own text, or the word `string`.
    #[error("not in the profile in line {line}")]
    Profile { line: u32, what: Text },
    #[error("out of memory")]
    NoMemory,
}

impl From<NoMemory> for ParseError {
    ghost use Rattle.std.specs.Prelude.{◌≡◌};
    ghost use Rattle.py_parser.specs.declared.error.ParseError.TheVariants as error;

    ghost from_gives = { λ _ e. e ≡ error.NoMemory };

    fn from(_: NoMemory) -> ParseError {
        ParseError::NoMemory
    }
}
