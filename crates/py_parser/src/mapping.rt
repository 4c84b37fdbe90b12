//! Tokens as the grammar sees them.

ghost use Rattle.std.specs.Prelude.{◌≡◌, IfOk};
ghost use Rattle.py_parser.specs.Words as words;

use crate::keywords::keyword;
use crate::signs::sign;
use base_types::{Exact, NoMemory, Seq, Text};
use py_lexer::{Tok, Token};
use py_syntax::Lexeme;
use std::alloc::Global;

/// The lexeme, or the spelling where there is none.
fn named(text: &Text, lexeme: Option<Lexeme>) -> Result<Lexeme, NoMemory>
    ensures { IfOk result (λ it. it ≡ words.named text.now lexeme) }
{
    match lexeme {
        Some(lexeme) => Ok(lexeme),
        None => Ok(Lexeme::Other(text.copy()?)),
    }
}

/// A token as the grammar sees it.
pub fn lexeme(tok: &Tok) -> Result<Lexeme, NoMemory>
    ensures { IfOk result (λ it. it ≡ words.lexeme_of tok.now) }
{
    match tok {
        Tok::Name(name) => Ok(Lexeme::Name(name.copy()?)),
        Tok::Keyword(text) => named(text, keyword(text.as_str())),
        Tok::Number(n) => Ok(Lexeme::Number(*n)),
        Tok::Str(text) => Ok(Lexeme::Str(text.copy()?)),
        Tok::Op(text) => named(text, sign(text.as_str())),
        Tok::Newline => Ok(Lexeme::Newline),
        Tok::Indent => Ok(Lexeme::Indent),
        Tok::Dedent => Ok(Lexeme::Dedent),
        Tok::End => Ok(Lexeme::End),
    }
}

/// The tokens of a source as the grammar sees them, in order. The work is linear in the tokens and their texts.
pub fn lexemes(alloc: Global, tokens: &[Token]) -> Result<Seq<Lexeme>, NoMemory>
    ensures { IfOk result (λ it. it ≡ words.lexemes_of tokens.now) }
{
    let mut found = Seq::new(alloc);
    for token in tokens {
        found.push(lexeme(&token.kind)?)?;
    }
    Ok(found)
}
