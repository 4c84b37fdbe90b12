//! From a source to its tree.

ghost use Rattle.std.specs.Prelude.{◌≡◌, ◌-◌, ◌≤◌, ◌<◌, length, take, slice_get, IfOk, Some};
ghost use Rattle.py_lexer.specs.declared.word.Token.{Token};
ghost use Rattle.py_parser.specs.Words.{lexemes_of};
ghost use Rattle.py_parser.specs.Kinds as kinds;
ghost use Rattle.py_parser.specs.Places as places;
ghost use Rattle.py_parser.specs.Parses.{Answer, Reads, Parses, Ends, Told};
ghost use Rattle.py_parser.specs.Parsed.{parsed};

use crate::error::ParseError;
use crate::kinds::refusal_of;
use crate::lexemes;
use crate::place::inside_finally;
use base_types::{NoMemory, Seq};
use py_lexer::{LexError, Token, tokens};
use py_syntax::{Lexeme, Script};
use source_combinators::{Fault, ReadError};
use source_parse_statements::script;
use std::alloc::Global;

/// How many levels of a source may be open.
pub const MAX_LEVELS: usize = 64;

/// Why a source without tokens has no tree.
fn without_tokens(error: LexError) -> ParseError
    ensures { result ≡ kinds.without_tokens error }
{
    match error {
        LexError::NoMemory => ParseError::NoMemory,
        error => ParseError::Lex(error),
    }
}

/// How the refused token is refused.
fn refusal(
    alloc: Global,
    tokens: &[Token],
    lexemes: &[Lexeme],
    fault: Fault,
) -> Result<ParseError, NoMemory>
    requires some { 0 < fault.left }
    requires within { fault.left ≤ length tokens.now }
    requires same { lexemes.now ≡ lexemes_of tokens.now }
    ensures { IfOk result (λ error. (t : Token) → slice_get tokens.now (length tokens.now - fault.left) ≡ Some t
        → error ≡ kinds.refusal_of fault.kind (places.inside_finally
        (take (length tokens.now - fault.left) (lexemes_of tokens.now))) t) }
{
    let at = tokens.len() - fault.left;
    let inside = inside_finally(alloc, &lexemes[..at])?;
    refusal_of(alloc, fault.kind, inside, &tokens[at])
}

/// The tree that the lexemes of the tokens spell, or the refusal of the first one that no script has after those before it.
fn read(alloc: Global, tokens: &[Token], lexemes: &[Lexeme]) -> Result<Script, ParseError>
    requires ended { Ends tokens.now }
    requires same { lexemes.now ≡ lexemes_of tokens.now }
    ensures { Told (Reads tokens.now) result }
{
    match script(alloc, lexemes, MAX_LEVELS) {
        Ok(script) => Ok(script),
        Err(ReadError::NoMemory) => Err(ParseError::NoMemory),
        Err(ReadError::Refused(fault)) => Err(refusal(alloc, tokens, lexemes, fault)?),
    }
}

/// The same of the tokens alone.
fn parse_tokens(alloc: Global, tokens: &[Token]) -> Result<Script, ParseError>
    requires { Ends tokens.now }
    ensures { Told (Reads tokens.now) result }
{
    let lexemes = lexemes(alloc, tokens)?;
    read(alloc, tokens, lexemes.as_slice())
}

/// The tree of a source (Language Reference chapters 2 and 6 to 8, a subset), or why it has none: each `ParseError` comes
/// exactly where `Parses` of `specs/Parses.antt` says, but that want of memory may stand in place of any answer. At most
/// 64 levels are open, each of which takes a few native calls.
pub fn parse(alloc: Global, src: &[u8]) -> Result<Script, ParseError>
    // What is answered is what the source gives.
    ensures given { Told (Parses src.now) result }
    // It gives nothing else.
    ensures only { (answer : Answer) → Parses src.now answer → Told (λ told. told ≡ answer) result }
    // It is what is computed of the source.
    ensures is { Told (λ told. told ≡ parsed src.now) result }
{
    match tokens(alloc, src) {
        Ok(tokens) => parse_tokens(alloc, tokens.as_slice()),
        Err(error) => Err(without_tokens(error)),
    }
}
