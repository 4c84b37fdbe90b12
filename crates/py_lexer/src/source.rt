//! A source: its bytes, and its tokens or why there are none.

ghost use Rattle.std.specs.Prelude.{◌≡◌, ◌≤◌, ◌<◌, ◌+◌, ◌==◌, ◌^◌, List, length, take, IfOk, IfErr, Ok, Err, MatchResult};
ghost use Rattle.std.specs.Str.{IsUtf8, IsValidUpTo, chars};
ghost use Rattle.py_lexer.specs.Chars.{head_passes};
ghost use Rattle.py_lexer.specs.Source.{Answer, Tokens, line_ends, without_mark};
ghost use Rattle.py_lexer.specs.SourceReading.{source};
ghost use Rattle.py_lexer.specs.Scanning.{Told};
ghost use Rattle.py_lexer.specs.Reading as reading;

use crate::error::{LexError, lex_error};
use crate::scan::scan;
use crate::word::Token;
use base_types::{LONGEST_SOURCE, Seq};
use std::alloc::{AllocError, Global};

/// Whether a LF stands at the front.
fn begins_with_lf(bytes: &[u8]) -> bool
    ensures { result ≡ head_passes (λ d. d == 10) bytes.now }
{
    matches!(bytes, [b'\n', ..])
}

/// How many line ends the text has.
#[tactic(auto, unfolding(crate::specs::Source::line_ends))]
fn line_ends(bytes: &[u8]) -> u32
    requires { length bytes.now < 2 ^ 31 }
    ensures value { result ≡ line_ends bytes.now }
    ensures within { result ≤ length bytes.now }
{
    let mut count = 0;
    let mut rest = bytes;
    'lines: while let [b, after @ ..] = rest {
        if *b == b'\n' || *b == b'\r' && !begins_with_lf(after) {
            count += 1;
        }
        rest = after;
    }
    count
}

/// The text without a byte order mark.
#[tactic(auto, unfolding(crate::specs::Source::without_mark))]
fn without_mark(text: &[char]) -> &[char]
    ensures value { result.now ≡ without_mark text.now }
    ensures within { length result.now ≤ length text.now }
{
    match text {
        ['\u{feff}', rest @ ..] => rest,
        _ => text,
    }
}

/// The characters of the text.
fn decoded(alloc: Global, text: &str) -> Result<Vec<char>, AllocError>
    ensures { IfOk result (λ v. v.items ≡ chars text.now) }
{
    text.chars().collect(alloc)
}

/// The tokens of a source, as it is read.
#[tactic(auto, unfolding(crate::specs::SourceReading::source), using(crate::proofs::Sources::utf8_true, crate::proofs::Sources::utf8_false, crate::proofs::Sources::chars_fit, crate::proofs::Sources::valid_within))]
fn read(alloc: Global, src: &[u8]) -> Result<Seq<Token>, LexError>
    ensures { Told (λ told. told ≡ source src.now) result }
{
    if src.len() > LONGEST_SOURCE {
        return Err(LexError::TooLong);
    }
    let text = match str::from_utf8(src) {
        Ok(text) => text,
        Err(error) => {
            let line = line_ends(&src[..error.valid_up_to()]) + 1;
            return Err(LexError::NotUtf8 { line });
        }
    };
    let Ok(text) = decoded(alloc, text) else {
        return Err(LexError::NoMemory);
    };
    match scan(alloc, without_mark(&text)) {
        Ok(tokens) => Ok(tokens),
        Err(error) => Err(lex_error(error)),
    }
}

/// The tokens of a source (Language Reference, chapter 2, for a small subset of the language), or its first fault in
/// text order with its line, from 1: each `LexError` comes exactly where `Tokens` of `specs/Source.antt` says, but that
/// want of memory may stand in place of any answer. The work is linear in the length of the source.
pub fn tokens(alloc: Global, src: &[u8]) -> Result<Seq<Token>, LexError>
    // What is answered is what the source gives.
    ensures given { Told (Tokens src.now) result }
    // It gives nothing else.
    ensures only { (answer : Answer) → Tokens src.now answer → Told (λ told. told ≡ answer) result }
{
    read(alloc, src)
}
