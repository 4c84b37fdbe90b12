//! Identifiers and keywords.
ghost use Rattle.std.specs.Prelude.{IfOk, ◌≡◌, ◌≤◌, ◌<◌, length};
ghost use Rattle.std.specs.List.{prefix_len};
ghost use Rattle.spec_core.specs.Identifiers.{continues_identifier};
ghost use Rattle.py_lexer.specs.Names.{word_of, ident_text};
ghost use Rattle.py_lexer.specs.Outcome.{GivesAt, WithinWord, word_view};
ghost use Rattle.py_lexer.specs.Reading as reading;

use crate::error::{Kind, WordError};
use crate::text::text_of;
use crate::word::{Tok, Word};
use base_types::{NoMemory, Text};
use spec_core::{continues_identifier, ident_of, is_ident, is_keyword};
use std::alloc::Global;

/// How many characters from the front may stand in an identifier.
pub fn name_len(chars: &[char]) -> usize
    ensures within { result ≤ length chars.now }
    ensures value { result ≡ prefix_len continues_identifier chars.now }
{
    let mut len = 0;
    'len: while len < chars.len() && continues_identifier(chars[len]) {
        len += 1;
    }
    len
}

/// A keyword or a name.
fn word_of(text: Text) -> Tok
    ensures { result ≡ word_of text }
{
    if is_keyword(text.as_str()) {
        Tok::Keyword(text)
    } else {
        Tok::Name(text)
    }
}

/// The normal form of these characters.
#[tactic(auto, unfolding(crate::specs::Names::ident_text))]
fn ident_text(alloc: Global, spelled: &[char]) -> Result<Text, NoMemory>
    ensures { IfOk result (λ text. text ≡ ident_text spelled.now) }
{
    ident_of(&text_of(alloc, spelled)?)
}

/// The identifier at the front in its normal form, and what follows it.
#[tactic(auto, unfolding(crate::specs::Reading::name))]
pub fn name(alloc: Global, chars: &[char]) -> Result<(Word, &[char]), WordError>
    requires { 0 < prefix_len continues_identifier chars.now }
    ensures value { GivesAt word_view result (reading.name chars.now) }
    ensures shorter { WithinWord chars.now result }
{
    let (spelled, rest) = chars.split_at(name_len(chars));
    let text = ident_text(alloc, spelled)?;
    if !is_ident(&text) {
        return Err(WordError::Bad(Kind::BadChar));
    }
    Ok((
        Word {
            tok: word_of(text),
            lines: 0,
        },
        rest,
    ))
}
