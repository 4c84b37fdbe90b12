//! Identifiers and keywords.
ghost use Rattle.std.specs.Prelude.{◌≡◌, ◌↔◌, IsTrue, IfOk, map};
ghost use Rattle.std.specs.List.{list_all, list_any};
ghost use Rattle.std.specs.Str.{chars, bytes_eq};
ghost use Rattle.spec_core.specs.Identifiers.{starts_identifier, continues_identifier, is_identifier, is_keyword, is_name, is_dotted, normal_form};

use crate::parts::around_last_dot;
use base_types::{Exact, NoMemory, Text};
use std::alloc::Global;
use unicode_ident::{is_xid_continue, is_xid_start};
use unicode_normalization::{is_nfkc, to_nfkc};

/// Whether an identifier may begin with the character: `_` or XID_Start (Language Reference 2.3).
pub fn starts_identifier(c: char) -> bool
    ensures { result ≡ starts_identifier c }
{
    is_xid_start(c) || c == '_'
}

/// Whether an identifier may go on with the character: `_` or XID_Continue (Language Reference 2.3).
pub fn continues_identifier(c: char) -> bool
    ensures { result ≡ continues_identifier c }
{
    is_xid_continue(c) || c == '_'
}

/// Whether the text is an identifier (Language Reference 2.3): `_` or XID_Start, then `_` or XID_Continue. Its normal
/// form is not asked for, and a keyword is an identifier too. It takes no memory.
pub fn is_ident(text: &Text) -> bool
    ensures { result ≡ is_identifier (chars text.now) }
{
    is_identifier(text.as_str())
}

/// The text in the normal form NFKC, in which the language compares identifiers (Language Reference 2.3).
pub fn ident_of(text: &Text) -> Result<Text, NoMemory>
    ensures { IfOk result (λ it. it ≡ normal_form text.now) }
{
    if text.as_str().is_ascii() {
        return text.copy();
    }
    Text::from_string(to_nfkc(text.alloc(), text.as_str())?)
}

// The keywords with fewer than four bytes, with four or five, and with more.
const SHORT: [&str; 11] = [
    "and", "as", "def", "del", "for", "if", "in", "is", "not", "or", "try",
];

const MIDDLE: [&str; 15] = [
    "False", "None", "True", "async", "await", "break", "class", "elif", "else", "from", "pass",
    "raise", "while", "with", "yield",
];

const LONG: [&str; 9] = [
    "assert", "continue", "except", "finally", "global", "import", "lambda", "nonlocal", "return",
];

/// Whether the text is a keyword (Language Reference 2.3.1). It takes no memory.
pub fn is_keyword(text: &str) -> bool
    ensures { result ≡ is_keyword text.now }
{
    let length = text.len();
    if length < 2 {
        return false;
    }
    if length < 4 {
        return is_among(text, &SHORT);
    }
    if length < 6 {
        return is_among(text, &MIDDLE);
    }
    is_among(text, &LONG)
}

fn is_among(text: &str, words: &[&str]) -> bool
    ensures { result ≡ list_any (bytes_eq text.now) (map (λ x. x.now) words.now) }
{
    for word in words {
        if text == *word {
            return true;
        }
    }
    false
}

fn is_identifier(text: &str) -> bool
    ensures { result ≡ is_identifier (chars text.now) }
{
    let mut chars = text.chars();
    match chars.next() {
        Some(first) => starts_identifier(first) && continue_identifier(chars.as_str()),
        None => false,
    }
}

/// Whether an identifier may go on with each character of the text.
fn continue_identifier(text: &str) -> bool
    ensures { result ≡ list_all continues_identifier (chars text.now) }
{
    text.chars().all(|c| continues_identifier(c))
}

/// Whether the text is one part of a dotted name.
fn is_name(alloc: Global, text: &str) -> Result<bool, NoMemory>
    ensures { IfOk result (λ yes. yes ≡ is_name text.now) }
{
    if !is_identifier(text) {
        return Ok(false);
    }
    if is_keyword(text) {
        return Ok(false);
    }
    Ok(is_nfkc(alloc, text)?)
}

/// Whether the text is a dotted name.
pub(crate) fn is_dotted(alloc: Global, text: &str) -> Result<bool, NoMemory>
    ensures { IfOk result (λ yes. yes ≡ is_dotted text.now) }
{
    let mut rest = text;
    'parts: while let Some((front, tail)) = around_last_dot(rest) {
        if !is_name(alloc, tail)? {
            return Ok(false);
        }
        rest = front;
    }
    is_name(alloc, rest)
}
