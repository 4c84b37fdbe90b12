//! Operators.

ghost use Rattle.std.specs.Prelude.{◌≡◌, ◌≤◌, ◌<◌, length, map, take};
ghost use Rattle.py_lexer.specs.Operators.{same_text, is_among, is_operator_of_three, is_operator_of_two, is_operator_of_one, op_len};
ghost use Rattle.py_lexer.specs.Outcome.{GivesAt, WithinWord, word_view};
ghost use Rattle.py_lexer.specs.Reading as reading;

use crate::error::{Kind, WordError};
use crate::text::text_of;
use crate::word::{Tok, Word};
use std::alloc::Global;

const OF_THREE: [&[u8]; 5] = [b"**=", b"//=", b">>=", b"<<=", b"..."];

const OF_TWO: [&[u8]; 19] = [
    b"**", b"//", b">>", b"<<", b"==", b"!=", b"<=", b">=", b"->", b":=", b"+=", b"-=", b"*=",
    b"/=", b"%=", b"@=", b"&=", b"|=", b"^=",
];

const OF_ONE: [&[u8]; 23] = [
    b"+", b"-", b"*", b"/", b"%", b"@", b"&", b"|", b"^", b"~", b"<", b">", b"(", b")", b"[", b"]",
    b"{", b"}", b",", b":", b";", b".", b"=",
];

/// Whether the characters are those of the ASCII word.
fn same_text(text: &[char], word: &[u8]) -> bool
    ensures { result ≡ same_text text.now word.now }
{
    let mut text = text;
    let mut word = word;
    'same: while let [c, text_rest @ ..] = text {
        let [b, word_rest @ ..] = word else {
            return false;
        };
        if *c != *b as char {
            return false;
        }
        text = text_rest;
        word = word_rest;
    }
    word.is_empty()
}

/// Whether the text is one of the words.
fn is_among(text: &[char], words: &[&[u8]]) -> bool
    ensures { result ≡ is_among (map (λ w. w.now) words.now) text.now }
{
    let mut left = words;
    'words: while let [word, rest @ ..] = left {
        if same_text(text, word) {
            return true;
        }
        left = rest;
    }
    false
}

#[tactic(auto, unfolding(crate::specs::Operators::is_operator_of_three))]
fn is_operator_of_three(text: &[char]) -> bool
    ensures { result ≡ is_operator_of_three text.now }
{
    is_among(text, &OF_THREE)
}

#[tactic(auto, unfolding(crate::specs::Operators::is_operator_of_two))]
fn is_operator_of_two(text: &[char]) -> bool
    ensures { result ≡ is_operator_of_two text.now }
{
    is_among(text, &OF_TWO)
}

#[tactic(auto, unfolding(crate::specs::Operators::is_operator_of_one))]
fn is_operator_of_one(text: &[char]) -> bool
    ensures { result ≡ is_operator_of_one text.now }
{
    is_among(text, &OF_ONE)
}

/// The first `n` characters, or all.
fn front(chars: &[char], n: usize) -> &[char]
    ensures { result.now ≡ take n chars.now }
{
    if n < chars.len() { &chars[..n] } else { chars }
}

/// How many characters the longest operator at the front has.
#[tactic(auto, unfolding(crate::specs::Operators::op_len), using(crate::proofs::Lengths::three_long, crate::proofs::Lengths::two_long, crate::proofs::Lengths::one_long))]
fn op_len(chars: &[char]) -> usize
    ensures within { result ≤ length chars.now }
    ensures value { result ≡ op_len chars.now }
{
    if is_operator_of_three(front(chars, 3)) {
        3
    } else if is_operator_of_two(front(chars, 2)) {
        2
    } else if is_operator_of_one(front(chars, 1)) {
        1
    } else {
        0
    }
}

/// The operator at the front, and what follows it.
#[tactic(auto, unfolding(crate::specs::Reading::operator))]
pub fn operator(alloc: Global, chars: &[char]) -> Result<(Word, &[char]), WordError>
    ensures value { GivesAt word_view result (reading.operator chars.now) }
    ensures within { WithinWord chars.now result }
{
    let n = op_len(chars);
    if n == 0 {
        return Err(WordError::Bad(Kind::BadChar));
    }
    let (spelled, rest) = chars.split_at(n);
    Ok((
        Word {
            tok: Tok::Op(text_of(alloc, spelled)?),
            lines: 0,
        },
        rest,
    ))
}
