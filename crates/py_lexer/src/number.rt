//! Numbers.

ghost use Rattle.std.specs.Prelude.{false, ◌≡◌, ◌≤◌, ◌<◌, ◌^◌, ◌-◌, length, drop, ◌==◌};
ghost use Rattle.std.specs.List.{prefix_len};
ghost use Rattle.py_lexer.specs.Chars.{head_passes};
ghost use Rattle.spec_core.specs.Identifiers.{continues_identifier};
ghost use Rattle.py_lexer.specs.Outcome.{GivesAt, WithinWord, word_view};
ghost use Rattle.py_lexer.specs.Reading as reading;

use crate::chars::is_digit;
use crate::error::{Kind, WordError};
use crate::names::name_len;
use crate::word::{Tok, Word};

/// The value of digits with single `_` between them, after those of `first`; values too wide for a token stay too wide.
#[tactic(auto, unfolding(crate::specs::Reading::digits))]
fn digits(first: u128, chars: &[char]) -> Option<u128>
    ensures { result ≡ reading.digits false first chars.now }
{
    let mut value = first;
    let mut joint = false;
    let mut rest = chars;
    'digits: while let [c, after @ ..] = rest {
        if is_digit(*c) {
            value = value
                .saturating_mul(10)
                .saturating_add((*c as u32 - 48) as u128);
            joint = false;
        } else if *c == '_' && !joint {
            joint = true;
        } else {
            return None;
        }
        rest = after;
    }
    if joint { None } else { Some(value) }
}

/// The value of a number's text.
#[tactic(auto, unfolding(crate::specs::Reading::number_value))]
fn number_value(chars: &[char]) -> Option<u128>
    ensures { result ≡ reading.number_value chars.now }
{
    let [c, rest @ ..] = chars else {
        return None;
    };
    let value = digits(digit_value(*c), rest)?;
    if *c == '0' && value != 0 {
        return None;
    }
    Some(value)
}

fn digit_value(c: char) -> u128
    ensures { result ≡ c - 48 }
{
    (c as u32).saturating_sub(48) as u128
}

/// Whether a dot stands at the front.
fn is_dotted(chars: &[char]) -> bool
    ensures { result ≡ head_passes (λ d. d == 46) chars.now }
{
    matches!(chars, ['.', ..])
}

/// The number at the front, and what follows it.
#[tactic(auto, unfolding(crate::specs::Reading::number))]
pub fn number(chars: &[char]) -> Result<(Word, &[char]), WordError>
    requires { 0 < prefix_len continues_identifier chars.now }
    ensures value { GivesAt word_view result (reading.number chars.now) }
    ensures within { WithinWord chars.now result }
{
    let (spelled, rest) = chars.split_at(name_len(chars));
    if is_dotted(rest) {
        return Err(WordError::Bad(Kind::BadNumber));
    }
    let Some(value) = number_value(spelled) else {
        return Err(WordError::Bad(Kind::BadNumber));
    };
    if value >= 1 << 127 {
        return Err(WordError::Bad(Kind::NumberTooWide));
    }
    Ok((
        Word {
            tok: Tok::Number(value as i128),
            lines: 0,
        },
        rest,
    ))
}
