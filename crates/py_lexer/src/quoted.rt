//! Strings.

ghost use Rattle.std.specs.Prelude.{◌≡◌, ℕ, suc, ◌++◌, ◌≤◌, ◌<◌, ◌+◌, ◌*◌, ◌^◌, List, [], ◌∷◌, Option, Some, None, length, drop, IfSome, IfOk, IfErr, IsTrue};
ghost use Rattle.py_lexer.specs.Options.{map_option};
ghost use Rattle.py_lexer.specs.Outcome.{GivesAt, option_list, part_view, word_view, Shortens, Within, WithinWord};
ghost use Rattle.py_lexer.specs.Strings.{after_two, closing_quotes, opening_quotes, escaped, hex_digit, hex_pair, hex_four};
ghost use Rattle.py_lexer.specs.Reading as reading;

use crate::chars::is_end;
use crate::error::{Kind, WordError};
use crate::gap::after_end;
use crate::text::text_of;
use crate::word::{Tok, Word};
use std::alloc::Global;

/// The quotes of a string.
#[derive(Clone, Copy)]
pub struct Quotes {
    pub mark: char,
    /// Three of them.
    pub long: bool,
}

/// What a part of a string gives, and how many line ends it has.
#[derive(Clone, Copy)]
pub struct Part {
    pub char: Option<char>,
    pub lines: u32,
}

#[tactic(auto, unfolding(crate::specs::Strings::after_two))]
fn after_two(mark: char, chars: &[char]) -> Option<&[char]>
    ensures value { map_option (λ r. r.now) result ≡ after_two mark chars.now }
    ensures shorter { IfSome result (λ r. length r.now ≤ length chars.now) }
{
    match chars {
        [a, b, rest @ ..] if *a == mark && *b == mark => Some(rest),
        _ => None,
    }
}

#[tactic(auto, unfolding(crate::specs::Strings::closing_quotes))]
fn closing_quotes(quotes: Quotes, chars: &[char]) -> Option<&[char]>
    ensures value { map_option (λ r. r.now) result ≡ closing_quotes quotes chars.now }
    ensures shorter { IfSome result (λ r. length r.now < length chars.now) }
{
    match chars {
        [c, rest @ ..] if *c == quotes.mark => {
            if quotes.long {
                after_two(*c, rest)
            } else {
                Some(rest)
            }
        }
        _ => None,
    }
}

/// The quotes that open with `c`, and what follows them.
#[tactic(auto, unfolding(crate::specs::Strings::opening_quotes))]
fn opening_quotes(c: char, chars: &[char]) -> (Quotes, &[char])
    ensures value { (result.0, result.1.now) ≡ opening_quotes c chars.now }
    ensures shorter { length result.1.now ≤ length chars.now }
{
    match after_two(c, chars) {
        Some(rest) => (
            Quotes {
                mark: c,
                long: true,
            },
            rest,
        ),
        None => (
            Quotes {
                mark: c,
                long: false,
            },
            chars,
        ),
    }
}

#[tactic(auto, unfolding(crate::specs::Strings::escaped))]
fn escaped(c: char) -> Option<char>
    ensures { result ≡ escaped c }
{
    match c {
        '\\' | '\'' | '"' => Some(c),
        'n' => Some('\n'),
        'r' => Some('\r'),
        't' => Some('\t'),
        _ => None,
    }
}

#[tactic(auto, unfolding(crate::specs::Strings::hex_digit))]
fn hex_digit(c: char) -> Option<u32>
    ensures value { result ≡ hex_digit c }
    ensures small { IfSome result (λ d. d < 16) }
{
    if c >= '0' && c <= '9' {
        Some(c as u32 - 48)
    } else if c >= 'a' && c <= 'f' {
        Some(c as u32 - 87)
    } else if c >= 'A' && c <= 'F' {
        Some(c as u32 - 55)
    } else {
        None
    }
}

#[tactic(auto, unfolding(crate::specs::Strings::hex_pair))]
fn hex_pair(chars: &[char]) -> Option<u32>
    ensures value { result ≡ hex_pair chars.now }
    ensures small { IfSome result (λ n. n < 256) }
    ensures there { IfSome result (λ n. 2 ≤ length chars.now) }
{
    match chars {
        [a, b, ..] => {
            let high = hex_digit(*a)?;
            let low = hex_digit(*b)?;
            Some(16 * high + low)
        }
        _ => None,
    }
}

#[tactic(auto, unfolding(crate::specs::Strings::hex_four))]
fn hex_four(chars: &[char]) -> Option<u32>
    ensures value { result ≡ hex_four chars.now }
    ensures small { IfSome result (λ n. n < 65536) }
    ensures there { IfSome result (λ n. 4 ≤ length chars.now) }
{
    let high = hex_pair(chars)?;
    let low = hex_pair(&chars[2..])?;
    Some(256 * high + low)
}

/// The character of a hexadecimal escape, before what follows it.
#[tactic(auto, unfolding(crate::specs::Reading::hex_escape))]
fn hex_escape(code: Option<u32>, rest: &[char]) -> Result<(Part, &[char]), WordError>
    requires { IfSome code (λ n. n < 65536) }
    ensures value { GivesAt part_view result (reading.hex_escape code rest.now) }
    ensures within { IfOk result (λ p. (p.0.lines ≡ 0) × (p.1.now ≡ rest.now)) }
{
    let Some(code) = code else {
        return Err(WordError::Bad(Kind::BadEscape));
    };
    match char::from_u32(code) {
        Some(c) => Ok((
            Part {
                char: Some(c),
                lines: 0,
            },
            rest,
        )),
        None => Err(WordError::Bad(Kind::BadEscape)),
    }
}

/// What stands behind a backslash.
#[tactic(auto, unfolding(crate::specs::Reading::escape))]
fn escape(chars: &[char]) -> Result<(Part, &[char]), WordError>
    ensures value { GivesAt part_view result (reading.escape chars.now) }
    ensures within { Within chars.now result }
{
    let [c, rest @ ..] = chars else {
        return Err(WordError::Bad(Kind::BadEscape));
    };
    if is_end(*c) {
        return Ok((
            Part {
                char: None,
                lines: 1,
            },
            after_end(*c, rest),
        ));
    }
    if *c == 'x' {
        let code = hex_pair(rest);
        return hex_escape(code, &rest[rest.len().min(2)..]);
    }
    if *c == 'u' {
        let code = hex_four(rest);
        return hex_escape(code, &rest[rest.len().min(4)..]);
    }
    match escaped(*c) {
        Some(d) => Ok((
            Part {
                char: Some(d),
                lines: 0,
            },
            rest,
        )),
        None => Err(WordError::Bad(Kind::BadEscape)),
    }
}

/// A part of a string, where it is not closed.
#[tactic(auto, unfolding(crate::specs::Reading::item))]
fn item(quotes: Quotes, chars: &[char]) -> Result<(Part, &[char]), WordError>
    ensures value { GivesAt part_view result (reading.item quotes chars.now) }
    ensures within { IfOk result (λ p. p.0.lines + length p.1.now ≤ length chars.now) }
    ensures shorter { Shortens chars.now result }
{
    let [c, rest @ ..] = chars else {
        return Err(WordError::Bad(Kind::OpenString));
    };
    if *c == '\\' {
        return escape(rest);
    }
    if !is_end(*c) {
        return Ok((
            Part {
                char: Some(*c),
                lines: 0,
            },
            rest,
        ));
    }
    if !quotes.long {
        return Err(WordError::Bad(Kind::OpenString));
    }
    Ok((
        Part {
            char: Some('\n'),
            lines: 1,
        },
        after_end(*c, rest),
    ))
}

/// Puts the part at the end of the text.
fn push_part(text: &mut Vec<char>, part: Part) -> Result<(), WordError>
    ensures value { IfOk result (λ _. text.new.items ≡ text.old.items ++ option_list part.char) }
    ensures fails { IfErr result (λ e. e ≡ WordError.Memory) }
{
    if let Some(c) = part.char {
        text.push(c)?;
    }
    Ok(())
}

/// The rest of a string, and what follows it.
#[tactic(auto, unfolding(crate::specs::Reading::body))]
fn body(alloc: Global, quotes: Quotes, chars: &[char]) -> Result<(Word, &[char]), WordError>
    requires { length chars.now < 2 ^ 32 }
    ensures value { GivesAt word_view result (reading.body (suc (length chars.now)) quotes [] 0 chars.now) }
    ensures within { IfOk result (λ p. p.0.lines + length p.1.now ≤ length chars.now) }
{
    let mut text = Vec::new(alloc);
    let mut lines = 0;
    let mut rest = chars;
    'parts: loop {
        if let Some(after) = closing_quotes(quotes, rest) {
            return Ok((
                Word {
                    tok: Tok::Str(text_of(alloc, &text)?),
                    lines,
                },
                after,
            ));
        }
        let (part, after) = item(quotes, rest)?;
        push_part(&mut text, part)?;
        lines += part.lines;
        rest = after;
    }
}

/// The string at the front, and what follows it.
#[tactic(auto, unfolding(crate::specs::Reading::quoted))]
pub fn quoted(alloc: Global, chars: &[char]) -> Result<(Word, &[char]), WordError>
    requires { length chars.now < 2 ^ 32 }
    ensures value { GivesAt word_view result (reading.quoted chars.now) }
    ensures within { WithinWord chars.now result }
{
    let [c, rest @ ..] = chars else {
        return Err(WordError::Bad(Kind::OpenString));
    };
    let (quotes, rest) = opening_quotes(*c, rest);
    body(alloc, quotes, rest)
}
