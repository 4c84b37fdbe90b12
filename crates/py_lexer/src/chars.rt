//! What a character begins.

ghost use Rattle.std.specs.Prelude.{◌≡◌};
ghost use Rattle.py_lexer.specs.Chars.{class_of, is_white, is_end, is_quote, is_digit};

use spec_core::starts_identifier;

/// What a character outside strings and comments begins.
#[derive(Clone, Copy)]
pub enum Class {
    White,
    Hash,
    LineEnd,
    Backslash,
    Digit,
    Quote,
    Letter,
    Other,
}

/// Blank, tab and form feed.
pub fn is_white(c: char) -> bool
    ensures { result ≡ is_white c }
{
    c == ' ' || c == '\t' || c == '\u{c}'
}

/// Whether a line end begins with the character.
pub fn is_end(c: char) -> bool
    ensures { result ≡ is_end c }
{
    c == '\n' || c == '\r'
}

/// Whether the character is a quote: `'` or `"`.
pub fn is_quote(c: char) -> bool
    ensures { result ≡ is_quote c }
{
    c == '\'' || c == '"'
}

/// Whether the character is a decimal digit of ASCII, `0` to `9`.
pub fn is_digit(c: char) -> bool
    ensures { result ≡ is_digit c }
{
    c >= '0' && c <= '9'
}

/// What the character begins outside strings and comments: `Other` where it is none of the other kinds.
#[tactic(auto, unfolding(crate::specs::Chars::class_of))]
pub fn class_of(c: char) -> Class
    ensures { result ≡ class_of c }
{
    if is_white(c) {
        Class::White
    } else if c == '#' {
        Class::Hash
    } else if is_end(c) {
        Class::LineEnd
    } else if c == '\\' {
        Class::Backslash
    } else if is_digit(c) {
        Class::Digit
    } else if is_quote(c) {
        Class::Quote
    } else if starts_identifier(c) {
        Class::Letter
    } else {
        Class::Other
    }
}
