//! Operators and delimiters that a production of the grammar names (Language Reference 2.5, 2.6).

ghost use Rattle.std.specs.Prelude.{◌≡◌};
ghost use Rattle.py_parser.specs.Words as words;

use py_syntax::Lexeme;

/// Assignments.
fn sign_of_assignment(text: &str) -> Option<Lexeme>
    ensures { result ≡ words.sign_of_assignment text.now }
{
    if text == "=" {
        Some(Lexeme::Assign)
    } else if text == "+=" {
        Some(Lexeme::PlusEq)
    } else if text == "-=" {
        Some(Lexeme::MinusEq)
    } else if text == "*=" {
        Some(Lexeme::StarEq)
    } else if text == "//=" {
        Some(Lexeme::SlashSlashEq)
    } else if text == "%=" {
        Some(Lexeme::PercentEq)
    } else {
        None
    }
}

/// Comparisons.
fn sign_of_comparison(text: &str) -> Option<Lexeme>
    ensures { result ≡ words.sign_of_comparison text.now }
{
    if text == "==" {
        Some(Lexeme::EqEq)
    } else if text == "!=" {
        Some(Lexeme::NotEq)
    } else if text == "<" {
        Some(Lexeme::Less)
    } else if text == "<=" {
        Some(Lexeme::LessEq)
    } else if text == ">" {
        Some(Lexeme::Greater)
    } else if text == ">=" {
        Some(Lexeme::GreaterEq)
    } else {
        None
    }
}

/// Arithmetic.
fn sign_of_number(text: &str) -> Option<Lexeme>
    ensures { result ≡ words.sign_of_number text.now }
{
    if text == "+" {
        Some(Lexeme::Plus)
    } else if text == "-" {
        Some(Lexeme::Minus)
    } else if text == "*" {
        Some(Lexeme::Star)
    } else if text == "//" {
        Some(Lexeme::SlashSlash)
    } else if text == "%" {
        Some(Lexeme::Percent)
    } else {
        None
    }
}

/// Brackets.
fn bracket(text: &str) -> Option<Lexeme>
    ensures { result ≡ words.bracket text.now }
{
    if text == "(" {
        Some(Lexeme::OpenParen)
    } else if text == ")" {
        Some(Lexeme::CloseParen)
    } else if text == "[" {
        Some(Lexeme::OpenBracket)
    } else if text == "]" {
        Some(Lexeme::CloseBracket)
    } else {
        None
    }
}

/// Marks between.
fn mark(text: &str) -> Option<Lexeme>
    ensures { result ≡ words.mark text.now }
{
    if text == "," {
        Some(Lexeme::Comma)
    } else if text == ":" {
        Some(Lexeme::Colon)
    } else if text == ";" {
        Some(Lexeme::Semicolon)
    } else if text == "." {
        Some(Lexeme::Dot)
    } else if text == "..." {
        Some(Lexeme::Ellipsis)
    } else {
        None
    }
}

/// The operator or delimiter, where a production names it.
#[tactic(auto, unfolding(crate::specs::Words::sign))]
pub fn sign(text: &str) -> Option<Lexeme>
    ensures { result ≡ words.sign text.now }
{
    if let Some(lexeme) = sign_of_assignment(text) {
        return Some(lexeme);
    }
    if let Some(lexeme) = sign_of_comparison(text) {
        return Some(lexeme);
    }
    if let Some(lexeme) = sign_of_number(text) {
        return Some(lexeme);
    }
    if let Some(lexeme) = bracket(text) {
        return Some(lexeme);
    }
    mark(text)
}
