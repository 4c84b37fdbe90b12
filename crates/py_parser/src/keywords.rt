//! Keywords that a production of the grammar names (Language Reference 2.3.1).

ghost use Rattle.std.specs.Prelude.{◌≡◌};
ghost use Rattle.py_parser.specs.Words as words;

use py_syntax::Lexeme;

/// Constants (Language Reference 6.2.1).
fn constant(text: &str) -> Option<Lexeme>
    ensures { result ≡ words.constant text.now }
{
    if text == "False" {
        Some(Lexeme::False)
    } else if text == "None" {
        Some(Lexeme::None)
    } else if text == "True" {
        Some(Lexeme::True)
    } else {
        None
    }
}

/// Words of expressions.
fn word_of_expression(text: &str) -> Option<Lexeme>
    ensures { result ≡ words.word_of_expression text.now }
{
    if text == "and" {
        Some(Lexeme::And)
    } else if text == "in" {
        Some(Lexeme::In)
    } else if text == "is" {
        Some(Lexeme::Is)
    } else if text == "not" {
        Some(Lexeme::Not)
    } else if text == "or" {
        Some(Lexeme::Or)
    } else {
        None
    }
}

/// Words of simple statements.
fn word_of_jump(text: &str) -> Option<Lexeme>
    ensures { result ≡ words.word_of_jump text.now }
{
    if text == "break" {
        Some(Lexeme::Break)
    } else if text == "continue" {
        Some(Lexeme::Continue)
    } else if text == "del" {
        Some(Lexeme::Del)
    } else if text == "pass" {
        Some(Lexeme::Pass)
    } else if text == "raise" {
        Some(Lexeme::Raise)
    } else if text == "return" {
        Some(Lexeme::Return)
    } else {
        None
    }
}

/// Words of imports and of `global`.
fn word_of_import(text: &str) -> Option<Lexeme>
    ensures { result ≡ words.word_of_import text.now }
{
    if text == "as" {
        Some(Lexeme::As)
    } else if text == "from" {
        Some(Lexeme::From)
    } else if text == "global" {
        Some(Lexeme::Global)
    } else if text == "import" {
        Some(Lexeme::Import)
    } else {
        None
    }
}

/// Words of compound statements.
fn word_of_block(text: &str) -> Option<Lexeme>
    ensures { result ≡ words.word_of_block text.now }
{
    if text == "def" {
        Some(Lexeme::Def)
    } else if text == "elif" {
        Some(Lexeme::Elif)
    } else if text == "else" {
        Some(Lexeme::Else)
    } else if text == "except" {
        Some(Lexeme::Except)
    } else if text == "finally" {
        Some(Lexeme::Finally)
    } else if text == "if" {
        Some(Lexeme::If)
    } else if text == "try" {
        Some(Lexeme::Try)
    } else if text == "while" {
        Some(Lexeme::While)
    } else {
        None
    }
}

/// The keyword, where a production names it.
#[tactic(auto, unfolding(crate::specs::Words::keyword))]
pub fn keyword(text: &str) -> Option<Lexeme>
    ensures { result ≡ words.keyword text.now }
{
    if let Some(lexeme) = constant(text) {
        return Some(lexeme);
    }
    if let Some(lexeme) = word_of_expression(text) {
        return Some(lexeme);
    }
    if let Some(lexeme) = word_of_jump(text) {
        return Some(lexeme);
    }
    if let Some(lexeme) = word_of_import(text) {
        return Some(lexeme);
    }
    word_of_block(text)
}
