//! Single tokens of statements.

ghost use Rattle.std.specs.Prelude.{◌≡◌, ℕ, ◌<◌, List, length, IfOk};
ghost use Rattle.py_syntax.specs.declared.stmt.Branch.{Branch};
ghost use Rattle.source_combinators.specs.Reading.{head_of};
ghost use Rattle.source_combinators.specs.Outcome.{GivesRest};
ghost use Rattle.source_spec_statements.specs.Reading as reading;

use py_syntax::Lexeme;
use source_combinators::{ReadError, Refusal, refused};

/// What follows the end of a line.
#[tactic(auto, unfolding(source_spec_statements::specs::Reading::newline))]
pub fn newline(tokens: &[Lexeme]) -> Result<&[Lexeme], ReadError>
    ensures value { GivesRest result (reading.newline tokens.now) }
    ensures shorter { IfOk result (λ rest. length rest.now < length tokens.now) }
{
    match tokens {
        [Lexeme::Newline, rest @ ..] => Ok(rest),
        _ => Err(refused(Refusal::Syntax, tokens)),
    }
}

/// What follows a colon.
#[tactic(auto, unfolding(source_spec_statements::specs::Reading::colon))]
pub fn colon(tokens: &[Lexeme]) -> Result<&[Lexeme], ReadError>
    ensures value { GivesRest result (reading.colon tokens.now) }
    ensures shorter { IfOk result (λ rest. length rest.now < length tokens.now) }
{
    match tokens {
        [Lexeme::Colon, rest @ ..] => Ok(rest),
        _ => Err(refused(Refusal::Syntax, tokens)),
    }
}

/// What follows the begin of a block's indentation.
#[tactic(auto, unfolding(source_spec_statements::specs::Reading::indent))]
pub fn indent(tokens: &[Lexeme]) -> Result<&[Lexeme], ReadError>
    ensures value { GivesRest result (reading.indent tokens.now) }
    ensures shorter { IfOk result (λ rest. length rest.now < length tokens.now) }
{
    match tokens {
        [Lexeme::Indent, rest @ ..] => Ok(rest),
        _ => Err(refused(Refusal::Syntax, tokens)),
    }
}

/// What follows the end of a block's indentation.
#[tactic(auto, unfolding(source_spec_statements::specs::Reading::dedent))]
pub fn dedent(tokens: &[Lexeme]) -> Result<&[Lexeme], ReadError>
    ensures value { GivesRest result (reading.dedent tokens.now) }
    ensures shorter { IfOk result (λ rest. length rest.now < length tokens.now) }
{
    match tokens {
        [Lexeme::Dedent, rest @ ..] => Ok(rest),
        _ => Err(refused(Refusal::Syntax, tokens)),
    }
}

/// What follows an opening parenthesis.
#[tactic(auto, unfolding(source_spec_statements::specs::Reading::open_paren))]
pub fn open_paren(tokens: &[Lexeme]) -> Result<&[Lexeme], ReadError>
    ensures value { GivesRest result (reading.open_paren tokens.now) }
    ensures shorter { IfOk result (λ rest. length rest.now < length tokens.now) }
{
    match tokens {
        [Lexeme::OpenParen, rest @ ..] => Ok(rest),
        _ => Err(refused(Refusal::Syntax, tokens)),
    }
}

/// What follows the end of the text: nothing.
#[tactic(auto, unfolding(source_spec_statements::specs::Reading::end))]
pub fn end(tokens: &[Lexeme]) -> Result<&[Lexeme], ReadError>
    ensures { GivesRest result (reading.end tokens.now) }
{
    match tokens {
        [Lexeme::End] => Ok(&tokens[1..]),
        [Lexeme::End, rest @ ..] => Err(refused(Refusal::Syntax, rest)),
        _ => Err(refused(Refusal::Syntax, tokens)),
    }
}

/// Whether a statement follows in a block, or in a script.
#[tactic(auto, unfolding(source_spec_statements::specs::Reading::stmt_ahead))]
pub fn stmt_ahead(tokens: &[Lexeme]) -> bool
    ensures { result ≡ reading.stmt_ahead (head_of tokens.now) }
{
    match tokens {
        [Lexeme::Dedent, ..] => false,
        [Lexeme::End, ..] => false,
        _ => true,
    }
}

/// Whether `except` stands here.
#[tactic(auto, unfolding(source_spec_statements::specs::Reading::except_ahead))]
pub fn except_ahead(tokens: &[Lexeme]) -> bool
    ensures { result ≡ reading.except_ahead (head_of tokens.now) }
{
    matches!(tokens, [Lexeme::Except, ..])
}

/// Whether `elif` stands here.
#[tactic(auto, unfolding(source_spec_statements::specs::Reading::elif_ahead))]
pub fn elif_ahead(tokens: &[Lexeme]) -> bool
    ensures { (found : List Branch × ℕ) → result ≡ reading.elif_ahead found (head_of tokens.now) }
{
    matches!(tokens, [Lexeme::Elif, ..])
}

/// Whether `global` stands here.
#[tactic(auto, unfolding(source_spec_statements::specs::Reading::global_ahead))]
pub fn global_ahead(tokens: &[Lexeme]) -> bool
    ensures { (found : List (List ℕ)) → result ≡ reading.global_ahead found (head_of tokens.now) }
{
    matches!(tokens, [Lexeme::Global, ..])
}
