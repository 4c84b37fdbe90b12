//! Single tokens of expressions.

ghost use Rattle.std.specs.Prelude.{◌≡◌, ◌==◌, ◌<◌, ◌≤◌, length, IfOk, Ok};
ghost use Rattle.source_combinators.specs.Reading.{head_of};
ghost use Rattle.source_combinators.specs.Outcome.{GivesAt, GivesRest, Shortens, StaysWithin};
ghost use Rattle.source_spec_lines.specs.Expressions as reading;
ghost use Rattle.py_syntax.specs.declared.expr.Expr.TheVariants as exprs;

use base_owners::Shared;
use base_types::NoMemory;
use py_syntax::{BinaryOp, Comparison, Expr, Level, Lexeme};
use source_combinators::{ReadError, Refusal, refused};
use std::alloc::Global;

/// Whether an expression begins here.
#[tactic(auto, unfolding(source_spec_lines::specs::Expressions::starts))]
pub fn starts(tokens: &[Lexeme]) -> bool
    ensures { result ≡ reading.starts (head_of tokens.now) }
{
    match tokens {
        [Lexeme::Name(_), ..] => true,
        [Lexeme::Number(_), ..] => true,
        [Lexeme::Str(_), ..] => true,
        [Lexeme::None, ..] => true,
        [Lexeme::True, ..] => true,
        [Lexeme::False, ..] => true,
        [Lexeme::OpenParen, ..] => true,
        [Lexeme::OpenBracket, ..] => true,
        [Lexeme::Minus, ..] => true,
        [Lexeme::Not, ..] => true,
        _ => false,
    }
}

/// How strongly the token ahead binds what stands before it; 0 where it does not go on with an expression.
#[tactic(auto, unfolding(source_spec_lines::specs::Expressions::strength))]
fn strength(tokens: &[Lexeme]) -> u32
    ensures { result ≡ reading.strength (head_of tokens.now) }
{
    match tokens {
        [Lexeme::Or, ..] => 1,
        [Lexeme::And, ..] => 2,
        [Lexeme::EqEq, ..] => 3,
        [Lexeme::NotEq, ..] => 3,
        [Lexeme::Less, ..] => 3,
        [Lexeme::LessEq, ..] => 3,
        [Lexeme::Greater, ..] => 3,
        [Lexeme::GreaterEq, ..] => 3,
        [Lexeme::In, ..] => 3,
        [Lexeme::Not, ..] => 3,
        [Lexeme::Is, ..] => 3,
        [Lexeme::Plus, ..] => 4,
        [Lexeme::Minus, ..] => 4,
        [Lexeme::Star, ..] => 5,
        [Lexeme::SlashSlash, ..] => 5,
        [Lexeme::Percent, ..] => 5,
        [Lexeme::Dot, ..] => 6,
        [Lexeme::OpenParen, ..] => 6,
        [Lexeme::OpenBracket, ..] => 6,
        _ => 0,
    }
}

/// Whether what follows an atom stands here.
pub fn begins_trailer(tokens: &[Lexeme]) -> bool
    ensures { result ≡ (reading.strength (head_of tokens.now) == 6) }
{
    strength(tokens) == 6
}

/// Whether a comparing operator stands here.
pub fn begins_comparison(tokens: &[Lexeme]) -> bool
    ensures { result ≡ reading.begins_comparison (head_of tokens.now) }
{
    strength(tokens) == 3
}

/// Whether an operator of this level stands here.
pub fn begins_join(level: Level, tokens: &[Lexeme]) -> bool
    ensures { result ≡ (reading.strength (head_of tokens.now) == reading.strength_of level) }
{
    strength(tokens) == strength_of(level)
}

/// How strongly the operators of a level bind.
fn strength_of(level: Level) -> u32
    ensures { result ≡ reading.strength_of level }
{
    match level {
        Level::Disjunction => 1,
        Level::Conjunction => 2,
        Level::Sum => 4,
        Level::Term => 5,
    }
}

/// What follows a closing parenthesis.
#[tactic(auto, unfolding(source_spec_lines::specs::Expressions::close_paren))]
pub fn close_paren(tokens: &[Lexeme]) -> Result<&[Lexeme], ReadError>
    ensures value { GivesRest result (reading.close_paren tokens.now) }
    ensures shorter { IfOk result (λ rest. length rest.now < length tokens.now) }
{
    match tokens {
        [Lexeme::CloseParen, rest @ ..] => Ok(rest),
        _ => Err(refused(Refusal::Syntax, tokens)),
    }
}

/// What follows a closing bracket.
#[tactic(auto, unfolding(source_spec_lines::specs::Expressions::close_bracket))]
pub fn close_bracket(tokens: &[Lexeme]) -> Result<&[Lexeme], ReadError>
    ensures value { GivesRest result (reading.close_bracket tokens.now) }
    ensures shorter { IfOk result (λ rest. length rest.now < length tokens.now) }
{
    match tokens {
        [Lexeme::CloseBracket, rest @ ..] => Ok(rest),
        _ => Err(refused(Refusal::Syntax, tokens)),
    }
}

/// Whether a comma stands here, and what follows it.
#[tactic(auto, unfolding(source_spec_lines::specs::Expressions::comma))]
pub fn comma(tokens: &[Lexeme]) -> (bool, &[Lexeme])
    ensures value { reading.comma tokens.now ≡ Ok (result.0, result.1.now) }
    ensures within { length result.1.now ≤ length tokens.now }
{
    match tokens {
        [Lexeme::Comma, rest @ ..] => (true, rest),
        _ => (false, tokens),
    }
}

/// The second word of `not in`.
#[tactic(auto, unfolding(source_spec_lines::specs::Expressions::after_not))]
fn after_not(tokens: &[Lexeme]) -> Result<(Comparison, &[Lexeme]), ReadError>
    ensures value { GivesAt (λ c. c) result (reading.after_not tokens.now) }
    ensures shorter { Shortens tokens.now result }
{
    match tokens {
        [Lexeme::In, rest @ ..] => Ok((Comparison::NotIn, rest)),
        _ => Err(refused(Refusal::Syntax, tokens)),
    }
}

/// `is` or `is not`, behind the first word.
#[tactic(auto, unfolding(source_spec_lines::specs::Expressions::after_is))]
fn after_is(tokens: &[Lexeme]) -> (Comparison, &[Lexeme])
    ensures value { reading.after_is tokens.now ≡ Ok (result.0, result.1.now) }
    ensures within { length result.1.now ≤ length tokens.now }
{
    match tokens {
        [Lexeme::Not, rest @ ..] => (Comparison::IsNot, rest),
        _ => (Comparison::Is, tokens),
    }
}

/// A comparing operator (Language Reference 6.10).
#[tactic(auto, unfolding(source_spec_lines::specs::Expressions::comparator))]
pub fn comparator(tokens: &[Lexeme]) -> Result<(Comparison, &[Lexeme]), ReadError>
    ensures value { GivesAt (λ c. c) result (reading.comparator tokens.now) }
    ensures shorter { Shortens tokens.now result }
{
    match tokens {
        [Lexeme::EqEq, rest @ ..] => Ok((Comparison::Eq, rest)),
        [Lexeme::NotEq, rest @ ..] => Ok((Comparison::Ne, rest)),
        [Lexeme::Less, rest @ ..] => Ok((Comparison::Lt, rest)),
        [Lexeme::LessEq, rest @ ..] => Ok((Comparison::Le, rest)),
        [Lexeme::Greater, rest @ ..] => Ok((Comparison::Gt, rest)),
        [Lexeme::GreaterEq, rest @ ..] => Ok((Comparison::Ge, rest)),
        [Lexeme::In, rest @ ..] => Ok((Comparison::In, rest)),
        [Lexeme::Not, rest @ ..] => after_not(rest),
        [Lexeme::Is, rest @ ..] => Ok(after_is(rest)),
        _ => Err(refused(Refusal::Syntax, tokens)),
    }
}

/// What an operator makes of its operands (6.5 to 6.7, 6.11).
#[tactic(auto, unfolding(source_spec_lines::specs::Expressions::join))]
pub fn join(
    alloc: Global,
    operator: &Lexeme,
    left: Shared<Expr>,
    right: Shared<Expr>,
) -> Result<Shared<Expr>, NoMemory>
    ensures { IfOk result (λ expr. expr ≡ reading.join operator.now left right) }
{
    match operator {
        Lexeme::Or => Shared::new(alloc, Expr::Or(left, right)),
        Lexeme::And => Shared::new(alloc, Expr::And(left, right)),
        Lexeme::Plus => binary(alloc, BinaryOp::Add, left, right),
        Lexeme::Minus => binary(alloc, BinaryOp::Sub, left, right),
        Lexeme::Star => binary(alloc, BinaryOp::Mul, left, right),
        Lexeme::SlashSlash => binary(alloc, BinaryOp::FloorDiv, left, right),
        Lexeme::Percent => binary(alloc, BinaryOp::Mod, left, right),
        _ => Ok(left),
    }
}

fn binary(
    alloc: Global,
    op: BinaryOp,
    left: Shared<Expr>,
    right: Shared<Expr>,
) -> Result<Shared<Expr>, NoMemory>
    ensures { IfOk result (λ expr. expr ≡ exprs.Binary op left right) }
{
    Shared::new(alloc, Expr::Binary(op, left, right))
}
