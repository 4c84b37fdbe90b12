//! Simple statements (Language Reference chapter 7).

ghost use Rattle.std.specs.Prelude.{◌≡◌, ◌<◌, ◌≤◌, length, IfOk};
ghost use Rattle.source_combinators.specs.Outcome.{GivesAt, Shortens, StaysWithin};
ghost use Rattle.source_spec_lines.specs.Lines as reading;

use crate::assignments::expr_first;
use crate::imports::{imported, imported_from};
use base_owners::Shared;
use py_syntax::{Context, Expr, Lexeme, Stmt};
use source_combinators::{ReadError, Refusal, refused};
use source_parse_expressions::{expr, primary, starts};
use std::alloc::Global;

/// The rest of a `del` (7.5).
#[tactic(auto, unfolding(source_spec_lines::specs::Lines::deleted))]
fn deleted(alloc: Global, tokens: &[Lexeme], room: usize) -> Result<(Stmt, &[Lexeme]), ReadError>
    ensures value { GivesAt (λ x. x) result (reading.deleted room tokens.now) }
    ensures shorter { Shortens tokens.now result }
{
    let (target, rest) = primary(alloc, tokens, room)?;
    if !target.is_target {
        return Err(refused(Refusal::Syntax, rest));
    }
    Ok((Stmt::Delete(target.tree), rest))
}

/// An expression that stands here.
#[tactic(auto, unfolding(source_spec_lines::specs::Lines::some_value))]
fn some_value(
    alloc: Global,
    tokens: &[Lexeme],
    room: usize,
) -> Result<(Option<Shared<Expr>>, &[Lexeme]), ReadError>
    ensures value { GivesAt (λ x. x) result (reading.some_value room tokens.now) }
    ensures within { StaysWithin tokens.now result }
{
    let (value, rest) = expr(alloc, tokens, room)?;
    Ok((Some(value.tree), rest))
}

/// An expression, if one stands here.
#[tactic(auto, unfolding(source_spec_lines::specs::Lines::value))]
fn value(
    alloc: Global,
    tokens: &[Lexeme],
    room: usize,
) -> Result<(Option<Shared<Expr>>, &[Lexeme]), ReadError>
    ensures value { GivesAt (λ x. x) result (reading.value room tokens.now) }
    ensures within { StaysWithin tokens.now result }
{
    if starts(tokens) {
        return some_value(alloc, tokens, room);
    }
    Ok((None, tokens))
}

/// The rest of a `return` (7.6).
#[tactic(auto, unfolding(source_spec_lines::specs::Lines::returned))]
fn returned(alloc: Global, tokens: &[Lexeme], room: usize) -> Result<(Stmt, &[Lexeme]), ReadError>
    ensures value { GivesAt (λ x. x) result (reading.returned room tokens.now) }
    ensures within { StaysWithin tokens.now result }
{
    let (value, rest) = value(alloc, tokens, room)?;
    Ok((Stmt::Return(value), rest))
}

/// The rest of a `raise` (7.8).
#[tactic(auto, unfolding(source_spec_lines::specs::Lines::raised))]
fn raised(alloc: Global, tokens: &[Lexeme], room: usize) -> Result<(Stmt, &[Lexeme]), ReadError>
    ensures value { GivesAt (λ x. x) result (reading.raised room tokens.now) }
    ensures within { StaysWithin tokens.now result }
{
    let (value, rest) = value(alloc, tokens, room)?;
    Ok((Stmt::Raise(value), rest))
}

/// Whether `return` may stand here.
fn may_return(context: Context) -> bool
    ensures { result ≡ reading.may_return context }
{
    context.in_function && !context.in_finally
}

/// A simple statement.
#[tactic(auto, unfolding(source_spec_lines::specs::Lines::simple))]
pub fn simple(
    alloc: Global,
    context: Context,
    tokens: &[Lexeme],
    room: usize,
) -> Result<(Stmt, &[Lexeme]), ReadError>
    ensures value { GivesAt (λ x. x) result (reading.simple context room tokens.now) }
    ensures shorter { Shortens tokens.now result }
{
    match tokens {
        [Lexeme::Del, rest @ ..] => deleted(alloc, rest, room),
        [Lexeme::Pass, rest @ ..] => Ok((Stmt::Pass, rest)),
        [Lexeme::Break, rest @ ..] => {
            if !context.in_loop {
                return Err(refused(Refusal::Syntax, tokens));
            }
            Ok((Stmt::Break, rest))
        }
        [Lexeme::Continue, rest @ ..] => {
            if !context.in_loop {
                return Err(refused(Refusal::Syntax, tokens));
            }
            Ok((Stmt::Continue, rest))
        }
        [Lexeme::Return, rest @ ..] => {
            if !may_return(context) {
                return Err(refused(Refusal::Syntax, tokens));
            }
            returned(alloc, rest, room)
        }
        [Lexeme::Raise, rest @ ..] => raised(alloc, rest, room),
        [Lexeme::Import, rest @ ..] => imported(alloc, rest),
        [Lexeme::From, rest @ ..] => imported_from(alloc, context, rest, room),
        _ => expr_first(alloc, tokens, room),
    }
}
