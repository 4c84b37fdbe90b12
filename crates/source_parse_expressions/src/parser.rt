//! Expressions by descent, a function for each form. `room` is how many levels may still be opened.

ghost use Rattle.std.specs.Prelude.{◌≡◌, ◌<◌, ◌≤◌, length, IfOk, true, false};
ghost use Rattle.source_combinators.specs.Outcome.{Gives, GivesAt, Shortens, StaysWithin};
ghost use Rattle.source_spec_lines.specs.Expressions.{inner_of, Whole, Inverted, Signed};
ghost use Rattle.source_spec_lines.specs.Expressions as reading;

use crate::items::{begins_item, parenthesised, with_item};
use crate::tokens::{
    begins_comparison, begins_join, begins_trailer, close_bracket, close_paren, comma, comparator,
    join,
};
use base_owners::Shared;
use base_types::{Exact, NoMemory, Seq, Text};
use py_syntax::{Expr, Items, Level, Lexeme, Spelled};
use source_combinators::{ReadError, Refusal, refused};
use std::alloc::Global;

/// A tree that is spelled as a target.
fn target(alloc: Global, tree: Expr) -> Result<Spelled, NoMemory>
    ensures { IfOk result (λ it. it ≡ record { tree = tree; is_target = true }) }
{
    Ok(Spelled {
        tree: Shared::new(alloc, tree)?,
        is_target: true,
    })
}

/// Any other tree.
fn other(alloc: Global, tree: Expr) -> Result<Spelled, NoMemory>
    ensures { IfOk result (λ it. it ≡ record { tree = tree; is_target = false }) }
{
    Ok(Spelled {
        tree: Shared::new(alloc, tree)?,
        is_target: false,
    })
}

/// An item and the comma behind it.
#[cycle(expr)]
#[tactic(auto, unfolding(source_spec_lines::specs::Expressions::item))]
fn item(
    alloc: Global,
    items: Items,
    tokens: &[Lexeme],
    room: usize,
) -> Result<(Items, &[Lexeme]), ReadError>
    ensures value { GivesAt (λ x. x) result (reading.item (reading.form room Whole) items tokens.now) }
    ensures shorter { Shortens tokens.now result }
{
    let (value, rest) = expr(alloc, tokens, room)?;
    let (is_open, rest) = comma(rest);
    Ok((with_item(items, value.tree, is_open)?, rest))
}

/// Items with commas between.
#[cycle(expr)]
#[tactic(auto, unfolding(source_spec_lines::specs::Expressions::all_items, source_combinators::specs::Many::many))]
fn all_items(alloc: Global, tokens: &[Lexeme], room: usize) -> Result<(Items, &[Lexeme]), ReadError>
    ensures value { GivesAt (λ x. x) result (reading.all_items (reading.form room Whole) tokens.now) }
    ensures within { StaysWithin tokens.now result }
{
    let mut items = Items {
        found: Seq::new(alloc),
        is_open: true,
    };
    let mut rest = tokens;
    'items: while begins_item(&items, rest) {
        let (next, after) = item(alloc, items, rest, room)?;
        items = next;
        rest = after;
    }
    Ok((items, rest))
}

/// What stands in parentheses, and the closing one.
#[cycle(expr)]
#[tactic(auto, unfolding(source_spec_lines::specs::Expressions::in_parens))]
fn in_parens(
    alloc: Global,
    tokens: &[Lexeme],
    room: usize,
) -> Result<(Spelled, &[Lexeme]), ReadError>
    ensures value { GivesAt (λ x. x) result (reading.in_parens (reading.form room Whole) tokens.now) }
    ensures shorter { Shortens tokens.now result }
{
    let (items, rest) = all_items(alloc, tokens, room)?;
    let rest = close_paren(rest)?;
    Ok((parenthesised(alloc, items)?, rest))
}

/// What stands in brackets, and the closing one.
#[cycle(expr)]
#[tactic(auto, unfolding(source_spec_lines::specs::Expressions::in_brackets))]
fn in_brackets(
    alloc: Global,
    tokens: &[Lexeme],
    room: usize,
) -> Result<(Spelled, &[Lexeme]), ReadError>
    ensures value { GivesAt (λ x. x) result (reading.in_brackets (reading.form room Whole) tokens.now) }
    ensures shorter { Shortens tokens.now result }
{
    let (items, rest) = all_items(alloc, tokens, room)?;
    let rest = close_bracket(rest)?;
    Ok((
        other(alloc, Expr::List(Shared::new(alloc, items.found)?))?,
        rest,
    ))
}

/// An atom (Language Reference 6.2).
#[cycle(expr)]
#[tactic(auto, unfolding(source_spec_lines::specs::Expressions::atom))]
fn atom(alloc: Global, tokens: &[Lexeme], room: usize) -> Result<(Spelled, &[Lexeme]), ReadError>
    ensures value { GivesAt (λ x. x) result (reading.atom (inner_of room) tokens.now) }
    ensures shorter { Shortens tokens.now result }
{
    match tokens {
        [Lexeme::Name(name), rest @ ..] => Ok((target(alloc, Expr::Name(name.copy()?))?, rest)),
        [Lexeme::Number(n), rest @ ..] => Ok((other(alloc, Expr::Number(*n))?, rest)),
        [Lexeme::Str(text), rest @ ..] => Ok((other(alloc, Expr::Str(text.copy()?))?, rest)),
        [Lexeme::None, rest @ ..] => Ok((other(alloc, Expr::Nothing)?, rest)),
        [Lexeme::True, rest @ ..] => Ok((other(alloc, Expr::True)?, rest)),
        [Lexeme::False, rest @ ..] => Ok((other(alloc, Expr::False)?, rest)),
        [Lexeme::OpenParen, rest @ ..] => {
            if room == 0 {
                return Err(refused(Refusal::TooDeep, tokens));
            }
            in_parens(alloc, rest, room - 1)
        }
        [Lexeme::OpenBracket, rest @ ..] => {
            if room == 0 {
                return Err(refused(Refusal::TooDeep, tokens));
            }
            in_brackets(alloc, rest, room - 1)
        }
        _ => Err(refused(Refusal::Syntax, tokens)),
    }
}

/// The name of an attribute.
#[tactic(auto, unfolding(source_spec_lines::specs::Expressions::after_dot))]
fn after_dot(
    alloc: Global,
    left: Shared<Expr>,
    tokens: &[Lexeme],
) -> Result<(Spelled, &[Lexeme]), ReadError>
    ensures value { GivesAt (λ x. x) result (reading.after_dot left tokens.now) }
    ensures shorter { Shortens tokens.now result }
{
    match tokens {
        [Lexeme::Name(name), rest @ ..] => {
            let name = name.copy()?;
            Ok((target(alloc, Expr::Attribute(left, name))?, rest))
        }
        _ => Err(refused(Refusal::Syntax, tokens)),
    }
}

/// The arguments of a call, and the closing parenthesis (6.3.4).
#[cycle(expr)]
#[tactic(auto, unfolding(source_spec_lines::specs::Expressions::call_with))]
fn call_with(
    alloc: Global,
    left: Shared<Expr>,
    tokens: &[Lexeme],
    room: usize,
) -> Result<(Spelled, &[Lexeme]), ReadError>
    ensures value { GivesAt (λ x. x) result (reading.call_with (reading.form room Whole) left tokens.now) }
    ensures shorter { Shortens tokens.now result }
{
    let (items, rest) = all_items(alloc, tokens, room)?;
    let rest = close_paren(rest)?;
    Ok((
        other(alloc, Expr::Call(left, Shared::new(alloc, items.found)?))?,
        rest,
    ))
}

/// The index of a subscription, and the closing bracket (6.3.2).
#[cycle(expr)]
#[tactic(auto, unfolding(source_spec_lines::specs::Expressions::subscript_with))]
fn subscript_with(
    alloc: Global,
    left: Shared<Expr>,
    tokens: &[Lexeme],
    room: usize,
) -> Result<(Spelled, &[Lexeme]), ReadError>
    ensures value { GivesAt (λ x. x) result (reading.subscript_with (reading.form room Whole) left tokens.now) }
    ensures shorter { Shortens tokens.now result }
{
    let (index, rest) = expr(alloc, tokens, room)?;
    let rest = close_bracket(rest)?;
    Ok((target(alloc, Expr::Subscript(left, index.tree))?, rest))
}

/// What follows an atom: a name, arguments or an index.
#[cycle(expr)]
#[tactic(auto, unfolding(source_spec_lines::specs::Expressions::trailer))]
fn trailer(
    alloc: Global,
    left: Spelled,
    tokens: &[Lexeme],
    room: usize,
) -> Result<(Spelled, &[Lexeme]), ReadError>
    ensures value { GivesAt (λ x. x) result (reading.trailer (inner_of room) left tokens.now) }
    ensures shorter { Shortens tokens.now result }
{
    match tokens {
        [Lexeme::Dot, rest @ ..] => after_dot(alloc, left.tree, rest),
        [Lexeme::OpenParen, rest @ ..] => {
            if room == 0 {
                return Err(refused(Refusal::TooDeep, tokens));
            }
            call_with(alloc, left.tree, rest, room - 1)
        }
        [Lexeme::OpenBracket, rest @ ..] => {
            if room == 0 {
                return Err(refused(Refusal::TooDeep, tokens));
            }
            subscript_with(alloc, left.tree, rest, room - 1)
        }
        _ => Err(refused(Refusal::Syntax, tokens)),
    }
}

/// A primary: an atom and what follows it (6.3).
#[cycle(expr)]
#[tactic(auto, unfolding(source_spec_lines::specs::Expressions::primary, source_combinators::specs::Many::many))]
pub fn primary(
    alloc: Global,
    tokens: &[Lexeme],
    room: usize,
) -> Result<(Spelled, &[Lexeme]), ReadError>
    ensures value { GivesAt (λ x. x) result (reading.primary (inner_of room) tokens.now) }
    ensures shorter { Shortens tokens.now result }
{
    let (mut left, mut rest) = atom(alloc, tokens, room)?;
    'trailers: while begins_trailer(rest) {
        let (next, after) = trailer(alloc, left, rest, room)?;
        left = next;
        rest = after;
    }
    Ok((left, rest))
}

/// A primary with its signs (6.6).
#[cycle(expr)]
#[tactic(auto, unfolding(source_spec_lines::specs::Expressions::factor), using(source_spec_lines::proofs::ExpressionComplete::by_inner))]
fn factor(alloc: Global, tokens: &[Lexeme], room: usize) -> Result<(Spelled, &[Lexeme]), ReadError>
    ensures value { GivesAt (λ x. x) result (reading.factor (inner_of room) tokens.now) }
    ensures shorter { Shortens tokens.now result }
{
    match tokens {
        [Lexeme::Minus, rest @ ..] => {
            if room == 0 {
                return Err(refused(Refusal::TooDeep, tokens));
            }
            let (value, rest) = factor(alloc, rest, room - 1)?;
            Ok((other(alloc, Expr::Negative(value.tree))?, rest))
        }
        _ => primary(alloc, tokens, room),
    }
}

/// An operator of a level and its right operand.
#[cycle(expr)]
#[tactic(auto, unfolding(source_spec_lines::specs::Expressions::joins))]
fn joins(
    alloc: Global,
    left: Spelled,
    tokens: &[Lexeme],
    room: usize,
    level: Level,
) -> Result<(Spelled, &[Lexeme]), ReadError>
    ensures value { GivesAt (λ x. x) result (reading.joins (reading.operand (inner_of room) level) left tokens.now) }
    ensures shorter { Shortens tokens.now result }
{
    match tokens {
        [operator, rest @ ..] => {
            let (right, rest) = operand(alloc, rest, room, level)?;
            Ok((
                Spelled {
                    tree: join(alloc, operator, left.tree, right.tree)?,
                    is_target: false,
                },
                rest,
            ))
        }
        [] => Err(refused(Refusal::Syntax, tokens)),
    }
}

/// Operands with operators of one level between, grouped to the left.
#[cycle(expr)]
#[tactic(auto, unfolding(source_spec_lines::specs::Expressions::chain, source_combinators::specs::Many::many))]
fn chain(
    alloc: Global,
    tokens: &[Lexeme],
    room: usize,
    level: Level,
) -> Result<(Spelled, &[Lexeme]), ReadError>
    ensures value { GivesAt (λ x. x) result (reading.chain level (reading.operand (inner_of room) level) tokens.now) }
    ensures shorter { Shortens tokens.now result }
{
    let (mut left, mut rest) = operand(alloc, tokens, room, level)?;
    'joins: while begins_join(level, rest) {
        let (next, after) = joins(alloc, left, rest, room, level)?;
        left = next;
        rest = after;
    }
    Ok((left, rest))
}

/// An operand of a level.
#[cycle(expr)]
fn operand(
    alloc: Global,
    tokens: &[Lexeme],
    room: usize,
    level: Level,
) -> Result<(Spelled, &[Lexeme]), ReadError>
    ensures value { GivesAt (λ x. x) result (reading.operand (inner_of room) level tokens.now) }
    ensures shorter { Shortens tokens.now result }
{
    match level {
        Level::Disjunction => chain(alloc, tokens, room, Level::Conjunction),
        Level::Conjunction => inversion(alloc, tokens, room),
        Level::Sum => chain(alloc, tokens, room, Level::Term),
        Level::Term => factor(alloc, tokens, room),
    }
}

/// A comparing operator and its right operand.
#[cycle(expr)]
#[tactic(auto, unfolding(source_spec_lines::specs::Expressions::compare_with))]
fn compare_with(
    alloc: Global,
    left: Spelled,
    tokens: &[Lexeme],
    room: usize,
) -> Result<(Spelled, &[Lexeme]), ReadError>
    ensures value { GivesAt (λ x. x) result (reading.compare_with (reading.sums (inner_of room)) left tokens.now) }
    ensures shorter { Shortens tokens.now result }
{
    let (comparison, rest) = comparator(tokens)?;
    let (right, rest) = chain(alloc, rest, room, Level::Sum)?;
    Ok((
        other(alloc, Expr::Compare(comparison, left.tree, right.tree))?,
        rest,
    ))
}

/// What a sum is compared with, if it is.
#[cycle(expr)]
#[tactic(auto, unfolding(source_spec_lines::specs::Expressions::compared))]
fn compared(
    alloc: Global,
    left: Spelled,
    tokens: &[Lexeme],
    room: usize,
) -> Result<(Spelled, &[Lexeme]), ReadError>
    ensures value { GivesAt (λ x. x) result (reading.compared (reading.sums (inner_of room)) left tokens.now) }
    ensures within { StaysWithin tokens.now result }
{
    if begins_comparison(tokens) {
        return compare_with(alloc, left, tokens, room);
    }
    Ok((left, tokens))
}

/// A sum, compared with another one or alone (6.10).
#[cycle(expr)]
#[tactic(auto, unfolding(source_spec_lines::specs::Expressions::comparison))]
fn comparison(
    alloc: Global,
    tokens: &[Lexeme],
    room: usize,
) -> Result<(Spelled, &[Lexeme]), ReadError>
    ensures value { GivesAt (λ x. x) result (reading.comparison (reading.sums (inner_of room)) tokens.now) }
    ensures shorter { Shortens tokens.now result }
{
    let (left, rest) = chain(alloc, tokens, room, Level::Sum)?;
    compared(alloc, left, rest, room)
}

/// A comparison with its `not`s (6.11).
#[cycle(expr)]
#[tactic(auto, unfolding(source_spec_lines::specs::Expressions::inversion), using(source_spec_lines::proofs::ExpressionComplete::by_inner))]
fn inversion(
    alloc: Global,
    tokens: &[Lexeme],
    room: usize,
) -> Result<(Spelled, &[Lexeme]), ReadError>
    ensures value { GivesAt (λ x. x) result (reading.inversion (inner_of room) tokens.now) }
    ensures shorter { Shortens tokens.now result }
{
    match tokens {
        [Lexeme::Not, rest @ ..] => {
            if room == 0 {
                return Err(refused(Refusal::TooDeep, tokens));
            }
            let (value, rest) = inversion(alloc, rest, room - 1)?;
            Ok((other(alloc, Expr::Not(value.tree))?, rest))
        }
        _ => comparison(alloc, tokens, room),
    }
}

/// An expression (chapter 6): the longest one that the tokens begin with, or the first token that none goes on with.
#[cycle(expr)]
#[tactic(auto, using(source_spec_lines::proofs::ExpressionComplete::by_inner))]
pub fn expr(
    alloc: Global,
    tokens: &[Lexeme],
    room: usize,
) -> Result<(Spelled, &[Lexeme]), ReadError>
    ensures value { GivesAt (λ x. x) result (reading.form room Whole tokens.now) }
    ensures shorter { Shortens tokens.now result }
{
    chain(alloc, tokens, room, Level::Disjunction)
}
