//! Expressions that stand alone, and assignments (Language Reference 7.1, 7.2).

ghost use Rattle.std.specs.Prelude.{◌≡◌, ◌<◌, ◌≤◌, length, IfOk, Some, true};
ghost use Rattle.source_combinators.specs.Outcome.{GivesAt, Shortens, StaysWithin};
ghost use Rattle.source_spec_lines.specs.Lines as reading;
ghost use Rattle.source_parse_lines.specs.Views.{augmented_at};

use base_owners::Shared;
use base_types::{Exact, NoMemory, Text};
use py_syntax::{BinaryOp, Expr, Lexeme, Spelled, Stmt};
use source_combinators::{ReadError, Refusal, refused};
use source_parse_expressions::expr;
use std::alloc::Global;

/// The name that an expression is, where it is spelled as one.
fn name_in(left: &Spelled) -> Result<Option<Text>, NoMemory>
    ensures { IfOk result (λ name. name ≡ reading.bare left.now) }
{
    if !left.is_target {
        return Ok(None);
    }
    match left.tree.get() {
        Expr::Name(name) => Ok(Some(name.copy()?)),
        _ => Ok(None),
    }
}

/// The same of an expression that is not needed any more.
fn bare(left: Spelled) -> Result<Option<Text>, NoMemory>
    ensures { IfOk result (λ name. name ≡ reading.bare left) }
{
    let name = name_in(&left);
    drop(left);
    name
}

/// What follows the operator of an augmented assignment.
#[tactic(auto, unfolding(source_spec_lines::specs::Lines::augmented_by))]
fn augmented_name(
    alloc: Global,
    name: Text,
    operator: BinaryOp,
    tokens: &[Lexeme],
    room: usize,
) -> Result<(Stmt, &[Lexeme]), ReadError>
    ensures value { (t : Lexeme) → GivesAt (λ x. x) result
        (reading.augmented_by room (Some name) operator t tokens.now) }
    ensures shorter { Shortens tokens.now result }
{
    let (value, rest) = expr(alloc, tokens, room)?;
    Ok((Stmt::Augment(name, operator, value.tree), rest))
}

/// The rest of an augmented assignment (7.2.1): its operator stands here, behind a name.
#[tactic(auto, unfolding(source_spec_lines::specs::Lines::augmented_by))]
fn augmented(
    alloc: Global,
    name: Option<Text>,
    operator: BinaryOp,
    tokens: &[Lexeme],
    room: usize,
) -> Result<(Stmt, &[Lexeme]), ReadError>
    ensures value { GivesAt (λ x. x) result (augmented_at room name operator tokens.now) }
    ensures shorter { Shortens tokens.now result }
{
    let Some(name) = name else {
        return Err(refused(Refusal::Syntax, tokens));
    };
    match tokens {
        [_, rest @ ..] => augmented_name(alloc, name, operator, rest, room),
        [] => Err(refused(Refusal::Syntax, tokens)),
    }
}

/// What follows `=`, behind a target.
#[tactic(auto, unfolding(source_spec_lines::specs::Lines::assigned_by))]
fn assigned(
    alloc: Global,
    left: Shared<Expr>,
    tokens: &[Lexeme],
    room: usize,
) -> Result<(Stmt, &[Lexeme]), ReadError>
    ensures value { GivesAt (λ x. x) result (reading.assigned_by room true left tokens.now) }
    ensures shorter { Shortens tokens.now result }
{
    let (value, rest) = expr(alloc, tokens, room)?;
    Ok((Stmt::Assign(left, value.tree), rest))
}

/// What follows the expression that a statement begins with.
#[tactic(auto, unfolding(source_spec_lines::specs::Lines::after_expr, source_spec_lines::specs::Lines::assigned_by))]
fn after_expr(
    alloc: Global,
    left: Spelled,
    tokens: &[Lexeme],
    room: usize,
) -> Result<(Stmt, &[Lexeme]), ReadError>
    ensures value { GivesAt (λ x. x) result (reading.after_expr room left tokens.now) }
    ensures within { StaysWithin tokens.now result }
{
    match tokens {
        [Lexeme::Assign, rest @ ..] => {
            if !left.is_target {
                return Err(refused(Refusal::Syntax, tokens));
            }
            assigned(alloc, left.tree, rest, room)
        }
        [Lexeme::PlusEq, ..] => augmented(alloc, bare(left)?, BinaryOp::Add, tokens, room),
        [Lexeme::MinusEq, ..] => augmented(alloc, bare(left)?, BinaryOp::Sub, tokens, room),
        [Lexeme::StarEq, ..] => augmented(alloc, bare(left)?, BinaryOp::Mul, tokens, room),
        [Lexeme::SlashSlashEq, ..] => augmented(
            alloc,
            bare(left)?,
            BinaryOp::FloorDiv,
            tokens,
            room,
        ),
        [Lexeme::PercentEq, ..] => augmented(alloc, bare(left)?, BinaryOp::Mod, tokens, room),
        _ => Ok((Stmt::Evaluate(left.tree), tokens)),
    }
}

/// A statement that begins with an expression.
#[tactic(auto, unfolding(source_spec_lines::specs::Lines::expr_first))]
pub fn expr_first(
    alloc: Global,
    tokens: &[Lexeme],
    room: usize,
) -> Result<(Stmt, &[Lexeme]), ReadError>
    ensures value { GivesAt (λ x. x) result (reading.expr_first room tokens.now) }
    ensures shorter { Shortens tokens.now result }
{
    let (left, rest) = expr(alloc, tokens, room)?;
    after_expr(alloc, left, rest, room)
}
