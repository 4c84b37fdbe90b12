//! Expressions in terms of the grammar alone.

ghost use Rattle.std.specs.Prelude.{◌≡◌, ◌<◌, ◌++◌, List, IfOk, Err};
ghost use Rattle.source_combinators.specs.declared.fault.Fault.{Fault};
ghost use Rattle.source_combinators.specs.declared.fault.ReadError.TheVariants.{Refused};
ghost use Rattle.source_combinators.specs.Reading.{given, head_of};
ghost use Rattle.source_combinators.specs.Outcome.{GivesAt};
ghost use Rattle.source_combinators.specs.Refusals.{IsFront, IsFirstRefused};
ghost use Rattle.py_syntax.specs.declared.lexeme.Lexeme.{Lexeme};
ghost use Rattle.py_syntax.specs.declared.expr.Spelled.{Spelled};
ghost use Rattle.py_syntax.specs.Expressions.{IsExpr};
ghost use Rattle.source_spec_lines.specs.Expressions as reading;

use crate::parser::expr;
use py_syntax::{Lexeme, Spelled};
use source_combinators::ReadError;
use std::alloc::Global;

/// The expression that the tokens begin with (Language Reference chapter 6, a subset), with at most `room` levels open,
/// and the tokens after it. It is the longest one, and where there is none, the refusal names the first token that no
/// expression's tokens have after the tokens before it. Want of memory may stand in place of any answer. The work is
/// linear in the tokens that are read.
pub fn expression(
    alloc: Global,
    tokens: &[Lexeme],
    room: usize,
) -> Result<(Spelled, &[Lexeme]), ReadError>
    // What is read is spelled by the tokens before those that are left.
    ensures spelled { IfOk result (λ p. IsFront IsExpr room tokens.now p.0 p.1.now) }
    // What is spelled so is read, where the token behind it does not go on with an expression.
    ensures only { (front rest : List Lexeme) (value : Spelled) → tokens.now ≡ front ++ rest → IsExpr room front value
        → reading.strength (head_of rest) < 1 → GivesAt (λ x. x) result (given value rest) }
    // The refused token is the first one that no expression has after the tokens before it.
    ensures refused { (fault : Fault) → result ≡ Err (Refused fault) → IsFirstRefused IsExpr room tokens.now fault }
{
    expr(alloc, tokens, room)
}
