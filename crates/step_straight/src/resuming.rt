//! Operators on two operands, one or both of which have come.
ghost use Rattle.std.specs.Prelude.{◌≡◌, IfOk, IfSome, [], ◌∷◌};
ghost use Rattle.step_straight.specs.Comes.{IsRightOf, Resumes, RightComes};

use crate::atoms::{Bought, atom};
use crate::given::{Given, Priced};
use crate::operators::{price, wait};
use base_owners::Shared;
use base_types::{Exact, NoMemory};
use meaning_state::Thread;
use py_frames::is_listed;
use py_syntax::Expr;
use py_value::Value;
use std::alloc::Global;
use step_expressions::{compared, operator_of};
use value_operators::binary;

/// What the right operand comes to.
#[derive(Drop)]
pub enum Right {
    /// Its value, and what is paid for it.
    Value(Bought),
    /// It is not at hand.
    Waits(Priced),
    /// It is to be taken piece by piece.
    Later,
}

/// The right operand, behind the value of the left one.
fn take_right(
    alloc: Global,
    thread: &Thread,
    expr: &Shared<Expr>,
    left: &Value,
    right: &Shared<Expr>,
) -> Result<Right, NoMemory>
    requires two { IsRightOf expr.now right.now }
    ensures { IfOk result (λ right. RightComes expr.now thread.now left.now right) }
{
    let _ = expr;
    match atom(alloc, thread, right.get())? {
        None => {
            let given = wait(alloc, left.copy()?, right)?;
            Ok(Right::Waits(Priced { given, units: 0 }))
        }
        Some(bought) => {
            if is_listed(left) || is_listed(&bought.value) {
                drop(bought);
                return Ok(Right::Later);
            }
            Ok(Right::Value(bought))
        }
    }
}

/// An operator whose left operand has come. None where it is to be done piece by piece.
pub fn with_left(
    alloc: Global,
    thread: &Thread,
    expr: &Shared<Expr>,
    left: &Value,
) -> Result<Option<Priced>, NoMemory>
    ensures { IfOk result (λ found. IfSome found (λ priced. Resumes expr.now [] left.now thread.now priced)) }
{
    match expr.get() {
        Expr::Binary(op, _, right) => match take_right(alloc, thread, expr, left, right)? {
            Right::Value(right) => {
                let applied = binary(alloc, operator_of(*op), left, &right.value)?;
                Ok(price(applied, right.units))
            }
            Right::Waits(priced) => Ok(Some(priced)),
            Right::Later => Ok(None),
        },
        Expr::Compare(op, _, right) => match take_right(alloc, thread, expr, left, right)? {
            Right::Value(right) => {
                let applied = compared(alloc, *op, left, &right.value)?;
                Ok(price(applied, right.units))
            }
            Right::Waits(priced) => Ok(Some(priced)),
            Right::Later => Ok(None),
        },
        _ => Ok(None),
    }
}

/// An operator both of whose operands have come. None where it is to be done piece by piece.
pub fn with_right(
    alloc: Global,
    thread: &Thread,
    expr: &Shared<Expr>,
    left: &Value,
    right: &Value,
) -> Result<Option<Priced>, NoMemory>
    ensures { IfOk result (λ found. IfSome found (λ priced.
        Resumes expr.now (left.now ∷ []) right.now thread.now priced)) }
{
    let _ = thread;
    if is_listed(left) || is_listed(right) {
        return Ok(None);
    }
    match expr.get() {
        Expr::Binary(op, _, _) => Ok(price(binary(alloc, operator_of(*op), left, right)?, 0)),
        Expr::Compare(op, _, _) => Ok(price(compared(alloc, *op, left, right)?, 0)),
        _ => Ok(None),
    }
}
