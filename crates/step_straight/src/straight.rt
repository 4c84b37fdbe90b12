//! An expression.
ghost use Rattle.std.specs.Prelude.{◌≡◌, IfOk, IfSome};
ghost use Rattle.step_straight.specs.Comes.{Comes};

use crate::atoms::{Bought, atom};
use crate::given::{Given, Priced};
use crate::operators::{comparison, operation};
use base_owners::Shared;
use base_types::NoMemory;
use meaning_state::Thread;
use py_syntax::Expr;
use std::alloc::Global;

/// What an expression comes to without an event. None where it is to be done piece by piece: where an operand is
/// neither a literal nor a local variable that is set, where a list comes in place of one, and where the units do not
/// fit 64 bits.
pub fn at_once(
    alloc: Global,
    thread: &Thread,
    expr: &Shared<Expr>,
) -> Result<Option<Priced>, NoMemory>
    ensures { IfOk result (λ found. IfSome found (λ priced. Comes expr.now thread.now priced)) }
{
    match expr.get() {
        Expr::Binary(op, a, b) => operation(alloc, thread, expr, *op, a, b),
        Expr::Compare(op, a, b) => comparison(alloc, thread, expr, *op, a, b),
        other => match atom(alloc, thread, other)? {
            None => Ok(None),
            Some(Bought { value, units }) => Ok(Some(Priced {
                given: Given::Value(value),
                units,
            })),
        },
    }
}
