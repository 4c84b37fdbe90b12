//! Operators on two operands (Language Reference 6.7 and 6.10).
ghost use Rattle.std.specs.Prelude.{◌≡◌, IfOk, IfSome, [], ◌∷◌};
ghost use Rattle.py_syntax.specs.declared.expr.Expr.{out-Expr};
ghost use Rattle.py_syntax.specs.declared.expr.Expr.TheOpen.{Expr-F};
ghost use Rattle.step_straight.specs.Comes.{BothCome, Comes, IsOfTwo, Prices};
ghost use Rattle.step_straight.specs.declared.given.Given.TheVariants as givens;

use crate::atoms::atom;
use crate::given::{Given, Priced};
use base_owners::Shared;
use base_types::{NoMemory, Seq};
use meaning_state::Thread;
use py_frames::is_listed;
use py_syntax::{BinaryOp, Comparison, Expr};
use py_value::{Applied, Value, size};
use std::alloc::Global;
use step_expressions::{compared, operator_of};
use value_operators::binary;

/// What the two operands of an operator come to.
#[derive(Drop)]
pub enum Both {
    /// Their values, and what is paid for them.
    Values(Value, Value, u64),
    /// One is not at hand.
    Waits(Priced),
    /// They are to be taken piece by piece.
    Later,
}

/// The right operand is waited for, behind the value of the left one.
pub fn wait(alloc: Global, left: Value, right: &Shared<Expr>) -> Result<Given, NoMemory>
    ensures { IfOk result (λ given. given ≡ givens.Waits right.now (left ∷ [])) }
{
    let mut done = Seq::new(alloc);
    done.push(left)?;
    Ok(Given::Waits(right.share()?, done))
}

/// The operands of an expression, from left to right.
#[tactic(auto, using(crate::proofs::OperatorCosts::waits_left, crate::proofs::OperatorCosts::waits_right))]
fn gather(
    alloc: Global,
    thread: &Thread,
    expr: &Shared<Expr>,
    a: &Shared<Expr>,
    b: &Shared<Expr>,
) -> Result<Both, NoMemory>
    requires two { IsOfTwo expr.now a.now b.now }
    ensures { IfOk result (λ both. BothCome expr.now thread.now both) }
{
    let _ = expr;
    let x = match atom(alloc, thread, a.get())? {
        None => {
            let given = Given::Waits(a.share()?, Seq::new(alloc));
            return Ok(Both::Waits(Priced { given, units: 0 }));
        }
        Some(x) => x,
    };
    let y = match atom(alloc, thread, b.get())? {
        None => {
            let units = x.units;
            let given = wait(alloc, x.value, b)?;
            return Ok(Both::Waits(Priced { given, units }));
        }
        Some(y) => y,
    };
    if is_listed(&x.value) || is_listed(&y.value) {
        drop(x);
        drop(y);
        return Ok(Both::Later);
    }
    match x.units.checked_add(y.units) {
        None => {
            drop(x);
            drop(y);
            Ok(Both::Later)
        }
        Some(units) => Ok(Both::Values(x.value, y.value, units)),
    }
}

/// What an operator gave behind so many units, with its own unit and the size of its value. None where the sum does not
/// fit.
pub fn price(applied: Applied, before: u64) -> Option<Priced>
    ensures { IfSome result (λ priced. Prices applied before priced) }
{
    let units = before.checked_add(1)?;
    match applied {
        Applied::Value(value) => {
            let units = units.checked_add(size(&value))?;
            Some(Priced {
                given: Given::Value(value),
                units,
            })
        }
        Applied::Raised(error) => Some(Priced {
            given: Given::Raised(error),
            units,
        }),
    }
}

/// `a op b`. None where it is to be done piece by piece.
#[tactic(auto, using(crate::proofs::OperatorCosts::two_of_binary))]
pub fn operation(
    alloc: Global,
    thread: &Thread,
    expr: &Shared<Expr>,
    op: BinaryOp,
    a: &Shared<Expr>,
    b: &Shared<Expr>,
) -> Result<Option<Priced>, NoMemory>
    requires form { out-Expr expr.now ≡ Expr-F.Binary op a.now b.now }
    ensures { IfOk result (λ found. IfSome found (λ priced. Comes expr.now thread.now priced)) }
{
    match gather(alloc, thread, expr, a, b)? {
        Both::Values(x, y, units) => Ok(price(binary(alloc, operator_of(op), &x, &y)?, units)),
        Both::Waits(priced) => Ok(Some(priced)),
        Both::Later => Ok(None),
    }
}

/// A comparison. None where it is to be done piece by piece.
#[tactic(auto, using(crate::proofs::OperatorCosts::two_of_compare))]
pub fn comparison(
    alloc: Global,
    thread: &Thread,
    expr: &Shared<Expr>,
    op: Comparison,
    a: &Shared<Expr>,
    b: &Shared<Expr>,
) -> Result<Option<Priced>, NoMemory>
    requires form { out-Expr expr.now ≡ Expr-F.Compare op a.now b.now }
    ensures { IfOk result (λ found. IfSome found (λ priced. Comes expr.now thread.now priced)) }
{
    match gather(alloc, thread, expr, a, b)? {
        Both::Values(x, y, units) => Ok(price(compared(alloc, op, &x, &y)?, units)),
        Both::Waits(priced) => Ok(Some(priced)),
        Both::Later => Ok(None),
    }
}
