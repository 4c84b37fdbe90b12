//! Expressions.
ghost use Rattle.std.specs.Prelude.{◌≡◌, IfSome};
ghost use Rattle.py_syntax.specs.declared.expr.Expr.{out-Expr};
ghost use Rattle.py_frames.specs.declared.work.Item.TheVariants as items;
ghost use Rattle.step_straight.specs.Comes.{Comes};
ghost use Rattle.drive_straight.specs.Remains.{Leads, begins, is_attribute, is_operated};

use crate::coming::come;
use crate::execution::Execution;
use crate::gathering::gather;
use crate::names::ask;
use crate::next::Next;
use crate::paying::afford;
use base_owners::{Boxed, Shared};
use base_types::{NoMemory, Seq};
use py_frames::Item;
use py_syntax::Expr;
use std::alloc::Global;
use step_straight::{Priced, at_once};

fn is_attribute(expr: &Expr) -> bool
    ensures { result ≡ is_attribute (out-Expr expr.now) }
{
    match expr {
        Expr::Attribute(_, _) => true,
        _ => false,
    }
}

/// Whether an expression begins with its first operand. A call of an attribute begins with the object of that, and
/// `and` and `or` may leave out an operand.
fn is_operated(expr: &Expr) -> bool
    ensures { result ≡ is_operated (out-Expr expr.now) }
{
    match expr {
        Expr::Call(callee, _) => !is_attribute(callee.get()),
        Expr::Tuple(_) | Expr::List(_) | Expr::Attribute(_, _) | Expr::Subscript(_, _) => true,
        Expr::Negative(_) | Expr::Not(_) | Expr::Binary(_, _, _) | Expr::Compare(_, _, _) => true,
        _ => false,
    }
}

/// An expression that has no value at once: its operands come, or the name is asked for.
fn begin(alloc: Global, execution: &mut Execution, expr: Shared<Expr>) -> Result<Next, NoMemory>
    ensures moves { Leads execution.old (begins (items.Eval expr)) execution.new result }
    ensures held { execution.new.held ≡ execution.old.held }
{
    if is_operated(expr.get()) {
        return gather(alloc, execution, expr, Seq::new(alloc));
    }
    ask(alloc, execution, expr)
}

/// An expression, of which it was found what it comes to at once, if it comes to anything.
pub fn take(
    alloc: Global,
    execution: &mut Execution,
    expr: Shared<Expr>,
    found: Option<Priced>,
) -> Result<Next, NoMemory>
    requires found { IfSome found (λ priced. Comes expr execution.old.thread priced) }
    ensures moves { Leads execution.old (begins (items.Eval expr)) execution.new result }
    ensures held { execution.new.held ≡ execution.old.held }
{
    match found {
        None => begin(alloc, execution, expr),
        Some(Priced { given, units }) => {
            if !afford(&mut execution.budget, units) {
                return Ok(Next::Piece(Boxed::new(alloc, Item::Eval(expr))?));
            }
            come(alloc, execution, expr, given)
        }
    }
}

/// An expression, at once if it can be.
pub fn evaluate(
    alloc: Global,
    execution: &mut Execution,
    expr: Shared<Expr>,
) -> Result<Next, NoMemory>
    ensures moves { Leads execution.old (begins (items.Eval expr)) execution.new result }
    ensures held { execution.new.held ≡ execution.old.held }
{
    let found = at_once(alloc, &execution.thread, &expr)?;
    take(alloc, execution, expr, found)
}
