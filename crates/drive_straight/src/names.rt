//! Names of the module.
ghost use Rattle.std.specs.Prelude.{◌≡◌};
ghost use Rattle.py_frames.specs.declared.work.Item.TheVariants as items;
ghost use Rattle.drive_straight.specs.Remains.{Leads, begins};

use crate::execution::Execution;
use crate::next::Next;
use crate::paying::afford;
use base_owners::{Boxed, Shared};
use base_types::{Exact, NoMemory};
use py_frames::{Frame, Item};
use py_syntax::Expr;
use std::alloc::Global;
use step_simple::is_local_name;

/// An expression that has no value at once. A name that is not local is read of the module, and its unit is paid.
pub fn ask(alloc: Global, execution: &mut Execution, expr: Shared<Expr>) -> Result<Next, NoMemory>
    ensures moves { Leads execution.old (begins (items.Eval expr)) execution.new result }
    ensures held { execution.new.held ≡ execution.old.held }
{
    let name = match expr.get() {
        Expr::Name(name) => name.copy()?,
        _ => return Ok(Next::Piece(Boxed::new(alloc, Item::Eval(expr))?)),
    };
    if is_local_name(&execution.thread, &name) {
        return Ok(Next::Piece(Boxed::new(alloc, Item::Eval(expr))?));
    }
    if !afford(&mut execution.budget, 1) {
        return Ok(Next::Piece(Boxed::new(alloc, Item::Eval(expr))?));
    }
    execution.work.push(Frame::Sized)?;
    Ok(Next::ReadGlobal(name))
}

/// An operand that has no value at once: a name is asked for now, and any other expression begins next.
pub fn reach(
    alloc: Global,
    execution: &mut Execution,
    operand: Shared<Expr>,
) -> Result<Next, NoMemory>
    ensures moves { Leads execution.old (begins (items.Eval operand)) execution.new result }
    ensures held { execution.new.held ≡ execution.old.held }
{
    match operand.get() {
        Expr::Name(_) => ask(alloc, execution, operand),
        _ => Ok(Next::Evaluate(operand)),
    }
}
