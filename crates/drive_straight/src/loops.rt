//! Turns of a loop (Language Reference 8.2).
ghost use Rattle.std.specs.Prelude.{◌≡◌, ◌<◌, IfSome};
ghost use Rattle.py_frames.specs.declared.work.Item.TheVariants as items;
ghost use Rattle.step_straight.specs.Comes.{Comes};
ghost use Rattle.drive_straight.specs.Remains.{Leads, begins};

use crate::blocks::{Operand, block, value_in_statement};
use crate::execution::Execution;
use crate::expressions::take;
use crate::next::Next;
use crate::paying::afford;
use base_owners::{Boxed, Shared};
use base_types::{NoMemory, Seq};
use py_frames::{Frame, Item, is_listed};
use py_syntax::{Expr, Stmt};
use py_value::{Value, truth};
use std::alloc::Global;
use step_straight::Priced;

/// A turn whose test has no value at once: its unit is paid, and then the test comes, of which it was found what it
/// comes to at once, if it comes to anything.
fn begin_test(
    alloc: Global,
    execution: &mut Execution,
    test: Shared<Expr>,
    body: Shared<Seq<Stmt>>,
    turns: u64,
    found: Option<Priced>,
) -> Result<Next, NoMemory>
    requires some { 0 < turns }
    requires found { IfSome found (λ priced. Comes test execution.old.thread priced) }
    ensures moves { Leads execution.old (begins (items.Turn test body turns)) execution.new result }
    ensures held { execution.new.held ≡ execution.old.held }
{
    if !afford(&mut execution.budget, 1) {
        return Ok(Next::Piece(Boxed::new(alloc, Item::Turn { test, body, turns })?));
    }
    let expr = test.share()?;
    let turns = turns - 1;
    execution.work.push(Frame::Decide { test, body, turns })?;
    take(alloc, execution, expr, found)
}

/// A turn of a loop that can take so many: its test, and then its block, at once if they can be.
pub fn turn(
    alloc: Global,
    execution: &mut Execution,
    test: Shared<Expr>,
    body: Shared<Seq<Stmt>>,
    turns: u64,
) -> Result<Next, NoMemory>
    ensures moves { Leads execution.old (begins (items.Turn test body turns)) execution.new result }
    ensures held { execution.new.held ≡ execution.old.held }
{
    if turns == 0 {
        return Ok(Next::Piece(Boxed::new(alloc, Item::Turn { test, body, turns })?));
    }
    match value_in_statement(alloc, execution, &test)? {
        Operand::Other(found) => begin_test(alloc, execution, test, body, turns, found),
        Operand::Value(value, units) => {
            let is_list = is_listed(&value);
            let holds = truth(&value);
            drop(value);
            if is_list {
                return Ok(Next::Piece(Boxed::new(alloc, Item::Turn { test, body, turns })?));
            }
            if !afford(&mut execution.budget, units) {
                return Ok(Next::Piece(Boxed::new(alloc, Item::Turn { test, body, turns })?));
            }
            if !holds {
                return Ok(Next::Went(Value::Nothing));
            }
            let stmts = body.share()?;
            let turns = turns - 1;
            execution.work.push(Frame::Loop { test, body, turns })?;
            block(alloc, execution, stmts, 0)
        }
    }
}
