//! What waits for a way on, where that comes at once.
ghost use Rattle.std.specs.Prelude.{◌≡◌, IfOk, IfSome};
ghost use Rattle.meaning_state.specs.declared.flow.Flow.TheVariants.{Went};
ghost use Rattle.py_frames.specs.declared.work.Form.TheVariants.{Expression};
ghost use Rattle.py_frames.specs.declared.work.Frame.TheVariants as frames;
ghost use Rattle.drive_straight.specs.Remains.{Leads, gives, goes_on};
ghost use Rattle.step_straight.specs.Comes.{Resumes};

use crate::blocks::block;
use crate::coming::{come, give, resume_statement};
use crate::execution::Execution;
use crate::gathering::gather;
use crate::loops::turn;
use crate::next::Next;
use crate::paying::afford;
use base_owners::{Boxed, Shared};
use base_types::{NoMemory, Seq};
use meaning_state::Flow;
use py_frames::{Form, Frame};
use py_syntax::{Expr, Stmt};
use py_value::{Value, size};
use std::alloc::Global;
use step_straight::{Priced, with_left, with_right};

/// A statement of a block came to its end: the next ones follow.
pub fn resume_block(
    alloc: Global,
    execution: &mut Execution,
    stmts: Shared<Seq<Stmt>>,
    at: usize,
    value: Value,
) -> Result<Next, NoMemory>
    ensures moves { Leads execution.old (goes_on (frames.Block stmts at) (Went value)) execution.new result }
    ensures held { execution.new.held ≡ execution.old.held }
{
    drop(value);
    block(alloc, execution, stmts, at)
}

/// The block of a loop came to its end: the next turn follows.
pub fn resume_loop(
    alloc: Global,
    execution: &mut Execution,
    test: Shared<Expr>,
    body: Shared<Seq<Stmt>>,
    turns: u64,
    value: Value,
) -> Result<Next, NoMemory>
    ensures moves { Leads execution.old (goes_on (frames.Loop test body turns) (Went value)) execution.new result }
    ensures held { execution.new.held ≡ execution.old.held }
{
    drop(value);
    turn(alloc, execution, test, body, turns)
}

/// What an operator on two operands comes to, where the value of one is here and the others were gathered before. None
/// where it is to be done piece by piece.
fn operator(
    alloc: Global,
    execution: &Execution,
    expr: &Shared<Expr>,
    done: &Seq<Value>,
    value: &Value,
) -> Result<Option<Priced>, NoMemory>
    ensures { IfOk result (λ found. IfSome found (λ priced.
        Resumes expr.now done.now value.now execution.now.thread priced)) }
{
    match done.get(0) {
        None => with_left(alloc, &execution.thread, expr, value),
        Some(left) => {
            if done.len() != 1 {
                return Ok(None);
            }
            with_right(alloc, &execution.thread, expr, left, value)
        }
    }
}

/// The value of an operand of an expression came: an operator on two operands follows at once, if it can.
fn resume_expression(
    alloc: Global,
    execution: &mut Execution,
    expr: Shared<Expr>,
    done: Seq<Value>,
    value: Value,
) -> Result<Next, NoMemory>
    ensures moves { Leads execution.old (goes_on (frames.Operands (Expression expr) done) (Went value))
        execution.new result }
    ensures held { execution.new.held ≡ execution.old.held }
{
    match operator(alloc, execution, &expr, &done, &value)? {
        None => {
            let mut values = done;
            values.push(value)?;
            gather(alloc, execution, expr, values)
        }
        Some(Priced { given, units }) => {
            if !afford(&mut execution.budget, units) {
                let form = Form::Expression(expr);
                return Ok(Next::Frame(Boxed::new(
                    alloc,
                    (Frame::Operands { form, done }, Flow::Went(value)),
                )?));
            }
            drop(value);
            drop(done);
            come(alloc, execution, expr, given)
        }
    }
}

/// The value of an operand came.
pub fn resume_operand(
    alloc: Global,
    execution: &mut Execution,
    form: Form,
    done: Seq<Value>,
    value: Value,
) -> Result<Next, NoMemory>
    ensures moves { Leads execution.old (goes_on (frames.Operands form done) (Went value)) execution.new result }
    ensures held { execution.new.held ≡ execution.old.held }
{
    match form {
        Form::Expression(expr) => resume_expression(alloc, execution, expr, done, value),
        Form::Statement(stmts, at) => resume_statement(alloc, execution, stmts, at, done, value),
        form => Ok(Next::Frame(Boxed::new(
            alloc,
            (Frame::Operands { form, done }, Flow::Went(value)),
        )?)),
    }
}

/// A value comes to what waits for it: an operand of an expression, or what a statement or a test waits for.
fn give_operand(alloc: Global, execution: &mut Execution, value: Value) -> Result<Next, NoMemory>
    ensures moves { Leads execution.old (gives value) execution.new result }
    ensures held { execution.new.held ≡ execution.old.held }
{
    match execution.work.pop() {
        None => Ok(Next::Went(value)),
        Some(Frame::Operands { form, done }) => resume_operand(alloc, execution, form, done, value),
        Some(frame) => {
            execution.work.push(frame)?;
            give(alloc, execution, value)
        }
    }
}

/// The size of a value is paid.
pub fn resume_sized(
    alloc: Global,
    execution: &mut Execution,
    value: Value,
) -> Result<Next, NoMemory>
    ensures moves { Leads execution.old (goes_on frames.Sized (Went value)) execution.new result }
    ensures held { execution.new.held ≡ execution.old.held }
{
    if !afford(&mut execution.budget, size(&value)) {
        return Ok(Next::Frame(Boxed::new(alloc, (Frame::Sized, Flow::Went(value)))?));
    }
    give_operand(alloc, execution, value)
}
