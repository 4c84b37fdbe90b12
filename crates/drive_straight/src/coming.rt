//! Values that come to what waits for them.
ghost use Rattle.std.specs.Prelude.{◌≡◌, IfOk, slice_get};
ghost use Rattle.meaning_state.specs.declared.flow.Flow.TheVariants.{Went};
ghost use Rattle.py_frames.specs.declared.work.Form.TheVariants.{Statement};
ghost use Rattle.py_frames.specs.declared.work.Frame.TheVariants as frames;
ghost use Rattle.drive_straight.specs.Remains.{Leads, comes, gives, goes_on, use_at};

use crate::deciding::{decide, pick};
use crate::execution::Execution;
use crate::names::reach;
use crate::next::Next;
use base_owners::{Boxed, Shared};
use base_types::{Exact, NoMemory, Seq, Text};
use meaning_state::{Flow, Leave};
use py_frames::{Form, Frame, Item};
use py_syntax::{Expr, Stmt};
use py_value::Value;
use std::alloc::Global;
use step_straight::Given;

/// What a statement does with the value of its only operand.
#[derive(Drop)]
pub enum Use {
    /// It binds the value to a name.
    Bind(Text),
    /// It lets the value go.
    Discard,
    /// It returns the value.
    Return,
    /// It raises the value.
    Raise,
    /// Something else, or it has more operands.
    Other,
}

/// What a statement does with the value of its only operand.
fn use_at(stmts: &Seq<Stmt>, at: usize) -> Result<Use, NoMemory>
    ensures { IfOk result (λ it. it ≡ use_at (slice_get stmts.now at)) }
{
    match stmts.get(at) {
        Some(Stmt::Assign(target, _)) => match target.get() {
            Expr::Name(name) => Ok(Use::Bind(name.copy()?)),
            _ => Ok(Use::Other),
        },
        Some(Stmt::Evaluate(_)) => Ok(Use::Discard),
        Some(Stmt::Return(_)) => Ok(Use::Return),
        Some(Stmt::Raise(_)) => Ok(Use::Raise),
        _ => Ok(Use::Other),
    }
}

/// The value of an operand of a statement came: the statement is done, if that is all that it needs.
pub fn resume_statement(
    alloc: Global,
    execution: &mut Execution,
    stmts: Shared<Seq<Stmt>>,
    at: usize,
    done: Seq<Value>,
    value: Value,
) -> Result<Next, NoMemory>
    ensures moves { Leads execution.old (goes_on (frames.Operands (Statement stmts at) done) (Went value))
        execution.new result }
    ensures held { execution.new.held ≡ execution.old.held }
{
    if !done.is_empty() {
        let form = Form::Statement(stmts, at);
        return Ok(Next::Frame(Boxed::new(
            alloc,
            (Frame::Operands { form, done }, Flow::Went(value)),
        )?));
    }
    match use_at(stmts.get(), at)? {
        Use::Bind(name) => Ok(Next::Store(name, value)),
        Use::Discard => {
            drop(value);
            Ok(Next::Went(Value::Nothing))
        }
        Use::Return => Ok(Next::Left(Leave::Return(value))),
        Use::Raise => {
            let mut values = done;
            values.push(value)?;
            Ok(Next::Piece(Boxed::new(alloc, Item::Perform { stmts, at, values })?))
        }
        Use::Other => {
            let form = Form::Statement(stmts, at);
            Ok(Next::Frame(Boxed::new(alloc, (Frame::Operands { form, done }, Flow::Went(value)))?))
        }
    }
}

/// A value comes to what waits for it: a statement, or a test.
pub fn give(alloc: Global, execution: &mut Execution, value: Value) -> Result<Next, NoMemory>
    ensures moves { Leads execution.old (gives value) execution.new result }
    ensures held { execution.new.held ≡ execution.old.held }
{
    match execution.work.pop() {
        None => Ok(Next::Went(value)),
        Some(Frame::Operands { form, done }) => match form {
            Form::Statement(stmts, at) => resume_statement(
                alloc, execution, stmts, at, done, value,
            ),
            form => {
                execution.work.push(Frame::Operands { form, done })?;
                Ok(Next::Went(value))
            }
        },
        Some(Frame::Decide { test, body, turns }) => decide(
            alloc, execution, test, body, turns, value,
        ),
        Some(
            Frame::Test {
                branches,
                at,
                otherwise,
            },
        ) => pick(alloc, execution, branches, at, otherwise, value),
        Some(frame) => {
            execution.work.push(frame)?;
            Ok(Next::Went(value))
        }
    }
}

/// What an expression came to comes to what waits for it.
pub fn come(
    alloc: Global,
    execution: &mut Execution,
    expr: Shared<Expr>,
    given: Given,
) -> Result<Next, NoMemory>
    ensures moves { Leads execution.old (comes expr given) execution.new result }
    ensures held { execution.new.held ≡ execution.old.held }
{
    match given {
        Given::Value(value) => give(alloc, execution, value),
        Given::Raised(error) => Ok(Next::Left(Leave::Raised(error))),
        Given::Waits(operand, done) => {
            let form = Form::Expression(expr);
            execution.work.push(Frame::Operands { form, done })?;
            reach(alloc, execution, operand)
        }
    }
}
