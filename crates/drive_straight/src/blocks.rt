//! Statements of a block.
ghost use Rattle.std.specs.Prelude.{◌≡◌, ◌<◌, IfOk, IfSome, Some, length, slice_get};
ghost use Rattle.std.specs.Option.{option_copied};
ghost use Rattle.py_syntax.specs.declared.stmt.Stmt.{out-Stmt};
ghost use Rattle.py_frames.specs.declared.work.Item.TheVariants as items;
ghost use Rattle.drive_straight.specs.Remains.{Assigns, Did, IsOperand, Leads, Returns, begins};
ghost use Rattle.drive_straight.specs.Remains.{first_operand, operand_at, returned_at, returned_of};

use crate::choices::begin_other;
use crate::execution::Execution;
use crate::expressions::evaluate;
use crate::next::Next;
use crate::paying::afford;
use base_owners::{Boxed, Shared};
use base_types::{Exact, NoMemory, Seq, Text};
use meaning_state::Leave;
use py_frames::{Form, Frame, Item};
use py_syntax::{Expr, Stmt};
use py_value::Value;
use std::alloc::Global;
use step_simple::{is_local_name, set_local};
use step_straight::{Given, Priced, at_once};

/// What the expression of a statement comes to at once.
#[derive(Drop)]
pub enum Operand {
    /// Its value, and the units of the statement: its own and those of the expression.
    Value(Value, u64),
    /// What else it comes to, if it comes to anything, with the units of the expression alone.
    Other(Option<Priced>),
}

/// What the expression of a statement comes to at once.
pub fn value_in_statement(
    alloc: Global,
    execution: &Execution,
    expr: &Shared<Expr>,
) -> Result<Operand, NoMemory>
    ensures { IfOk result (λ operand. IsOperand expr.now execution.now operand) }
{
    match at_once(alloc, &execution.thread, expr)? {
        None => Ok(Operand::Other(None)),
        Some(Priced { given, units }) => match given {
            Given::Value(value) => match units.checked_add(1) {
                None => Ok(Operand::Other(None)),
                Some(units) => Ok(Operand::Value(value, units)),
            },
            given => Ok(Operand::Other(Some(Priced { given, units }))),
        },
    }
}

/// A value is assigned to a local variable, if it has one at once. Whether it was.
fn assign(
    alloc: Global,
    execution: &mut Execution,
    stmts: &Shared<Seq<Stmt>>,
    at: usize,
    name: &Text,
    value: &Shared<Expr>,
) -> Result<bool, NoMemory>
    requires form { Assigns stmts.now at name.now value.now }
    ensures did { IfOk result (λ is_done. Did execution.old stmts.now at execution.new is_done) }
    ensures held { execution.new.held ≡ execution.old.held }
{
    if !is_local_name(&execution.thread, name) {
        return Ok(false);
    }
    match value_in_statement(alloc, execution, value)? {
        Operand::Other(_) => Ok(false),
        Operand::Value(value, units) => {
            let name = name.copy()?;
            if !afford(&mut execution.budget, units) {
                return Ok(false);
            }
            set_local(&mut execution.thread, name, value)?;
            Ok(true)
        }
    }
}

/// A statement, if it can be done at once. Whether it was.
fn statement(
    alloc: Global,
    execution: &mut Execution,
    stmts: &Shared<Seq<Stmt>>,
    at: usize,
) -> Result<bool, NoMemory>
    ensures did { IfOk result (λ is_done. Did execution.old stmts.now at execution.new is_done) }
    ensures held { execution.new.held ≡ execution.old.held }
{
    match stmts.get().get(at) {
        Some(Stmt::Assign(target, value)) => match target.get() {
            Expr::Name(name) => assign(alloc, execution, stmts, at, name, value),
            _ => Ok(false),
        },
        _ => Ok(false),
    }
}

/// The first operand of a simple statement that has one.
fn first_operand(stmt: &Stmt) -> Option<&Shared<Expr>>
    ensures { option_copied result ≡ first_operand (out-Stmt stmt.now) }
{
    match stmt {
        Stmt::Evaluate(expr) | Stmt::Assign(_, expr) => Some(expr),
        Stmt::Return(expr) | Stmt::Raise(expr) => match expr {
            None => None,
            Some(expr) => Some(expr),
        },
        _ => None,
    }
}

/// The statements of a block from a place on: the first one is a simple statement with this operand, whose unit is
/// paid.
fn begin_operands(
    alloc: Global,
    execution: &mut Execution,
    stmts: Shared<Seq<Stmt>>,
    at: usize,
    operand: Shared<Expr>,
) -> Result<Next, NoMemory>
    requires within { at < length stmts }
    requires first { operand_at (slice_get stmts at) ≡ Some operand }
    ensures moves { Leads execution.old (begins (items.Block stmts at)) execution.new result }
    ensures held { execution.new.held ≡ execution.old.held }
{
    if !afford(&mut execution.budget, 1) {
        return Ok(Next::Piece(Boxed::new(alloc, Item::Block { stmts, at })?));
    }
    let count = stmts.get().len();
    prove!(at < count);
    let block = Frame::Block {
        stmts: stmts.share()?,
        at: at + 1,
    };
    execution.work.push(block)?;
    let operands = Frame::Operands {
        form: Form::Statement(stmts, at),
        done: Seq::new(alloc),
    };
    execution.work.push(operands)?;
    evaluate(alloc, execution, operand)
}

/// The first operand of the statement at a place.
fn operand_at(stmts: &Seq<Stmt>, at: usize) -> Result<Option<Shared<Expr>>, NoMemory>
    ensures { IfOk result (λ operand. operand ≡ operand_at (slice_get stmts.now at)) }
{
    match stmts.get(at) {
        None => Ok(None),
        Some(stmt) => match first_operand(stmt) {
            None => Ok(None),
            Some(operand) => Ok(Some(operand.share()?)),
        },
    }
}

/// The expression that a statement returns the value of.
fn returned_of(stmt: &Stmt) -> Option<&Shared<Expr>>
    ensures { option_copied result ≡ returned_of (out-Stmt stmt.now) }
{
    match stmt {
        Stmt::Return(expr) => match expr {
            None => None,
            Some(expr) => Some(expr),
        },
        _ => None,
    }
}

/// The expression that the statement at a place returns the value of.
fn returned_at(stmts: &Seq<Stmt>, at: usize) -> Option<&Shared<Expr>>
    ensures { option_copied result ≡ returned_at (slice_get stmts.now at) }
{
    match stmts.get(at) {
        None => None,
        Some(stmt) => returned_of(stmt),
    }
}

/// The value that the statement at a place returns, if that is what it does and the value is at hand, and the units of
/// the statement.
fn returned(
    alloc: Global,
    execution: &Execution,
    stmts: &Seq<Stmt>,
    at: usize,
) -> Result<Option<(Value, u64)>, NoMemory>
    ensures { IfOk result (λ found. IfSome found (λ p. Returns stmts.now at execution.now p.0 p.1)) }
{
    match returned_at(stmts, at) {
        None => Ok(None),
        Some(expr) => match value_in_statement(alloc, execution, expr)? {
            Operand::Other(_) => Ok(None),
            Operand::Value(value, units) => Ok(Some((value, units))),
        },
    }
}

/// The statements of a block from a place on: the first one returns a value.
fn leave_block(
    alloc: Global,
    execution: &mut Execution,
    stmts: Shared<Seq<Stmt>>,
    at: usize,
    value: Value,
    units: u64,
) -> Result<Next, NoMemory>
    requires returned { Returns stmts at execution.old value units }
    ensures moves { Leads execution.old (begins (items.Block stmts at)) execution.new result }
    ensures held { execution.new.held ≡ execution.old.held }
{
    if !afford(&mut execution.budget, units) {
        return Ok(Next::Piece(Boxed::new(alloc, Item::Block { stmts, at })?));
    }
    Ok(Next::Left(Leave::Return(value)))
}

/// The statements of a block from a place on: the first one begins, at once if it can.
fn begin_statement(
    alloc: Global,
    execution: &mut Execution,
    stmts: Shared<Seq<Stmt>>,
    at: usize,
) -> Result<Next, NoMemory>
    requires within { at < length stmts }
    ensures moves { Leads execution.old (begins (items.Block stmts at)) execution.new result }
    ensures held { execution.new.held ≡ execution.old.held }
{
    if let Some((value, units)) = returned(alloc, execution, stmts.get(), at)? {
        return leave_block(alloc, execution, stmts, at, value, units);
    }
    match operand_at(stmts.get(), at)? {
        None => begin_other(alloc, execution, stmts, at),
        Some(operand) => begin_operands(alloc, execution, stmts, at, operand),
    }
}

/// The statements of a block from a place on, for as long as they can be done at once.
pub fn block(
    alloc: Global,
    execution: &mut Execution,
    stmts: Shared<Seq<Stmt>>,
    first: usize,
) -> Result<Next, NoMemory>
    ensures moves { Leads execution.old (begins (items.Block stmts first)) execution.new result }
    ensures held { execution.new.held ≡ execution.old.held }
{
    let mut at = first;
    'statements: while at < stmts.get().len() {
        if !statement(alloc, execution, &stmts, at)? {
            return begin_statement(alloc, execution, stmts, at);
        }
        at += 1;
    }
    Ok(Next::Went(Value::Nothing))
}
