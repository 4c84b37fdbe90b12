//! Statements that do not begin with an operand: `if` (Language Reference 8.1), and those that go on piece by piece.
ghost use Rattle.std.specs.Prelude.{◌≡◌, ◌<◌, IfOk, IfSome, length, slice_get};
ghost use Rattle.py_frames.specs.declared.work.Item.TheVariants as items;
ghost use Rattle.drive_straight.specs.Remains.{IsIf, Leads, begins, is_left};

use crate::execution::Execution;
use crate::next::Next;
use crate::paying::afford;
use base_owners::{Boxed, Shared};
use base_types::{NoMemory, Seq};
use py_frames::{Frame, Item};
use py_syntax::{Branch, Stmt};
use std::alloc::Global;

/// The statements of a block from a place on, of which the first is an `if`: its unit is paid, and its branches come.
fn begin_if(
    alloc: Global,
    execution: &mut Execution,
    stmts: Shared<Seq<Stmt>>,
    at: usize,
    branches: Shared<Seq<Branch>>,
    otherwise: Shared<Seq<Stmt>>,
) -> Result<Next, NoMemory>
    requires within { at < length stmts }
    requires form { IsIf stmts at branches otherwise }
    ensures moves { Leads execution.old (begins (items.Block stmts at)) execution.new result }
    ensures held { execution.new.held ≡ execution.old.held }
{
    if !afford(&mut execution.budget, 1) {
        return Ok(Next::Piece(Boxed::new(alloc, Item::Block { stmts, at })?));
    }
    let count = stmts.get().len();
    prove!(at < count);
    execution.work.push(Frame::Block { stmts, at: at + 1 })?;
    let item = Item::Branches {
        branches,
        at: 0,
        otherwise,
    };
    Ok(Next::Piece(Boxed::new(alloc, item)?))
}

/// The branches of an `if`, and its block behind `else`.
type Parts = Option<(Shared<Seq<Branch>>, Shared<Seq<Stmt>>)>;

/// The parts of the `if` at a place, if one stands there.
fn if_at(stmts: &Seq<Stmt>, at: usize) -> Result<Parts, NoMemory>
    ensures { IfOk result (λ found. IfSome found (λ p. IsIf stmts.now at p.0 p.1)) }
{
    match stmts.get(at) {
        Some(Stmt::If(branches, otherwise)) => { Ok(Some((branches.share()?, otherwise.share()?))) }
        _ => Ok(None),
    }
}

/// Whether the statement at a place is left to its steps: a `while`, which pays before each test instead of when it
/// begins, and a `def`.
fn is_left(stmts: &Seq<Stmt>, at: usize) -> bool
    ensures { result ≡ is_left (slice_get stmts.now at) }
{
    match stmts.get(at) {
        Some(Stmt::While(_, _)) | Some(Stmt::Def(_)) => true,
        _ => false,
    }
}

/// The statements of a block from a place on: the unit of the first one is paid, and then it goes on piece by
/// piece.
fn begin_paid(
    alloc: Global,
    execution: &mut Execution,
    stmts: Shared<Seq<Stmt>>,
    at: usize,
) -> Result<Next, NoMemory>
    requires within { at < length stmts }
    ensures moves { Leads execution.old (begins (items.Block stmts at)) execution.new result }
    ensures held { execution.new.held ≡ execution.old.held }
{
    if is_left(stmts.get(), at) {
        return Ok(Next::Piece(Boxed::new(alloc, Item::Block { stmts, at })?));
    }
    if !afford(&mut execution.budget, 1) {
        return Ok(Next::Piece(Boxed::new(alloc, Item::Block { stmts, at })?));
    }
    let count = stmts.get().len();
    prove!(at < count);
    let block = Frame::Block {
        stmts: stmts.share()?,
        at: at + 1,
    };
    execution.work.push(block)?;
    Ok(Next::Begun { stmts, at })
}

/// The statements of a block from a place on, of which the first does not begin with an operand.
pub fn begin_other(
    alloc: Global,
    execution: &mut Execution,
    stmts: Shared<Seq<Stmt>>,
    at: usize,
) -> Result<Next, NoMemory>
    requires within { at < length stmts }
    ensures moves { Leads execution.old (begins (items.Block stmts at)) execution.new result }
    ensures held { execution.new.held ≡ execution.old.held }
{
    match if_at(stmts.get(), at)? {
        None => begin_paid(alloc, execution, stmts, at),
        Some((branches, otherwise)) => begin_if(alloc, execution, stmts, at, branches, otherwise),
    }
}
