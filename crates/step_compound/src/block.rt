//! Blocks and the statements in them.
ghost use Rattle.std.specs.Prelude.{◌≡◌, IfOk, map, slice_get, Some};
ghost use Rattle.py_syntax.specs.declared.stmt.Stmt.{out-Stmt};
ghost use Rattle.py_syntax.specs.declared.stmt.Stmt.TheVariants as tree;
ghost use Rattle.meaning_script.specs.Meaning.{around_at};
ghost use Rattle.meaning_script.specs.Statements.{guards, run};
ghost use Rattle.py_frames.specs.Does.{Does, begins, goes_on, pieces, begun_at, tries_some};
ghost use Rattle.py_frames.specs.declared.work.Frame.TheVariants as frames;
ghost use Rattle.py_frames.specs.declared.work.Item.TheVariants as items;

use crate::loops::most;
use base_owners::Shared;
use base_types::{Exact, NoMemory, Seq};
use meaning_state::{Fault, Flow, Thread};
use py_frames::{Form, Frame, Item, Want, fail, went};
use py_syntax::{Expr, Stmt};
use py_value::Value;
use std::alloc::Global;

/// The statements of a block from a place on.
pub fn begin_block(thread: &Thread, stmts: Shared<Seq<Stmt>>, at: usize) -> Result<Want, NoMemory>
    ensures { IfOk result (Does thread.now (begins (items.Block stmts at) thread.now)) }
{
    let count = stmts.get().len();
    if at >= count {
        return Ok(went(thread, Value::Nothing));
    }
    let rest = Frame::Block {
        stmts: stmts.share()?,
        at: at + 1,
    };
    Ok(Want::Both(Item::Statement { stmts, at }, rest))
}

/// A statement of a block came to its end: the next ones follow.
pub fn go_on_block(thread: &Thread, stmts: Shared<Seq<Stmt>>, at: usize, flow: Flow) -> Want
    ensures { Does thread.now (goes_on (frames.Block stmts at) flow thread.now) result }
{
    let _ = thread;
    match flow {
        Flow::Went(value) => {
            drop(value);
            Want::Then(Item::Block { stmts, at })
        }
        Flow::Left(leave) => Want::Go(Flow::Left(leave)),
    }
}

/// A loop, with the most turns.
fn begin_while(
    thread: &Thread,
    test: &Shared<Expr>,
    body: &Shared<Seq<Stmt>>,
) -> Result<Want, NoMemory>
    ensures { IfOk result (Does thread.now (pieces (λ w d. run (around_at w d)
        (tree.While test.now body.now)) thread.now)) }
{
    let _ = thread;
    let test = test.share()?;
    let body = body.share()?;
    Ok(Want::Then(Item::Turn {
        test,
        body,
        turns: most(),
    }))
}

/// A statement: it pays a unit when it starts, but a `while` pays one before each test instead.
pub fn begin_statement(
    alloc: Global,
    thread: &Thread,
    stmts: Shared<Seq<Stmt>>,
    at: usize,
) -> Result<Want, NoMemory>
    ensures { IfOk result (Does thread.now (begins (items.Statement stmts at) thread.now)) }
{
    match stmts.get().get(at) {
        None => fail(alloc, thread, Fault::NotInProfile),
        Some(Stmt::While(test, body)) => begin_while(thread, test, body),
        Some(_) => Ok(Want::Pay {
            of_tree: false,
            units: 1,
            item: Item::Begun { stmts, at },
        }),
    }
}

/// What a `try` does, with its `finally` block if it has one.
fn begun_try(thread: &Thread, stmts: Shared<Seq<Stmt>>, at: usize, last: Shared<Seq<Stmt>>) -> Want
    ensures { Does thread.now (pieces (λ w d. guards (map (run (around_at w d)) last)
        (tries_some (around_at w d) (slice_get stmts at))) thread.now) result }
{
    let _ = thread;
    if last.get().is_empty() {
        return Want::Then(Item::Try { stmts, at });
    }
    Want::Both(Item::Try { stmts, at }, Frame::Finally(last))
}

/// A statement whose unit is paid, at its place in its block.
fn begun_form(
    alloc: Global,
    thread: &Thread,
    stmt: &Stmt,
    stmts: &Shared<Seq<Stmt>>,
    at: usize,
) -> Result<Want, NoMemory>
    requires { slice_get stmts.now at ≡ Some stmt.now }
    ensures { IfOk result (Does thread.now (pieces (λ w d. begun_at (around_at w d) (out-Stmt stmt.now)) thread.now)) }
{
    match stmt {
        Stmt::From(_, _, _) => Ok(Want::Then(Item::From {
            stmts: stmts.share()?,
            at,
        })),
        Stmt::Import(_) => Ok(Want::Then(Item::Imports {
            stmts: stmts.share()?,
            at,
            place: 0,
        })),
        Stmt::If(branches, otherwise) => Ok(Want::Then(Item::Branches {
            branches: branches.share()?,
            at: 0,
            otherwise: otherwise.share()?,
        })),
        Stmt::Try(_, _, _, last) => Ok(begun_try(thread, stmts.share()?, at, last.share()?)),
        Stmt::Def(function) => Ok(Want::Then(Item::Store {
            name: function.get().name.copy()?,
            value: Value::Func {
                load: thread.state.scope.load,
                index: function.get().number,
                name: function.get().name.copy()?,
            },
        })),
        _ => Ok(Want::Then(Item::Operands {
            form: Form::Statement(stmts.share()?, at),
            done: Seq::new(alloc),
        })),
    }
}

/// A statement whose unit is paid.
pub fn begun(
    alloc: Global,
    thread: &Thread,
    stmts: Shared<Seq<Stmt>>,
    at: usize,
) -> Result<Want, NoMemory>
    ensures { IfOk result (Does thread.now (begins (items.Begun stmts at) thread.now)) }
{
    match stmts.get().get(at) {
        None => fail(alloc, thread, Fault::NotInProfile),
        Some(stmt) => begun_form(alloc, thread, stmt, &stmts, at),
    }
}
