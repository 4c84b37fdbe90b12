//! The blocks of a `try`.
ghost use Rattle.std.specs.Prelude.{◌≡◌, IfOk};
ghost use Rattle.meaning_script.specs.Meaning.{around_at};
ghost use Rattle.py_frames.specs.Does.{Does, begins, goes_on, pieces};
ghost use Rattle.py_frames.specs.declared.work.Frame.TheVariants as frames;
ghost use Rattle.py_frames.specs.declared.work.Item.TheVariants as items;
ghost use Rattle.step_compound.specs.Parts.{behind, meets};

use base_owners::Shared;
use base_types::{NoMemory, Seq};
use meaning_state::{Fault, Flow, Leave, Thread};
use py_frames::{Frame, Item, Want, fail};
use py_syntax::{Handler, Stmt};
use py_value::{Kind, Raised};
use std::alloc::Global;

/// A `try` without its `finally` block: its first block comes.
pub fn begin_try(
    alloc: Global,
    thread: &Thread,
    stmts: Shared<Seq<Stmt>>,
    at: usize,
) -> Result<Want, NoMemory>
    ensures { IfOk result (Does thread.now (begins (items.Try stmts at) thread.now)) }
{
    match stmts.get().get(at) {
        Some(Stmt::Try(body, _, _, _)) => {
            let block = Item::Block {
                stmts: body.share()?,
                at: 0,
            };
            Ok(Want::Both(block, Frame::Handlers { stmts, at }))
        }
        _ => fail(alloc, thread, Fault::NotInProfile),
    }
}

/// The first block was left by an error. No handler takes a ProfileError.
fn meet_error(
    thread: &Thread,
    handlers: &Shared<Seq<Handler>>,
    error: Raised,
) -> Result<Want, NoMemory>
    ensures { IfOk result (Does thread.now (pieces (λ w d. meets (around_at w d) handlers.now error) thread.now)) }
{
    let _ = thread;
    match error.kind() {
        Kind::ProfileError => Ok(Want::Go(Flow::Left(Leave::Raised(error)))),
        _ => Ok(Want::Then(Item::Match {
            handlers: handlers.share()?,
            at: 0,
            error,
        })),
    }
}

/// The first block came to its end.
fn leave_block(
    thread: &Thread,
    handlers: &Shared<Seq<Handler>>,
    otherwise: &Shared<Seq<Stmt>>,
    flow: Flow,
) -> Result<Want, NoMemory>
    ensures { IfOk result (Does thread.now (pieces (λ w d. behind
        (around_at w d) handlers.now otherwise.now flow) thread.now)) }
{
    match flow {
        Flow::Went(value) => {
            drop(value);
            Ok(Want::Then(Item::Block {
                stmts: otherwise.share()?,
                at: 0,
            }))
        }
        Flow::Left(Leave::Raised(error)) => meet_error(thread, handlers, error),
        Flow::Left(Leave::Return(value)) => Ok(Want::Go(Flow::Left(Leave::Return(value)))),
        Flow::Left(Leave::Break) => Ok(Want::Go(Flow::Left(Leave::Break))),
        Flow::Left(Leave::Continue) => Ok(Want::Go(Flow::Left(Leave::Continue))),
    }
}

/// The first block of a `try` came to its end: its handlers come at an error, and the block of `else` at its end.
pub fn go_on_handlers(
    thread: &Thread,
    stmts: &Shared<Seq<Stmt>>,
    at: usize,
    flow: Flow,
) -> Result<Want, NoMemory>
    ensures { IfOk result (Does thread.now (goes_on (frames.Handlers stmts.now at) flow thread.now)) }
{
    match stmts.get().get(at) {
        Some(Stmt::Try(_, handlers, otherwise, _)) => {
            leave_block(thread, handlers, otherwise, flow)
        }
        _ => Ok(Want::Go(flow)),
    }
}
