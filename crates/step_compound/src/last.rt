//! `finally`.
ghost use Rattle.std.specs.Prelude.{◌≡◌, IfOk, OnOk};
ghost use Rattle.meaning_script.specs.Statements.{enters, exits};
ghost use Rattle.py_frames.specs.Does.{Does, goes_on};
ghost use Rattle.py_frames.specs.declared.work.Frame.TheVariants as frames;

use crate::handling::{begin_handling, end_handling};
use base_owners::Shared;
use base_types::{Exact, NoMemory, Seq};
use meaning_state::{Flow, Leave, Thread};
use py_frames::{Frame, Item, Want};
use py_syntax::Stmt;

/// A `finally` block that is entered by an error handles it.
fn enter(thread: &mut Thread, flow: &Flow) -> Result<(), NoMemory>
    ensures { OnOk result (thread.new ≡ record { left = thread.old.left; state = enters flow.now thread.old.state }) }
{
    match flow {
        Flow::Left(Leave::Raised(error)) => begin_handling(thread, error.copy()?),
        _ => Ok(()),
    }
}

/// The error that a `finally` block was entered by is no longer handled.
fn exit(thread: &mut Thread, flow: &Flow)
    ensures { thread.new ≡ record { left = thread.old.left; state = exits flow.now thread.old.state } }
{
    match flow {
        Flow::Left(Leave::Raised(_)) => end_handling(thread),
        _ => {}
    }
}

/// What comes before a `finally` block came to its end: the block comes, and then that goes on.
pub fn go_on_finally(
    thread: &mut Thread,
    block: Shared<Seq<Stmt>>,
    flow: Flow,
) -> Result<Want, NoMemory>
    ensures { IfOk result (Does thread.new (goes_on (frames.Finally block) flow thread.old)) }
{
    enter(thread, &flow)?;
    let block = Item::Block {
        stmts: block,
        at: 0,
    };
    Ok(Want::Both(block, Frame::Resume(flow)))
}

/// A `finally` block came to its end: its own way out replaces the one before, or else that goes on.
pub fn go_on_resume(thread: &mut Thread, before: Flow, flow: Flow) -> Want
    ensures { Does thread.new (goes_on (frames.Resume before) flow thread.old) result }
{
    exit(thread, &before);
    match flow {
        Flow::Went(value) => {
            drop(value);
            Want::Go(before)
        }
        Flow::Left(leave) => {
            drop(before);
            Want::Go(Flow::Left(leave))
        }
    }
}
