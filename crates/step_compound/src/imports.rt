//! Lines that import modules (Language Reference 7.11).
ghost use Rattle.std.specs.Prelude.{◌≡◌, IfOk, length, slice_get};
ghost use Rattle.py_frames.specs.Does.{Does, aliases_of, begins, goes_on};
ghost use Rattle.py_frames.specs.declared.work.Frame.TheVariants as frames;
ghost use Rattle.py_frames.specs.declared.work.Item.TheVariants as items;

use base_owners::Shared;
use base_types::{NoMemory, Seq, Text};
use meaning_state::{Flow, Thread};
use py_frames::{Frame, Item, Want, went};
use py_syntax::Stmt;
use py_value::Value;

/// How many modules a statement imports.
fn alias_count(stmts: &Seq<Stmt>, at: usize) -> usize
    ensures { result ≡ length (aliases_of (slice_get stmts.now at)) }
{
    match stmts.get(at) {
        Some(Stmt::Import(aliases)) => aliases.len(),
        _ => 0,
    }
}

/// The modules of an `import` from a place on: each name is bound before the next is imported.
pub fn begin_imports(
    thread: &Thread,
    stmts: Shared<Seq<Stmt>>,
    at: usize,
    place: usize,
) -> Result<Want, NoMemory>
    ensures { IfOk result (Does thread.now (begins (items.Imports stmts at place) thread.now)) }
{
    let count = alias_count(stmts.get(), at);
    if place >= count {
        return Ok(went(thread, Value::Nothing));
    }
    let rest = Frame::Imports {
        stmts: stmts.share()?,
        at,
        place: place + 1,
    };
    Ok(Want::Both(Item::Alias { stmts, at, place }, rest))
}

/// A name was imported and bound: the next ones follow.
pub fn go_on_imports(
    thread: &Thread,
    stmts: Shared<Seq<Stmt>>,
    at: usize,
    place: usize,
    flow: Flow,
) -> Want
    ensures { Does thread.now (goes_on (frames.Imports stmts at place) flow thread.now) result }
{
    let _ = thread;
    match flow {
        Flow::Went(value) => {
            drop(value);
            Want::Then(Item::Imports { stmts, at, place })
        }
        Flow::Left(leave) => Want::Go(Flow::Left(leave)),
    }
}

/// A value came that a name is bound to.
pub fn go_on_store(thread: &Thread, name: Text, flow: Flow) -> Want
    ensures { Does thread.now (goes_on (frames.Store name) flow thread.now) result }
{
    let _ = thread;
    match flow {
        Flow::Went(value) => Want::Then(Item::Store { name, value }),
        Flow::Left(leave) => Want::Go(Flow::Left(leave)),
    }
}
