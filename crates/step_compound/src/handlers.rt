//! The handlers of an error.
ghost use Rattle.std.specs.Prelude.{◌≡◌, ◌<◌, IfOk, length, suc, true};
ghost use Rattle.meaning_script.specs.Meaning.{around_at};
ghost use Rattle.py_frames.specs.Does.{Does, begins, catches_from, goes_on, pieces};
ghost use Rattle.py_frames.specs.declared.work.Frame.TheVariants as frames;
ghost use Rattle.py_frames.specs.declared.work.Item.TheVariants as items;
ghost use Rattle.py_frames.specs.Listing.{is_listed};
ghost use Rattle.meaning_state.specs.declared.flow.Flow.TheVariants.{Went};
ghost use Rattle.step_compound.specs.Parts.{chosen_at, handles_by};

use crate::handling::begin_handling;
use crate::kinds::takes;
use base_owners::Shared;
use base_types::{Exact, NoMemory, Seq};
use meaning_state::{Fault, Flow, Leave, Thread};
use py_frames::{Frame, Item, Want, fail, is_listed};
use py_syntax::Handler;
use py_value::{Raised, Value};
use std::alloc::Global;

/// The handlers of an error from a place on: the kinds that the first one names, if it names any. An error that no handler
/// takes goes on.
pub fn begin_match(
    thread: &Thread,
    handlers: Shared<Seq<Handler>>,
    at: usize,
    error: Raised,
) -> Result<Want, NoMemory>
    ensures { IfOk result (Does thread.now (begins (items.Match handlers at error) thread.now)) }
{
    let _ = thread;
    match handlers.get().get(at) {
        None => Ok(Want::Go(Flow::Left(Leave::Raised(error)))),
        Some(handler) => match &handler.kinds {
            None => Ok(Want::Then(Item::Bind {
                handlers,
                at,
                error,
            })),
            Some(kinds) => Ok(Want::Both(
                Item::Eval(kinds.share()?),
                Frame::Catch {
                    handlers,
                    at,
                    error,
                },
            )),
        },
    }
}

/// A handler does not take the error: the next ones come.
fn pass_handler(thread: &Thread, handlers: Shared<Seq<Handler>>, at: usize, error: Raised) -> Want
    requires { at < length handlers }
    ensures { Does thread.now (pieces (λ w d. catches_from (around_at w d) handlers (suc at) error) thread.now) result }
{
    let _ = thread;
    let count = handlers.get().len();
    prove!(at < count);
    Want::Then(Item::Match {
        handlers,
        at: at + 1,
        error,
    })
}

/// A handler that takes the error or not, or that names what is no kind.
fn choose(
    alloc: Global,
    thread: &Thread,
    handlers: Shared<Seq<Handler>>,
    at: usize,
    error: Raised,
    taken: Option<bool>,
) -> Result<Want, NoMemory>
    ensures { IfOk result (Does thread.now (pieces (λ w d. chosen_at
        (around_at w d) handlers at error taken) thread.now)) }
{
    match handlers.get().get(at) {
        None => fail(alloc, thread, Fault::NotInProfile),
        Some(_) => match taken {
            None => fail(alloc, thread, Fault::NotCaught),
            Some(true) => Ok(Want::Then(Item::Bind {
                handlers,
                at,
                error,
            })),
            Some(false) => Ok(pass_handler(thread, handlers, at, error)),
        },
    }
}

/// A list comes in place of what a handler names, or it is no operand.
fn wait_catch(
    alloc: Global,
    thread: &Thread,
    handlers: Shared<Seq<Handler>>,
    at: usize,
    error: Raised,
    value: Value,
) -> Result<Want, NoMemory>
    requires listed { is_listed value ≡ true }
    ensures { IfOk result (Does thread.now (goes_on (frames.Catch handlers at error) (Went value) thread.now)) }
{
    match value {
        Value::SysPath => Ok(Want::Both(
            Item::SearchPath,
            Frame::Catch {
                handlers,
                at,
                error,
            },
        )),
        other => {
            drop(other);
            fail(alloc, thread, Fault::NotInProfile)
        }
    }
}

/// What a handler names has a value.
pub fn go_on_catch(
    alloc: Global,
    thread: &Thread,
    handlers: Shared<Seq<Handler>>,
    at: usize,
    error: Raised,
    flow: Flow,
) -> Result<Want, NoMemory>
    ensures { IfOk result (Does thread.now (goes_on (frames.Catch handlers at error) flow thread.now)) }
{
    let value = match flow {
        Flow::Left(leave) => return Ok(Want::Go(Flow::Left(leave))),
        Flow::Went(value) => value,
    };
    if is_listed(&value) {
        return wait_catch(alloc, thread, handlers, at, error, value);
    }
    let taken = takes(error.kind(), &value);
    choose(alloc, thread, handlers, at, error, taken)
}

/// The handler that takes the error: its name is bound, if it has one.
pub fn begin_bind(
    alloc: Global,
    thread: &Thread,
    handlers: Shared<Seq<Handler>>,
    at: usize,
    error: Raised,
) -> Result<Want, NoMemory>
    ensures { IfOk result (Does thread.now (begins (items.Bind handlers at error) thread.now)) }
{
    match handlers.get().get(at) {
        None => fail(alloc, thread, Fault::NotInProfile),
        Some(handler) => match &handler.bound {
            None => Ok(Want::Then(Item::Handle {
                handlers,
                at,
                error,
            })),
            Some(name) => {
                let binding = Item::Store {
                    name: name.copy()?,
                    value: Value::Error(error.copy()?),
                };
                Ok(Want::Both(
                    binding,
                    Frame::Handle {
                        handlers,
                        at,
                        error,
                    },
                ))
            }
        },
    }
}

/// The name of a handler is bound: its block comes.
pub fn go_on_handle(
    thread: &Thread,
    handlers: Shared<Seq<Handler>>,
    at: usize,
    error: Raised,
    flow: Flow,
) -> Want
    ensures { Does thread.now (goes_on (frames.Handle handlers at error) flow thread.now) result }
{
    let _ = thread;
    match flow {
        Flow::Went(value) => {
            drop(value);
            Want::Then(Item::Handle {
                handlers,
                at,
                error,
            })
        }
        Flow::Left(leave) => Want::Go(Flow::Left(leave)),
    }
}

/// The block of a handler, which handles the error.
fn handle(thread: &mut Thread, handler: &Handler, error: Raised) -> Result<Want, NoMemory>
    ensures { IfOk result (Does thread.new (pieces (λ w d. handles_by (around_at w d) handler.now error) thread.old)) }
{
    let block = Item::Block {
        stmts: handler.body.share()?,
        at: 0,
    };
    let ending = Frame::EndHandler(handler.bound.copy()?);
    begin_handling(thread, error)?;
    Ok(Want::Both(block, ending))
}

/// The handler that takes the error, whose name is bound: its block comes.
pub fn begin_handle(
    alloc: Global,
    thread: &mut Thread,
    handlers: &Shared<Seq<Handler>>,
    at: usize,
    error: Raised,
) -> Result<Want, NoMemory>
    ensures { IfOk result (Does thread.new (begins (items.Handle handlers.now at error) thread.old)) }
{
    match handlers.get().get(at) {
        None => fail(alloc, thread, Fault::NotInProfile),
        Some(handler) => handle(thread, handler, error),
    }
}
