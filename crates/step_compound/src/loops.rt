//! `while` (Language Reference 8.2).
ghost use Rattle.std.specs.Prelude.{◌≡◌, IfOk, true};
ghost use Rattle.meaning_script.specs.Pieces.{most};
ghost use Rattle.meaning_script.specs.Meaning.{around_at};
ghost use Rattle.meaning_state.specs.declared.flow.Flow.TheVariants.{Went};
ghost use Rattle.py_frames.specs.Listing.{is_listed};
ghost use Rattle.step_compound.specs.Known.{loops};
ghost use Rattle.py_frames.specs.Does.{Does, begins, goes_on, pieces};
ghost use Rattle.py_frames.specs.declared.work.Frame.TheVariants as frames;
ghost use Rattle.py_frames.specs.declared.work.Item.TheVariants as items;

use base_owners::Shared;
use base_types::{NoMemory, Seq};
use meaning_state::{Fault, Flow, Leave, Thread};
use py_frames::{Frame, Item, Want, fail, is_cache, is_listed};
use py_syntax::{Expr, Stmt};
use py_value::{Value, truth};
use std::alloc::Global;

/// No loop can have more turns, and no payment have more units, since each unit is one of a budget of 64 bits.
pub fn most() -> u64
    ensures { result ≡ most }
{
    u64::MAX
}

/// A loop that can take so many turns: the next one pays a unit.
pub fn begin_turn(thread: &Thread, test: Shared<Expr>, body: Shared<Seq<Stmt>>, turns: u64) -> Want
    ensures { Does thread.now (begins (items.Turn test body turns) thread.now) result }
{
    let _ = thread;
    if turns == 0 {
        return Want::Pay {
            of_tree: false,
            units: most(),
            item: Item::Give(Flow::Went(Value::Nothing)),
        };
    }
    Want::Pay {
        of_tree: false,
        units: 1,
        item: Item::Test {
            test,
            body,
            turns: turns - 1,
        },
    }
}

/// A turn whose unit is paid: its test.
pub fn begin_test(
    thread: &Thread,
    test: Shared<Expr>,
    body: Shared<Seq<Stmt>>,
    turns: u64,
) -> Result<Want, NoMemory>
    ensures { IfOk result (Does thread.now (begins (items.Test test body turns) thread.now)) }
{
    let _ = thread;
    Ok(Want::Both(
        Item::Eval(test.share()?),
        Frame::Decide { test, body, turns },
    ))
}

/// The test of a loop has a value of its own: its block comes, or its end.
fn take_turn(
    thread: &Thread,
    test: Shared<Expr>,
    body: Shared<Seq<Stmt>>,
    turns: u64,
    value: Value,
) -> Result<Want, NoMemory>
    ensures { IfOk result (Does thread.now (pieces (λ w d. loops (around_at w d) test body turns value) thread.now)) }
{
    let _ = thread;
    if !truth(&value) {
        return Ok(Want::Go(Flow::Went(Value::Nothing)));
    }
    let block = Item::Block {
        stmts: body.share()?,
        at: 0,
    };
    Ok(Want::Both(block, Frame::Loop { test, body, turns }))
}

/// A list comes in place of the value of a test, or it is none.
fn wait_decide(
    alloc: Global,
    thread: &Thread,
    test: Shared<Expr>,
    body: Shared<Seq<Stmt>>,
    turns: u64,
    value: Value,
) -> Result<Want, NoMemory>
    requires listed { is_listed value ≡ true }
    ensures { IfOk result (Does thread.now (goes_on (frames.Decide test body turns) (Went value) thread.now)) }
{
    if is_cache(&value) {
        return fail(alloc, thread, Fault::NotInProfile);
    }
    Ok(Want::Both(Item::SearchPath, Frame::Decide { test, body, turns }))
}

/// The test of a loop has a value: its block comes, or its end.
pub fn go_on_decide(
    alloc: Global,
    thread: &Thread,
    test: Shared<Expr>,
    body: Shared<Seq<Stmt>>,
    turns: u64,
    flow: Flow,
) -> Result<Want, NoMemory>
    ensures { IfOk result (Does thread.now (goes_on (frames.Decide test body turns) flow thread.now)) }
{
    let value = match flow {
        Flow::Left(leave) => return Ok(Want::Go(Flow::Left(leave))),
        Flow::Went(value) => value,
    };
    if is_listed(&value) {
        return wait_decide(alloc, thread, test, body, turns, value);
    }
    take_turn(thread, test, body, turns, value)
}

/// The block of a loop came to its end: the next turns follow, unless it was left for good.
pub fn go_on_loop(
    thread: &Thread,
    test: Shared<Expr>,
    body: Shared<Seq<Stmt>>,
    turns: u64,
    flow: Flow,
) -> Want
    ensures { Does thread.now (goes_on (frames.Loop test body turns) flow thread.now) result }
{
    let _ = thread;
    match flow {
        Flow::Went(value) => {
            drop(value);
            Want::Then(Item::Turn { test, body, turns })
        }
        Flow::Left(Leave::Continue) => Want::Then(Item::Turn { test, body, turns }),
        Flow::Left(Leave::Break) => Want::Go(Flow::Went(Value::Nothing)),
        Flow::Left(Leave::Raised(error)) => Want::Go(Flow::Left(Leave::Raised(error))),
        Flow::Left(Leave::Return(value)) => Want::Go(Flow::Left(Leave::Return(value))),
    }
}
