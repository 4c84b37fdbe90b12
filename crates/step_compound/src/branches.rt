//! `if` (Language Reference 8.1).
ghost use Rattle.std.specs.Prelude.{◌≡◌, ◌<◌, IfOk, length, true};
ghost use Rattle.meaning_script.specs.Meaning.{around_at};
ghost use Rattle.meaning_state.specs.declared.flow.Flow.TheVariants.{Went};
ghost use Rattle.py_frames.specs.Listing.{is_listed};
ghost use Rattle.py_frames.specs.Acts.{acts};
ghost use Rattle.step_compound.specs.Known.{behind, picked};
ghost use Rattle.py_frames.specs.Does.{Does, begins, goes_on, pieces};
ghost use Rattle.py_frames.specs.declared.work.Frame.TheVariants as frames;
ghost use Rattle.py_frames.specs.declared.work.Item.TheVariants as items;

use base_owners::Shared;
use base_types::{NoMemory, Seq};
use meaning_state::{Fault, Flow, Thread};
use py_frames::{Frame, Item, Want, fail, is_cache, is_listed};
use py_syntax::{Branch, Stmt};
use py_value::{Value, truth};
use std::alloc::Global;

/// The branches of an `if` from a place on: the test of the first, or the block of `else`.
pub fn begin_branches(
    thread: &Thread,
    branches: Shared<Seq<Branch>>,
    at: usize,
    otherwise: Shared<Seq<Stmt>>,
) -> Result<Want, NoMemory>
    ensures { IfOk result (Does thread.now (begins (items.Branches branches at otherwise) thread.now)) }
{
    let _ = thread;
    let test = match branches.get().get(at) {
        None => {
            return Ok(Want::Then(Item::Block {
                stmts: otherwise,
                at: 0,
            }));
        }
        Some(branch) => branch.test.share()?,
    };
    Ok(Want::Both(
        Item::Eval(test),
        Frame::Test {
            branches,
            at,
            otherwise,
        },
    ))
}

/// The test of a branch does not hold: the next branches come.
fn pass_branch(
    thread: &Thread,
    branches: Shared<Seq<Branch>>,
    at: usize,
    otherwise: Shared<Seq<Stmt>>,
) -> Want
    requires { at < length branches }
    ensures { Does thread.now (pieces (λ w d. behind (around_at w d) branches at otherwise) thread.now) result }
{
    let _ = thread;
    let count = branches.get().len();
    prove!(at < count);
    Want::Then(Item::Branches {
        branches,
        at: at + 1,
        otherwise,
    })
}

/// The test of a branch has a value of its own: its block comes, or the next branches.
fn pick_branch(
    alloc: Global,
    thread: &Thread,
    branches: Shared<Seq<Branch>>,
    at: usize,
    otherwise: Shared<Seq<Stmt>>,
    value: Value,
) -> Result<Want, NoMemory>
    ensures { IfOk result (Does thread.now (acts (λ a. picked a branches at otherwise value) thread.now)) }
{
    let holds = truth(&value);
    drop(value);
    match branches.get().get(at) {
        None => fail(alloc, thread, Fault::NotInProfile),
        Some(branch) => {
            if holds {
                return Ok(Want::Then(Item::Block {
                    stmts: branch.body.share()?,
                    at: 0,
                }));
            }
            Ok(pass_branch(thread, branches, at, otherwise))
        }
    }
}

/// A list comes in place of the value of a test, or it is none.
fn wait_test(
    alloc: Global,
    thread: &Thread,
    branches: Shared<Seq<Branch>>,
    at: usize,
    otherwise: Shared<Seq<Stmt>>,
    value: Value,
) -> Result<Want, NoMemory>
    requires listed { is_listed value ≡ true }
    ensures { IfOk result (Does thread.now (goes_on (frames.Test branches at otherwise) (Went value) thread.now)) }
{
    match branches.get().get(at) {
        None => fail(alloc, thread, Fault::NotInProfile),
        Some(_) => {
            if is_cache(&value) {
                return fail(alloc, thread, Fault::NotInProfile);
            }
            let test = Frame::Test {
                branches,
                at,
                otherwise,
            };
            Ok(Want::Both(Item::SearchPath, test))
        }
    }
}

/// The test of a branch has a value: its block comes, or the next branches.
pub fn go_on_test(
    alloc: Global,
    thread: &Thread,
    branches: Shared<Seq<Branch>>,
    at: usize,
    otherwise: Shared<Seq<Stmt>>,
    flow: Flow,
) -> Result<Want, NoMemory>
    ensures { IfOk result (Does thread.now (goes_on (frames.Test branches at otherwise) flow thread.now)) }
{
    let value = match flow {
        Flow::Left(leave) => return Ok(Want::Go(Flow::Left(leave))),
        Flow::Went(value) => value,
    };
    if is_listed(&value) {
        return wait_test(alloc, thread, branches, at, otherwise, value);
    }
    pick_branch(alloc, thread, branches, at, otherwise, value)
}
