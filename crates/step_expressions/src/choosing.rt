//! `and` and `or` (Language Reference 6.11).
ghost use Rattle.std.specs.Prelude.{◌≡◌, ◌&&◌, IfOk, [], ◌∷◌, true};
ghost use Rattle.py_syntax.specs.declared.expr.Expr.{out-Expr};
ghost use Rattle.meaning_script.specs.Meaning.{around_at};
ghost use Rattle.py_frames.specs.Listing.{is_listed};
ghost use Rattle.step_expressions.specs.Forms as spec;
ghost use Rattle.py_frames.specs.Does.{Does, pieces, begins, goes_on};
ghost use Rattle.py_frames.specs.declared.work.Item.TheVariants as items;
ghost use Rattle.py_frames.specs.declared.work.Frame.TheVariants as frames;

use base_owners::Shared;
use base_types::NoMemory;
use meaning_state::{Fault, Flow, Thread};
use py_frames::{Frame, Item, Want, fail, is_listed, list_operand, sized};
use py_syntax::Expr;
use py_value::{Value, truth};
use std::alloc::Global;

/// The right operand of `and`, where the left one does not decide.
fn conjoin(thread: &Thread, right: &Shared<Expr>, left: Value) -> Result<Want, NoMemory>
    ensures { IfOk result (Does thread.now (pieces (λ w d. spec.conjoined (around_at w d) right.now left) thread.now)) }
{
    if truth(&left) {
        return Ok(Want::Both(Item::Eval(right.share()?), Frame::Sized));
    }
    Ok(sized(thread, left))
}

/// The right operand of `or`, where the left one does not decide.
fn disjoin(thread: &Thread, right: &Shared<Expr>, left: Value) -> Result<Want, NoMemory>
    ensures { IfOk result (Does thread.now (pieces (λ w d. spec.disjoined (around_at w d) right.now left) thread.now)) }
{
    if truth(&left) {
        return Ok(sized(thread, left));
    }
    Ok(Want::Both(Item::Eval(right.share()?), Frame::Sized))
}

/// `and` or `or`, where the left operand has a value of its own.
fn by_form(alloc: Global, thread: &Thread, expr: &Expr, left: Value) -> Result<Want, NoMemory>
    ensures { IfOk result (Does thread.now (pieces (λ w d. spec.chosen (around_at w d) expr.now left) thread.now)) }
{
    match expr {
        Expr::And(_, right) => conjoin(thread, right, left),
        Expr::Or(_, right) => disjoin(thread, right, left),
        _ => fail(alloc, thread, Fault::NotInProfile),
    }
}

/// Whether a list comes in place of the left operand, or it is none.
fn is_left_listed(expr: &Expr, left: &Value) -> bool
    ensures { result ≡ (spec.is_choice (out-Expr expr.now) && is_listed left.now) }
{
    match expr {
        Expr::And(_, _) | Expr::Or(_, _) => is_listed(left),
        _ => false,
    }
}

/// A list comes in place of the left operand, or it is none.
fn choose_listed(
    alloc: Global,
    thread: &Thread,
    expr: Shared<Expr>,
    left: Value,
) -> Result<Want, NoMemory>
    requires listed { (spec.is_choice (out-Expr expr) && is_listed left) ≡ true }
    ensures { IfOk result (Does thread.now (begins (items.Choose expr left) thread.now)) }
{
    let item = Item::Choose {
        expr,
        left: Value::Nothing,
    };
    list_operand(alloc, thread, item, 0, left)
}

/// `and` or `or`, behind its left operand and its unit.
pub fn choose(
    alloc: Global,
    thread: &Thread,
    expr: Shared<Expr>,
    left: Value,
) -> Result<Want, NoMemory>
    ensures { IfOk result (Does thread.now (begins (items.Choose expr left) thread.now)) }
{
    if is_left_listed(expr.get(), &left) {
        return choose_listed(alloc, thread, expr, left);
    }
    by_form(alloc, thread, expr.get(), left)
}

/// The left operand has a value, or a leave comes in its place.
pub fn second(thread: &Thread, expr: Shared<Expr>, flow: Flow) -> Want
    ensures { Does thread.now (goes_on (frames.Second expr) flow thread.now) result }
{
    let _ = thread;
    match flow {
        Flow::Left(leave) => Want::Go(Flow::Left(leave)),
        Flow::Went(left) => Want::Pay {
            of_tree: false,
            units: 1,
            item: Item::Choose { expr, left },
        },
    }
}
