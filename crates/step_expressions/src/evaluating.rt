//! How an expression begins.
ghost use Rattle.std.specs.Prelude.{◌≡◌, IfOk, [], ◌∷◌, None, false};
ghost use Rattle.py_syntax.specs.declared.expr.Expr.{out-Expr};
ghost use Rattle.meaning_script.specs.Meaning.{around_at};
ghost use Rattle.step_expressions.specs.Forms.{eval_at};
ghost use Rattle.step_expressions.specs.Forms as spec;
ghost use Rattle.py_frames.specs.Does.{Does, pieces, begins};
ghost use Rattle.py_frames.specs.declared.work.Item.TheVariants as items;

use crate::gathering::operands;
use base_owners::Shared;
use base_types::{Exact, NoMemory, Seq, Wide};
use meaning_state::{Fault, Thread};
use py_frames::{Form, Frame, Item, Want, fail, given};
use py_syntax::Expr;
use py_value::{Applied, Value};
use std::alloc::Global;
use step_simple::read_name;
use value_operators::limited;

/// An atom's unit is paid, and then its value is looked for.
fn pay_atom(thread: &Thread, expr: Shared<Expr>) -> Want
    ensures { Does thread.now (pieces (λ w d. spec.atom_of (around_at w d) expr) thread.now) result }
{
    let _ = thread;
    Want::Pay {
        of_tree: false,
        units: 1,
        item: Item::Atom(expr),
    }
}

/// The left operand of `and` or `or`.
fn left_of(expr: &Expr) -> Result<Option<Shared<Expr>>, NoMemory>
    ensures { IfOk result (λ left. left ≡ spec.left_of (out-Expr expr.now)) }
{
    match expr {
        Expr::And(left, _) => Ok(Some(left.share()?)),
        Expr::Or(left, _) => Ok(Some(left.share()?)),
        _ => Ok(None),
    }
}

fn is_atom(expr: &Expr) -> bool
    ensures { result ≡ spec.is_atom (out-Expr expr.now) }
{
    match expr {
        Expr::Name(_) | Expr::Number(_) | Expr::Str(_) => true,
        Expr::Nothing | Expr::True | Expr::False => true,
        _ => false,
    }
}

/// The object of an attribute.
fn object_of(expr: &Expr) -> Result<Option<Shared<Expr>>, NoMemory>
    ensures { IfOk result (λ object. object ≡ spec.object_of (out-Expr expr.now)) }
{
    match expr {
        Expr::Attribute(object, _) => Ok(Some(object.share()?)),
        _ => Ok(None),
    }
}

/// The object of the attribute that a call names.
fn callee_object(expr: &Expr) -> Result<Option<Shared<Expr>>, NoMemory>
    ensures { IfOk result (λ object. object ≡ spec.callee_object (out-Expr expr.now)) }
{
    match expr {
        Expr::Call(callee, _) => object_of(callee.get()),
        _ => Ok(None),
    }
}

/// A form with operands. A call of an attribute begins with the object of that.
fn operator(alloc: Global, thread: &Thread, expr: Shared<Expr>) -> Result<Want, NoMemory>
    requires left { spec.left_of (out-Expr expr) ≡ None }
    requires atom { spec.is_atom (out-Expr expr) ≡ false }
    ensures { IfOk result (Does thread.now (pieces (λ w d. eval_at (around_at w d) (out-Expr expr)) thread.now)) }
{
    match callee_object(expr.get())? {
        Some(object) => Ok(Want::Both(Item::Eval(object), Frame::Callee(expr))),
        None => operands(alloc, thread, Form::Expression(expr), Seq::new(alloc)),
    }
}

/// An expression that is no `and` and no `or`.
fn without_left(alloc: Global, thread: &Thread, expr: Shared<Expr>) -> Result<Want, NoMemory>
    requires none { spec.left_of (out-Expr expr) ≡ None }
    ensures { IfOk result (Does thread.now (pieces (λ w d. eval_at (around_at w d) (out-Expr expr)) thread.now)) }
{
    if is_atom(expr.get()) {
        return Ok(pay_atom(thread, expr));
    }
    operator(alloc, thread, expr)
}

/// An expression, by its outermost form.
fn by_form(alloc: Global, thread: &Thread, expr: Shared<Expr>) -> Result<Want, NoMemory>
    ensures { IfOk result (Does thread.now (pieces (λ w d. eval_at (around_at w d) (out-Expr expr)) thread.now)) }
{
    match left_of(expr.get())? {
        Some(left) => Ok(Want::Both(Item::Eval(left), Frame::Second(expr))),
        None => without_left(alloc, thread, expr),
    }
}

/// An expression begins.
pub fn evaluate(alloc: Global, thread: &Thread, expr: Shared<Expr>) -> Result<Want, NoMemory>
    ensures { IfOk result (Does thread.now (begins (items.Eval expr) thread.now)) }
{
    by_form(alloc, thread, expr)
}

/// An atom, once its unit is paid.
pub fn atom(alloc: Global, thread: &Thread, expr: Shared<Expr>) -> Result<Want, NoMemory>
    ensures { IfOk result (Does thread.now (begins (items.Atom expr) thread.now)) }
{
    match expr.get() {
        Expr::Name(name) => read_name(alloc, thread, name),
        Expr::Number(n) => Ok(given(thread, Applied::Value(Value::Int(Wide::of(*n))))),
        Expr::Str(text) => Ok(given(thread, limited(alloc, Value::Text(text.copy()?))?)),
        Expr::Nothing => Ok(given(thread, Applied::Value(Value::Nothing))),
        Expr::True => Ok(given(thread, Applied::Value(Value::Bool(true)))),
        Expr::False => Ok(given(thread, Applied::Value(Value::Bool(false)))),
        _ => fail(alloc, thread, Fault::NotInProfile),
    }
}
