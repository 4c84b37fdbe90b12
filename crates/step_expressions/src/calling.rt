//! Calls whose callee is an attribute, which may be a method.
ghost use Rattle.std.specs.Prelude.{◌≡◌, IfOk, [], Some};
ghost use Rattle.py_syntax.specs.declared.expr.Expr.{out-Expr};
ghost use Rattle.meaning_script.specs.Meaning.{around_at};
ghost use Rattle.meaning_script.specs.Methods.{has_method};
ghost use Rattle.step_expressions.specs.Forms.{arguments_in, attribute_in, reads_callee};
ghost use Rattle.py_frames.specs.Does.{Does, pieces, begins, goes_on, arguments_of, attribute_name, method_name};
ghost use Rattle.py_frames.specs.declared.work.Item.TheVariants as items;
ghost use Rattle.py_frames.specs.declared.work.Frame.TheVariants as frames;

use crate::methods::has_method;
use base_owners::Shared;
use base_types::{Exact, NoMemory, Seq, Text};
use meaning_state::{Flow, Thread};
use py_frames::{Form, Frame, Item, Want};
use py_syntax::Expr;
use py_value::Value;
use std::alloc::Global;

/// The object of the attribute that a call names has a value, or a leave comes in its place.
pub fn callee(thread: &Thread, expr: Shared<Expr>, flow: Flow) -> Want
    ensures { Does thread.now (goes_on (frames.Callee expr) flow thread.now) result }
{
    let _ = thread;
    match flow {
        Flow::Left(leave) => Want::Go(Flow::Left(leave)),
        Flow::Went(object) => Want::Pay {
            of_tree: false,
            units: 1,
            item: Item::Callee { expr, object },
        },
    }
}

fn has_attribute(callee: &Expr, object: &Value) -> bool
    ensures { result ≡ has_method object.now (attribute_name (out-Expr callee.now)) }
{
    match callee {
        Expr::Attribute(_, name) => has_method(object, name.as_str()),
        _ => has_method(object, ""),
    }
}

/// Whether a call names a method of the object.
fn is_method(expr: &Expr, object: &Value) -> bool
    ensures { result ≡ has_method object.now (method_name expr.now) }
{
    match expr {
        Expr::Call(callee, _) => has_attribute(callee.get(), object),
        _ => has_method(object, ""),
    }
}

/// An attribute without a name, which no script has.
fn nameless(alloc: Global) -> Result<Shared<Expr>, NoMemory>
    ensures { IfOk result (λ callee. attribute_in (out-Expr callee) ≡ Some []) }
{
    let object = Shared::new(alloc, Expr::Nothing)?;
    Shared::new(alloc, Expr::Attribute(object, Text::new(alloc)))
}

/// The attribute that is called.
fn attribute_of(alloc: Global, callee: &Shared<Expr>) -> Result<Shared<Expr>, NoMemory>
    ensures { IfOk result (λ found. attribute_in (out-Expr found) ≡ Some (attribute_name (out-Expr callee.now))) }
{
    match callee.get() {
        Expr::Attribute(_, _) => callee.share(),
        _ => nameless(alloc),
    }
}

/// The attribute that a call names.
fn callee_of(alloc: Global, expr: &Expr) -> Result<Shared<Expr>, NoMemory>
    ensures { IfOk result (λ found. attribute_in (out-Expr found) ≡ Some (method_name expr.now)) }
{
    match expr {
        Expr::Call(callee, _) => attribute_of(alloc, callee),
        _ => nameless(alloc),
    }
}

/// A call with the same arguments.
fn call_of(alloc: Global, expr: Shared<Expr>) -> Result<Shared<Expr>, NoMemory>
    ensures { IfOk result (λ found. arguments_in (out-Expr found) ≡ Some (arguments_of expr)) }
{
    match expr.get() {
        Expr::Call(_, _) => Ok(expr),
        _ => {
            let none = Shared::new(alloc, Seq::new(alloc))?;
            Shared::new(alloc, Expr::Call(expr, none))
        }
    }
}

/// The attribute that a call names is read, and then called.
fn read_callee(
    alloc: Global,
    thread: &Thread,
    expr: Shared<Expr>,
    object: Value,
) -> Result<Want, NoMemory>
    ensures { IfOk result (Does thread.now (pieces (λ w d. reads_callee (around_at w d) expr object) thread.now)) }
{
    let _ = thread;
    let callee = callee_of(alloc, expr.get())?;
    let call = call_of(alloc, expr)?;
    let mut values = Seq::new(alloc);
    values.push(object)?;
    let rest = Frame::Operands {
        form: Form::Expression(call),
        done: Seq::new(alloc),
    };
    Ok(Want::Both(
        Item::Apply {
            expr: callee,
            values,
        },
        rest,
    ))
}

/// The attribute of this object that a call names, once its unit is paid, and then the call.
pub fn call_callee(
    alloc: Global,
    thread: &Thread,
    expr: Shared<Expr>,
    object: Value,
) -> Result<Want, NoMemory>
    ensures { IfOk result (Does thread.now (begins (items.Callee expr object) thread.now)) }
{
    if is_method(expr.get(), &object) {
        return Ok(Want::Then(Item::Operands {
            form: Form::Method(expr, object),
            done: Seq::new(alloc),
        }));
    }
    read_callee(alloc, thread, expr, object)
}
