//! Operands from left to right.
ghost use Rattle.std.specs.Prelude.{◌≡◌, IfOk, [], ◌∷◌, slice_get};
ghost use Rattle.py_syntax.specs.declared.expr.Expr.{out-Expr};
ghost use Rattle.py_syntax.specs.declared.expr.Expr.TheVariants as trees;
ghost use Rattle.py_syntax.specs.declared.stmt.Stmt.{out-Stmt};
ghost use Rattle.meaning_script.specs.Operators.{operands_at};
ghost use Rattle.meaning_script.specs.Statements.{target_operands, stmt_operands_at, optional};
ghost use Rattle.meaning_script.specs.Meaning.{around_at};
ghost use Rattle.py_frames.specs.Does.{Does, pieces, begins, goes_on, arguments_of, completes, operands_of, operands_of_stmt};
ghost use Rattle.py_frames.specs.declared.work.Item.TheVariants as items;
ghost use Rattle.py_frames.specs.declared.work.Frame.TheVariants as frames;

use base_owners::Shared;
use base_types::{Exact, NoMemory, Seq, Text};
use meaning_state::{Flow, Thread};
use py_frames::{Form, Frame, Item, Want};
use py_syntax::{Expr, Stmt};
use py_value::Value;
use std::alloc::Global;

type Operand = Option<Shared<Expr>>;

fn first(a: &Shared<Expr>, at: usize) -> Result<Operand, NoMemory>
    ensures { IfOk result (λ found. found ≡ slice_get (a.now ∷ []) at) }
{
    if at == 0 {
        return Ok(Some(a.share()?));
    }
    Ok(None)
}

fn among(items: &Seq<Shared<Expr>>, at: usize) -> Result<Operand, NoMemory>
    ensures { IfOk result (λ found. found ≡ slice_get items.now at) }
{
    match items.get(at) {
        None => Ok(None),
        Some(item) => Ok(Some(item.share()?)),
    }
}

fn first_or_second(a: &Shared<Expr>, b: &Shared<Expr>, at: usize) -> Result<Operand, NoMemory>
    ensures { IfOk result (λ found. found ≡ slice_get (a.now ∷ b.now ∷ []) at) }
{
    if at == 0 {
        return Ok(Some(a.share()?));
    }
    first(b, at - 1)
}

fn first_or_among(
    a: &Shared<Expr>,
    others: &Seq<Shared<Expr>>,
    at: usize,
) -> Result<Operand, NoMemory>
    ensures { IfOk result (λ found. found ≡ slice_get (a.now ∷ others.now) at) }
{
    if at == 0 {
        return Ok(Some(a.share()?));
    }
    among(others, at - 1)
}

/// An operand of an expression.
fn of_expr(expr: &Expr, at: usize) -> Result<Operand, NoMemory>
    ensures { IfOk result (λ found. found ≡ slice_get (operands_at (out-Expr expr.now)) at) }
{
    match expr {
        Expr::Tuple(items) | Expr::List(items) => among(items, at),
        Expr::Attribute(object, _) => first(object, at),
        Expr::Call(callee, arguments) => first_or_among(callee, arguments, at),
        Expr::Subscript(object, index) => first_or_second(object, index, at),
        Expr::Negative(a) | Expr::Not(a) => first(a, at),
        Expr::Binary(_, a, b) => first_or_second(a, b, at),
        Expr::Compare(_, a, b) => first_or_second(a, b, at),
        _ => Ok(None),
    }
}

/// An operand of a target.
fn of_target(target: &Expr, at: usize) -> Result<Operand, NoMemory>
    ensures { IfOk result (λ found. found ≡ slice_get (target_operands target.now) at) }
{
    match target {
        Expr::Attribute(object, _) => first(object, at),
        Expr::Subscript(object, index) => first_or_second(object, index, at),
        _ => Ok(None),
    }
}

fn of_option(expr: &Option<Shared<Expr>>, at: usize) -> Result<Operand, NoMemory>
    ensures { IfOk result (λ found. found ≡ slice_get (optional expr.now) at) }
{
    match expr {
        None => Ok(None),
        Some(expr) => first(expr, at),
    }
}

/// An operand of an assignment.
fn of_assignment(target: &Expr, value: &Shared<Expr>, at: usize) -> Result<Operand, NoMemory>
    ensures { IfOk result (λ found. found ≡ slice_get (value.now ∷ target_operands target.now) at) }
{
    if at == 0 {
        return Ok(Some(value.share()?));
    }
    of_target(target, at - 1)
}

/// An operand of an augmented assignment, of which the name is the first.
fn of_augmented(
    alloc: Global,
    name: &Text,
    value: &Shared<Expr>,
    at: usize,
) -> Result<Operand, NoMemory>
    ensures { IfOk result (λ found. found ≡ slice_get (trees.Name name.now ∷ value.now ∷ []) at) }
{
    if at == 0 {
        return Ok(Some(Shared::new(alloc, Expr::Name(name.copy()?))?));
    }
    first(value, at - 1)
}

/// An operand of a simple statement.
fn of_stmt(alloc: Global, stmt: &Stmt, at: usize) -> Result<Operand, NoMemory>
    ensures { IfOk result (λ found. found ≡ slice_get (stmt_operands_at (out-Stmt stmt.now)) at) }
{
    match stmt {
        Stmt::Evaluate(expr) => first(expr, at),
        Stmt::Assign(target, value) => of_assignment(target, value, at),
        Stmt::Augment(name, _, value) => of_augmented(alloc, name, value, at),
        Stmt::Delete(target) => of_target(target, at),
        Stmt::Return(expr) => of_option(expr, at),
        Stmt::Raise(expr) => of_option(expr, at),
        _ => Ok(None),
    }
}

/// An argument of a call.
fn argument(expr: &Expr, at: usize) -> Result<Operand, NoMemory>
    ensures { IfOk result (λ found. found ≡ slice_get (arguments_of expr.now) at) }
{
    match expr {
        Expr::Call(_, arguments) => among(arguments, at),
        _ => Ok(None),
    }
}

/// An operand of a form.
fn operand(alloc: Global, form: &Form, at: usize) -> Result<Operand, NoMemory>
    ensures { IfOk result (λ found. found ≡ slice_get (operands_of form.now) at) }
{
    match form {
        Form::Expression(expr) => of_expr(expr, at),
        Form::Statement(stmts, place) => match stmts.get().get(*place) {
            None => Ok(None),
            Some(stmt) => of_stmt(alloc, stmt, at),
        },
        Form::Method(expr, _) => argument(expr, at),
    }
}

/// A form whose operands have values.
fn complete(thread: &Thread, form: Form, values: Seq<Value>) -> Want
    ensures { Does thread.now (pieces (λ w d. completes (around_at w d) form values) thread.now) result }
{
    let _ = thread;
    match form {
        Form::Expression(expr) => Want::Pay {
            of_tree: false,
            units: 1,
            item: Item::Apply { expr, values },
        },
        Form::Statement(stmts, at) => Want::Then(Item::Perform { stmts, at, values }),
        Form::Method(expr, object) => Want::Pay {
            of_tree: false,
            units: 1,
            item: Item::Method {
                expr,
                object,
                values,
            },
        },
    }
}

/// The operands of a form that have no values yet, and then the form.
pub fn operands(
    alloc: Global,
    thread: &Thread,
    form: Form,
    done: Seq<Value>,
) -> Result<Want, NoMemory>
    ensures { IfOk result (Does thread.now (begins (items.Operands form done) thread.now)) }
{
    match operand(alloc, &form, done.len())? {
        None => Ok(complete(thread, form, done)),
        Some(expr) => Ok(Want::Both(Item::Eval(expr), Frame::Operands { form, done })),
    }
}

/// The next operand has a value, or a leave comes in its place.
pub fn operand_value(
    alloc: Global,
    thread: &Thread,
    form: Form,
    done: Seq<Value>,
    flow: Flow,
) -> Result<Want, NoMemory>
    ensures { IfOk result (Does thread.now (goes_on (frames.Operands form done) flow thread.now)) }
{
    match flow {
        Flow::Left(leave) => Ok(Want::Go(Flow::Left(leave))),
        Flow::Went(value) => {
            let mut values = done;
            values.push(value)?;
            operands(alloc, thread, form, values)
        }
    }
}
