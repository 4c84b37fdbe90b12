//! Operands of an expression, for as long as they have values at once.
ghost use Rattle.std.specs.Prelude.{◌≡◌, None, Some, length, slice_get, true};
ghost use Rattle.std.specs.Option.{option_copied};
ghost use Rattle.py_syntax.specs.declared.expr.Expr.{out-Expr};
ghost use Rattle.meaning_script.specs.Operators.{operands_at};
ghost use Rattle.py_frames.specs.declared.work.Form.TheVariants.{Expression};
ghost use Rattle.py_frames.specs.declared.work.Item.TheVariants as items;
ghost use Rattle.drive_straight.specs.Remains.{Leads, attribute_name, begins};
ghost use Rattle.step_expressions.specs.OperatorForms.{is_call};

use crate::execution::Execution;
use crate::names::reach;
use crate::next::Next;
use crate::paying::afford;
use base_owners::{Boxed, Shared};
use base_types::{Exact, NoMemory, Seq, Text};
use py_frames::{Form, Frame, Item};
use py_syntax::Expr;
use py_value::Value;
use std::alloc::Global;
use step_straight::atom;

/// An operand of an expression.
fn operand_of(expr: &Expr, at: usize) -> Option<&Shared<Expr>>
    ensures { option_copied result ≡ slice_get (operands_at (out-Expr expr.now)) at }
{
    match expr {
        Expr::Tuple(items) | Expr::List(items) => items.get().get(at),
        Expr::Attribute(a, _) | Expr::Negative(a) | Expr::Not(a) => match at {
            0 => Some(a),
            _ => None,
        },
        Expr::Call(callee, arguments) => match at {
            0 => Some(callee),
            _ => arguments.get().get(at - 1),
        },
        Expr::Subscript(a, b) | Expr::Binary(_, a, b) | Expr::Compare(_, a, b) => match at {
            0 => Some(a),
            1 => Some(b),
            _ => None,
        },
        _ => None,
    }
}

/// A call whose operands have values, and whose unit is paid.
fn call(execution: &mut Execution, expr: Shared<Expr>, values: Seq<Value>) -> Result<Next, NoMemory>
    requires form { is_call (out-Expr expr) ≡ true }
    ensures moves { Leads execution.old (begins (items.Apply expr values)) execution.new result }
    ensures held { execution.new.held ≡ execution.old.held }
{
    if values.is_empty() {
        return Ok(Next::Apply { expr, values });
    }
    let mut arguments = values;
    let callee = arguments.remove(0);
    execution.work.push(Frame::Sized)?;
    Ok(Next::Call { callee, arguments })
}

fn is_call(expr: &Expr) -> bool
    ensures { result ≡ is_call (out-Expr expr.now) }
{
    match expr {
        Expr::Call(_, _) => true,
        _ => false,
    }
}

/// The name of an attribute.
fn attribute_name(expr: &Expr) -> Option<&Text>
    ensures { option_copied result ≡ attribute_name (out-Expr expr.now) }
{
    match expr {
        Expr::Attribute(_, name) => Some(name),
        _ => None,
    }
}

/// An attribute whose object has a value, and whose unit is paid. That of a module is asked for.
fn member(
    execution: &mut Execution,
    expr: Shared<Expr>,
    name: Text,
    values: Seq<Value>,
) -> Result<Next, NoMemory>
    requires form { attribute_name (out-Expr expr) ≡ Some name }
    ensures moves { Leads execution.old (begins (items.Apply expr values)) execution.new result }
    ensures held { execution.new.held ≡ execution.old.held }
{
    if values.len() != 1 {
        return Ok(Next::Apply { expr, values });
    }
    let module = match values.get(0) {
        Some(Value::Module(module)) => module.copy()?,
        _ => return Ok(Next::Apply { expr, values }),
    };
    execution.work.push(Frame::Sized)?;
    Ok(Next::Member(module, name))
}

/// All operands have values: the unit of the expression is paid, and it is applied to them.
fn apply(
    alloc: Global,
    execution: &mut Execution,
    expr: Shared<Expr>,
    values: Seq<Value>,
) -> Result<Next, NoMemory>
    requires all { slice_get (operands_at (out-Expr expr)) (length values) ≡ None }
    ensures moves { Leads execution.old (begins (items.Operands (Expression expr) values)) execution.new result }
    ensures held { execution.new.held ≡ execution.old.held }
{
    if !afford(&mut execution.budget, 1) {
        let form = Form::Expression(expr);
        return Ok(Next::Piece(Boxed::new(alloc, Item::Operands { form, done: values })?));
    }
    if is_call(expr.get()) {
        return call(execution, expr, values);
    }
    match attribute_name(expr.get()) {
        None => Ok(Next::Apply { expr, values }),
        Some(name) => {
            let name = name.copy()?;
            member(execution, expr, name, values)
        }
    }
}

/// The operands of an expression that have no values yet, for as long as they have some at once, and then the
/// expression. Each is paid for when it has its value.
pub fn gather(
    alloc: Global,
    execution: &mut Execution,
    expr: Shared<Expr>,
    done: Seq<Value>,
) -> Result<Next, NoMemory>
    ensures moves { Leads execution.old (begins (items.Operands (Expression expr) done)) execution.new result }
    ensures held { execution.new.held ≡ execution.old.held }
{
    let mut values = done;
    'operands: while let Some(operand) = operand_of(expr.get(), values.len()) {
        match atom(alloc, &execution.thread, operand.get())? {
            None => {
                let operand = operand.share()?;
                let form = Form::Expression(expr);
                execution.work.push(Frame::Operands { form, done: values })?;
                return reach(alloc, execution, operand);
            }
            Some(bought) => {
                if !afford(&mut execution.budget, bought.units) {
                    let form = Form::Expression(expr);
                    return Ok(Next::Piece(Boxed::new(
                        alloc,
                        Item::Operands { form, done: values },
                    )?));
                }
                values.push(bought.value)?;
            }
        }
    }
    apply(alloc, execution, expr, values)
}
