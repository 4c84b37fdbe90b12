//! The operand of an operator in whose place a list comes first, or which is none.
ghost use Rattle.std.specs.Prelude.{◌≡◌, [], ◌∷◌, None, Some};
ghost use Rattle.py_syntax.specs.declared.expr.Expr.{out-Expr};
ghost use Rattle.step_expressions.specs.OperatorForms as spec;

use base_types::Seq;
use py_frames::{first_listed, is_cache};
use py_syntax::{Comparison, Expr};
use py_value::Value;

fn place_of_one(values: &Seq<Value>) -> Option<usize>
    ensures { result ≡ spec.place_of_one values.now }
{
    match values.as_slice() {
        [_] => first_listed(values),
        _ => None,
    }
}

fn place_in_item(values: &Seq<Value>) -> Option<usize>
    ensures { result ≡ spec.place_in_item values.now }
{
    match values.as_slice() {
        [value, _] if !is_cache(value) => first_listed(values),
        _ => None,
    }
}

fn place_of_two(values: &Seq<Value>) -> Option<usize>
    ensures { result ≡ spec.place_of_two values.now }
{
    match values.as_slice() {
        [_, _] => first_listed(values),
        _ => None,
    }
}

fn place_in_cache(values: &Seq<Value>) -> Option<usize>
    ensures { result ≡ spec.place_in_cache values.now }
{
    match values.as_slice() {
        [_, container] if !is_cache(container) => first_listed(values),
        _ => None,
    }
}

fn place_compared(op: Comparison, values: &Seq<Value>) -> Option<usize>
    ensures { result ≡ spec.place_compared op values.now }
{
    match op {
        Comparison::In | Comparison::NotIn => place_in_cache(values),
        _ => place_of_two(values),
    }
}

/// The place of an operator's first operand in whose place a list comes, or which is none.
pub fn place_of(expr: &Expr, values: &Seq<Value>) -> Option<usize>
    ensures { result ≡ spec.place_at (out-Expr expr.now) values.now }
{
    match expr {
        Expr::Subscript(_, _) => place_in_item(values),
        Expr::Negative(_) | Expr::Not(_) => place_of_one(values),
        Expr::Binary(_, _, _) => first_listed(values),
        Expr::Compare(op, _, _) => place_compared(*op, values),
        _ => None,
    }
}
