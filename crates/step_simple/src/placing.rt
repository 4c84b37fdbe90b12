//! The operand of a simple statement in whose place a list comes, or which is none.
ghost use Rattle.std.specs.Prelude.{◌≡◌, [], ◌∷◌, None, Some, slice_get};
ghost use Rattle.py_syntax.specs.declared.expr.Expr.{out-Expr};
ghost use Rattle.py_syntax.specs.declared.stmt.Stmt.{out-Stmt};
ghost use Rattle.step_simple.specs.Known as spec;

use base_types::Seq;
use py_frames::is_listed;
use py_syntax::{Expr, Stmt};
use py_value::Value;

/// Whether a value stands for the search path.
fn is_path(value: &Value) -> bool
    ensures { result ≡ spec.is_path value.now }
{
    match value {
        Value::SysPath => true,
        _ => false,
    }
}

fn place_behind(values: &Seq<Value>) -> Option<usize>
    ensures { result ≡ spec.place_behind values.now }
{
    match values.as_slice() {
        [_, object, _] if is_path(object) => Some(1),
        _ => None,
    }
}

fn place_before(values: &Seq<Value>) -> Option<usize>
    ensures { result ≡ spec.place_before values.now }
{
    match values.as_slice() {
        [object, _] if is_path(object) => Some(0),
        _ => None,
    }
}

fn place_of_one(values: &Seq<Value>) -> Option<usize>
    ensures { result ≡ spec.place_of_one values.now }
{
    match values.as_slice() {
        [value] if is_listed(value) => Some(0),
        _ => None,
    }
}

fn place_assigned(target: &Expr, values: &Seq<Value>) -> Option<usize>
    ensures { result ≡ spec.place_assigned (out-Expr target.now) values.now }
{
    match target {
        Expr::Subscript(_, _) => place_behind(values),
        _ => None,
    }
}

fn place_removed(target: &Expr, values: &Seq<Value>) -> Option<usize>
    ensures { result ≡ spec.place_removed (out-Expr target.now) values.now }
{
    match target {
        Expr::Subscript(_, _) => place_before(values),
        _ => None,
    }
}

fn place_in(stmt: &Stmt, values: &Seq<Value>) -> Option<usize>
    ensures { result ≡ spec.place_at (out-Stmt stmt.now) values.now }
{
    match stmt {
        Stmt::Assign(target, _) => place_assigned(target.get(), values),
        Stmt::Delete(target) => place_removed(target.get(), values),
        Stmt::Raise(_) => place_of_one(values),
        _ => None,
    }
}

/// The place of the operand of a statement in whose place a list comes, or which is none.
pub fn place_of(stmts: &Seq<Stmt>, at: usize, values: &Seq<Value>) -> Option<usize>
    ensures { result ≡ spec.place_some (slice_get stmts.now at) values.now }
{
    match stmts.get(at) {
        None => None,
        Some(stmt) => place_in(stmt, values),
    }
}
