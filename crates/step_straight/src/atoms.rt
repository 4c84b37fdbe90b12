//! Atoms (Language Reference 6.2).
ghost use Rattle.std.specs.Prelude.{◌≡◌, IfOk, IfSome, true};
ghost use Rattle.py_syntax.specs.declared.expr.Expr.{out-Expr};
ghost use Rattle.meaning_state.specs.declared.flow.Flow.TheVariants.{Went};
ghost use Rattle.meaning_script.specs.Names.{Access, reads};
ghost use Rattle.meaning_script.specs.Pieces.{Onward};
ghost use Rattle.step_straight.specs.Comes.{Gives, IsAtomOf};

use base_types::{Exact, NoMemory, Text, Wide};
use meaning_state::Thread;
use py_syntax::Expr;
use py_value::{Applied, Value, size};
use std::alloc::Global;
use value_operators::limited;

/// A value, and what its expression pays for it.
#[derive(Drop)]
pub struct Bought {
    pub value: Value,
    pub units: u64,
}

/// The value of a local variable. None where the name is no local one, or has no value.
fn local(thread: &Thread, name: &Text) -> Result<Option<Value>, NoMemory>
    ensures { IfOk result (λ found. IfSome found (λ value. (access : Access) (k : Onward)
        → reads access name.now thread.now.state k ≡ k (Went value) thread.now.state)) }
{
    match &thread.state.scope.function {
        None => Ok(None),
        Some(scope) => {
            if !scope.function.is_local(name) {
                return Ok(None);
            }
            match scope.locals.get(name) {
                None => Ok(None),
                Some(value) => Ok(Some(value.copy()?)),
            }
        }
    }
}

/// The value of an atom, where it has one without an event.
fn atom_value(alloc: Global, thread: &Thread, expr: &Expr) -> Result<Option<Value>, NoMemory>
    ensures { IfOk result (λ found. IfSome found (λ value. IsAtomOf expr.now thread.now.state value)) }
{
    match expr {
        Expr::Name(name) => local(thread, name),
        Expr::Number(n) => Ok(Some(Value::Int(Wide::of(*n)))),
        Expr::Str(text) => match limited(alloc, Value::Text(text.copy()?))? {
            Applied::Value(value) => Ok(Some(value)),
            Applied::Raised(_) => Ok(None),
        },
        Expr::Nothing => Ok(Some(Value::Nothing)),
        Expr::True => Ok(Some(Value::Bool(true))),
        Expr::False => Ok(Some(Value::Bool(false))),
        _ => Ok(None),
    }
}

/// The value of an atom, with the unit of the atom and the size of the value. None where it has none without an event,
/// and where the sum does not fit.
#[tactic(auto, using(crate::proofs::AtomCosts::gives_atom))]
pub fn atom(alloc: Global, thread: &Thread, expr: &Expr) -> Result<Option<Bought>, NoMemory>
    ensures { IfOk result (λ found. IfSome found (λ it. Gives expr.now thread.now.state it.value it.units)) }
{
    match atom_value(alloc, thread, expr)? {
        None => Ok(None),
        Some(value) => match size(&value).checked_add(1) {
            None => Ok(None),
            Some(units) => Ok(Some(Bought { value, units })),
        },
    }
}
