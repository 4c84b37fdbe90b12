//! Augmented assignments (Language Reference 7.2.1).
ghost use Rattle.std.specs.Prelude.{◌≡◌, IfOk, [], ◌∷◌, Some};
ghost use Rattle.value_operators.specs.Arithmetic as arithmetic;
ghost use Rattle.meaning_script.specs.Operators as spec;
ghost use Rattle.py_frames.specs.Listing.{first_listed};
ghost use Rattle.step_expressions.specs.OperatorForms.{augmented_by, by_two, two_of};
ghost use Rattle.py_frames.specs.Does.{Does, pieces, begins};
ghost use Rattle.py_frames.specs.declared.work.Item.TheVariants as items;

use crate::applying::operator_of;
use crate::values::two;
use base_types::{Exact, NoMemory, Seq, Text};
use meaning_state::{Fault, Flow, Leave, Thread};
use py_frames::{Item, Want, fail, first_listed, list_operand};
use py_syntax::BinaryOp;
use py_value::{Applied, Value, size};
use std::alloc::Global;
use value_operators::augmented;

/// An augmented assignment on its two values.
fn augment_two(
    alloc: Global,
    thread: &Thread,
    name: Text,
    op: BinaryOp,
    values: Seq<Value>,
) -> Result<Want, NoMemory>
    ensures { IfOk result (Does thread.now (pieces (λ w d. augmented_by name op (two_of values)) thread.now)) }
{
    let (a, b) = match two(values) {
        None => return fail(alloc, thread, Fault::NotInProfile),
        Some(both) => both,
    };
    let applied = augmented(alloc, operator_of(op), &a, &b);
    drop(a);
    drop(b);
    match applied? {
        Applied::Value(value) => {
            let units = size(&value);
            Ok(Want::Pay {
                of_tree: false,
                units,
                item: Item::Store { name, value },
            })
        }
        Applied::Raised(error) => Ok(Want::Go(Flow::Left(Leave::Raised(error)))),
    }
}

/// The value at this place is the first in whose place a list comes, or which is none.
fn augment_listed(
    alloc: Global,
    thread: &Thread,
    name: Text,
    op: BinaryOp,
    values: Seq<Value>,
    at: usize,
) -> Result<Want, NoMemory>
    requires place { first_listed values ≡ Some at }
    ensures { IfOk result (Does thread.now (begins (items.Augment name op values) thread.now)) }
{
    let value = match values.get(at) {
        None => return fail(alloc, thread, Fault::NotInProfile),
        Some(value) => value.copy()?,
    };
    list_operand(alloc, thread, Item::Augment { name, op, values }, at, value)
}

/// An augmented assignment, once its operator's unit is paid.
pub fn augment(
    alloc: Global,
    thread: &Thread,
    name: Text,
    op: BinaryOp,
    values: Seq<Value>,
) -> Result<Want, NoMemory>
    ensures { IfOk result (Does thread.now (begins (items.Augment name op values) thread.now)) }
{
    match first_listed(&values) {
        None => augment_two(alloc, thread, name, op, values),
        Some(at) => augment_listed(alloc, thread, name, op, values, at),
    }
}
