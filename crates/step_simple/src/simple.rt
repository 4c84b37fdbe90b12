//! Simple statements on the values of their operands (Language Reference chapter 7).
ghost use Rattle.std.specs.Prelude.{◌≡◌, IfOk, Some, slice_get};
ghost use Rattle.meaning_script.specs.Meaning.{around_at};
ghost use Rattle.py_frames.specs.Acts.{acts};
ghost use Rattle.step_simple.specs.Known.{performs, performs_some, place_some};
ghost use Rattle.py_frames.specs.Does.{Does, begins, pieces};
ghost use Rattle.py_frames.specs.declared.work.Item.TheVariants as items;

use crate::placing::place_of;
use crate::raising::{raise, return_value};
use crate::targets::{assign, remove};
use base_owners::Shared;
use base_types::{Exact, NoMemory, Seq};
use meaning_state::{Fault, Flow, Leave, Thread};
use py_frames::{Item, Want, fail, list_operand, went};
use py_syntax::Stmt;
use py_value::Value;
use std::alloc::Global;

/// What a simple statement does.
fn perform_form(
    alloc: Global,
    thread: &mut Thread,
    stmt: &Stmt,
    values: Seq<Value>,
) -> Result<Want, NoMemory>
    ensures { IfOk result (Does thread.new (pieces (λ w d. performs (around_at w d) stmt.now values) thread.old)) }
{
    match stmt {
        Stmt::Evaluate(_) | Stmt::Pass => Ok(went(thread, Value::Nothing)),
        Stmt::Assign(target, _) => assign(alloc, thread, target.get(), values),
        Stmt::Augment(name, op, _) => Ok(Want::Pay {
            of_tree: false,
            units: 1,
            item: Item::Augment {
                name: name.copy()?,
                op: *op,
                values,
            },
        }),
        Stmt::Delete(target) => remove(alloc, thread, target.get(), values),
        Stmt::Break => Ok(Want::Go(Flow::Left(Leave::Break))),
        Stmt::Continue => Ok(Want::Go(Flow::Left(Leave::Continue))),
        Stmt::Return(_) => return_value(alloc, thread, values),
        Stmt::Raise(_) => raise(alloc, thread, values),
        _ => fail(alloc, thread, Fault::NotInProfile),
    }
}

/// A simple statement, at its place in its block, on operands that have values of their own.
fn perform_known(
    alloc: Global,
    thread: &mut Thread,
    stmts: &Seq<Stmt>,
    at: usize,
    values: Seq<Value>,
) -> Result<Want, NoMemory>
    ensures { IfOk result (Does thread.new (acts (λ a. performs_some a (slice_get stmts.now at) values) thread.old)) }
{
    match stmts.get(at) {
        None => fail(alloc, thread, Fault::NotInProfile),
        Some(stmt) => perform_form(alloc, thread, stmt, values),
    }
}

/// A list comes in place of the operand at this place, or it is none.
fn perform_listed(
    alloc: Global,
    thread: &Thread,
    stmts: Shared<Seq<Stmt>>,
    at: usize,
    values: Seq<Value>,
    place: usize,
) -> Result<Want, NoMemory>
    requires place { place_some (slice_get stmts at) values ≡ Some place }
    ensures { IfOk result (Does thread.now (begins (items.Perform stmts at values) thread.now)) }
{
    let value = match values.get(place) {
        None => return fail(alloc, thread, Fault::NotInProfile),
        Some(value) => value.copy()?,
    };
    list_operand(
        alloc,
        thread,
        Item::Perform { stmts, at, values },
        place,
        value,
    )
}

/// A simple statement, at its place in its block, on the values of its operands.
pub fn perform(
    alloc: Global,
    thread: &mut Thread,
    stmts: Shared<Seq<Stmt>>,
    at: usize,
    values: Seq<Value>,
) -> Result<Want, NoMemory>
    ensures { IfOk result (Does thread.new (begins (items.Perform stmts at values) thread.old)) }
{
    match place_of(stmts.get(), at, &values) {
        None => perform_known(alloc, thread, stmts.get(), at, values),
        Some(place) => perform_listed(alloc, thread, stmts, at, values, place),
    }
}
