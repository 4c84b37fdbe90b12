//! Assignments and deletions (Language Reference 7.2 and 7.5).
ghost use Rattle.std.specs.Prelude.{◌≡◌, IfOk};
ghost use Rattle.meaning_script.specs.Meaning.{around_at};
ghost use Rattle.meaning_script.specs.Names.{stores};
ghost use Rattle.meaning_script.specs.Pieces.{with_one, with_two};
ghost use Rattle.meaning_script.specs.Statements.{refuses_item};
ghost use Rattle.py_frames.specs.Acts.{acts};
ghost use Rattle.step_simple.specs.Known.{assigns, assigns_item, assigns_member, deletes_known, removes, removes_member, sets_known};
ghost use Rattle.py_frames.specs.Does.{Does, pieces};

use crate::{delete_member, delete_name, set_member};
use base_types::{Exact, NoMemory, Seq, Text};
use meaning_state::{Fault, Thread};
use py_frames::{Item, Want, fail, is_cache, only, pair, triple};
use py_syntax::Expr;
use py_value::{Value, type_of};
use std::alloc::Global;

fn assign_name(
    alloc: Global,
    thread: &Thread,
    name: &Text,
    values: Seq<Value>,
) -> Result<Want, NoMemory>
    ensures { IfOk result (Does thread.now (pieces (λ w d. with_one values (λ v. stores name.now v)) thread.now)) }
{
    match only(values) {
        None => fail(alloc, thread, Fault::NotInProfile),
        Some(value) => Ok(Want::Then(Item::Store {
            name: name.copy()?,
            value,
        })),
    }
}

fn assign_member(
    alloc: Global,
    thread: &Thread,
    name: &Text,
    values: Seq<Value>,
) -> Result<Want, NoMemory>
    ensures { IfOk result (Does thread.now (acts (λ a. assigns_member a name.now values) thread.now)) }
{
    match pair(values) {
        None => fail(alloc, thread, Fault::NotInProfile),
        Some((value, object)) => set_member(alloc, thread, object, name.copy()?, value),
    }
}

/// Items of a list are not in the profile, and no other value has any that can be set or deleted.
fn refuse_item(alloc: Global, thread: &Thread, object: &Value) -> Result<Want, NoMemory>
    ensures { IfOk result (Does thread.now (pieces (λ w d. refuses_item object.now) thread.now)) }
{
    match object {
        Value::List(_) => fail(alloc, thread, Fault::NotInProfile),
        _ => fail(alloc, thread, Fault::NoItemAssignment(type_of(object))),
    }
}

/// An entry of the cache is set; no other value has any.
fn set_item(
    alloc: Global,
    thread: &Thread,
    object: &Value,
    index: Value,
    value: Value,
) -> Result<Want, NoMemory>
    ensures { IfOk result (Does thread.now (pieces (λ w d. sets_known object.now index value) thread.now)) }
{
    if is_cache(object) {
        return Ok(Want::Then(Item::SetEntry { key: index, value }));
    }
    refuse_item(alloc, thread, object)
}

fn assign_item(alloc: Global, thread: &Thread, values: Seq<Value>) -> Result<Want, NoMemory>
    ensures { IfOk result (Does thread.now (pieces (λ w d. assigns_item values) thread.now)) }
{
    match triple(values) {
        None => fail(alloc, thread, Fault::NotInProfile),
        Some((value, object, index)) => set_item(alloc, thread, &object, index, value),
    }
}

/// A value is assigned, which stands before the operands of the target.
pub fn assign(
    alloc: Global,
    thread: &Thread,
    target: &Expr,
    values: Seq<Value>,
) -> Result<Want, NoMemory>
    ensures { IfOk result (Does thread.now (pieces (λ w d. assigns (around_at w d) target.now values) thread.now)) }
{
    match target {
        Expr::Name(name) => assign_name(alloc, thread, name, values),
        Expr::Attribute(_, name) => assign_member(alloc, thread, name, values),
        Expr::Subscript(_, _) => assign_item(alloc, thread, values),
        _ => fail(alloc, thread, Fault::NotInProfile),
    }
}

fn remove_member(
    alloc: Global,
    thread: &Thread,
    name: &Text,
    values: Seq<Value>,
) -> Result<Want, NoMemory>
    ensures { IfOk result (Does thread.now (acts (λ a. removes_member a name.now values) thread.now)) }
{
    match only(values) {
        None => fail(alloc, thread, Fault::NotInProfile),
        Some(object) => delete_member(alloc, thread, object, name.copy()?),
    }
}

/// An entry of the cache is deleted; no other value has any.
fn delete_item(
    alloc: Global,
    thread: &Thread,
    object: &Value,
    index: Value,
) -> Result<Want, NoMemory>
    ensures { IfOk result (Does thread.now (pieces (λ w d. deletes_known object.now index) thread.now)) }
{
    if is_cache(object) {
        return Ok(Want::Then(Item::DeleteEntry(index)));
    }
    refuse_item(alloc, thread, object)
}

fn remove_item(alloc: Global, thread: &Thread, values: Seq<Value>) -> Result<Want, NoMemory>
    ensures { IfOk result (Does thread.now (pieces (λ w d. with_two values deletes_known) thread.now)) }
{
    match pair(values) {
        None => fail(alloc, thread, Fault::NotInProfile),
        Some((object, index)) => delete_item(alloc, thread, &object, index),
    }
}

/// What a target names is deleted.
pub fn remove(
    alloc: Global,
    thread: &mut Thread,
    target: &Expr,
    values: Seq<Value>,
) -> Result<Want, NoMemory>
    ensures { IfOk result (Does thread.new (pieces (λ w d. removes (around_at w d) target.now values) thread.old)) }
{
    match target {
        Expr::Name(name) => delete_name(alloc, thread, name.copy()?),
        Expr::Attribute(_, name) => remove_member(alloc, thread, name, values),
        Expr::Subscript(_, _) => remove_item(alloc, thread, values),
        _ => fail(alloc, thread, Fault::NotInProfile),
    }
}
