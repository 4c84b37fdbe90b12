//! `sys.path` as an operand: a list comes in its place. `sys.modules` is no operand.
ghost use Rattle.std.specs.Prelude.{◌≡◌, slice_set, IfOk, true};
ghost use Rattle.meaning_script.specs.Pieces as words;
ghost use Rattle.py_frames.specs.Listing as spec;
ghost use Rattle.py_frames.specs.Does.{Does, begins, goes_on, item_piece, pieces, replies, with_operand};
ghost use Rattle.py_frames.specs.declared.work.Item.TheVariants as items;
ghost use Rattle.py_frames.specs.declared.work.Frame.TheVariants as frames;
ghost use Rattle.py_frames.specs.declared.replies.OnReply.TheVariants as ons;

use crate::ways::{fail, went};
use crate::{Frame, Item, OnReply, Want};
use base_owners::Boxed;
use base_types::{NoMemory, Seq};
use machine_events::{Event, Reply};
use meaning_state::{Fault, Flow, Thread};
use py_value::Value;
use std::alloc::Global;

/// Whether a list comes in the value's place where it is an operand, or it is none.
pub fn is_listed(value: &Value) -> bool
    ensures { result ≡ spec.is_listed value.now }
{
    match value {
        Value::SysPath | Value::SysModules => true,
        _ => false,
    }
}

/// The place of the first such value.
pub fn first_listed(values: &Seq<Value>) -> Option<usize>
    ensures { result ≡ spec.first_listed values.now }
{
    values.as_slice().iter().position(|value| is_listed(value))
}

/// The search path is an operand.
pub fn search_path(thread: &Thread) -> Want
    ensures { Does thread.now (begins items.SearchPath thread.now) result }
{
    let _ = thread;
    Want::Call(Event::PathGet, OnReply::SearchPath)
}

/// The search path was read: its list is the operand.
pub fn search_path_read(alloc: Global, thread: &Thread, reply: Reply) -> Result<Want, NoMemory>
    ensures { IfOk result (Does thread.now (replies ons.SearchPath reply thread.now)) }
{
    match reply {
        Reply::Path(items) => Ok(went(thread, Value::List(items))),
        other => {
            drop(other);
            fail(alloc, thread, Fault::NotInProfile)
        }
    }
}

/// The operand at this place of a piece of work is the value, in whose place a list comes or which is
/// none; then the piece of work.
pub fn list_operand(
    alloc: Global,
    thread: &Thread,
    item: Item,
    at: usize,
    value: Value,
) -> Result<Want, NoMemory>
    requires is_listed { spec.is_listed value ≡ true }
    ensures { IfOk result (Does thread.now (pieces (λ w d. words.listed value
        (λ v. item_piece w d (with_operand item at v))) thread.now)) }
{
    match value {
        Value::SysPath => {
            let item = Boxed::new(alloc, item)?;
            Ok(Want::Both(Item::SearchPath, Frame::Listed { item, at }))
        }
        other => {
            drop(other);
            drop(item);
            fail(alloc, thread, Fault::NotInProfile)
        }
    }
}

/// The values with another one at a place, where there is one.
fn with_value(values: Seq<Value>, at: usize, value: Value) -> Seq<Value>
    ensures { result ≡ slice_set values at value }
{
    let mut values = values;
    if at < values.len() {
        values.set(at, value);
    } else {
        drop(value);
    }
    values
}

/// A piece of work with this value as the operand at a place.
fn with_operand(item: Item, at: usize, value: Value) -> Item
    ensures { result ≡ with_operand item at value }
{
    match item {
        Item::Apply { expr, values } => {
            let values = with_value(values, at, value);
            Item::Apply { expr, values }
        }
        Item::Augment { name, op, values } => {
            let values = with_value(values, at, value);
            Item::Augment { name, op, values }
        }
        Item::Perform {
            stmts,
            at: place,
            values,
        } => {
            let values = with_value(values, at, value);
            Item::Perform {
                stmts,
                at: place,
                values,
            }
        }
        Item::Call { callee, arguments } => {
            let arguments = with_value(arguments, at, value);
            Item::Call { callee, arguments }
        }
        Item::Choose { expr, left } => {
            drop(left);
            Item::Choose { expr, left: value }
        }
        Item::ReadEntry { key, default } => {
            drop(key);
            Item::ReadEntry {
                key: value,
                default,
            }
        }
        Item::HasEntry { key, is_negated } => {
            drop(key);
            Item::HasEntry {
                key: value,
                is_negated,
            }
        }
        Item::SetEntry { key, value: entry } => {
            drop(key);
            Item::SetEntry {
                key: value,
                value: entry,
            }
        }
        Item::DeleteEntry(key) => {
            drop(key);
            Item::DeleteEntry(value)
        }
        Item::PopEntry { key, default } => {
            drop(key);
            Item::PopEntry {
                key: value,
                default,
            }
        }
        other => {
            drop(value);
            other
        }
    }
}

/// The list in place of the operand came, or a leave.
pub fn listed(
    alloc: Global,
    thread: &Thread,
    item: Boxed<Item>,
    at: usize,
    flow: Flow,
) -> Result<Want, NoMemory>
    ensures { IfOk result (Does thread.now (goes_on (frames.Listed item at) flow thread.now)) }
{
    let _ = alloc;
    let _ = thread;
    match flow {
        Flow::Left(leave) => {
            drop(item);
            Ok(Want::Go(Flow::Left(leave)))
        }
        Flow::Went(value) => Ok(Want::Then(with_operand(item.into_inner(), at, value))),
    }
}
