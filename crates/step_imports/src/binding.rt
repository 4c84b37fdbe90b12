//! The items of a `from` statement: each name is bound before the next one is read.
ghost use Rattle.std.specs.Prelude.{◌≡◌, IfOk, length, slice_get};
ghost use Rattle.meaning_script.specs.ImportStatements.{binds_item, from_list};
ghost use Rattle.meaning_script.specs.Meaning.{around_at};
ghost use Rattle.py_frames.specs.Does.{Does, begins, goes_on, items_of, listed_in, pieces};
ghost use Rattle.py_frames.specs.declared.work.Frame.TheVariants as frames;
ghost use Rattle.py_frames.specs.declared.work.Item.TheVariants as items;

use crate::names::{bound_as, dotted_name, item_names};
use crate::places::item_at;
use base_owners::Shared;
use base_types::{Exact, NoMemory, Seq};
use meaning_state::{Fault, Flow, Thread};
use py_frames::{Frame, Item, Want, fail, went};
use py_syntax::{Alias, ImportedNames, Stmt};
use py_value::{ModRef, Value};
use std::alloc::Global;

/// The items of a list are bound, once the submodules that they name are asked for.
pub fn import_items(
    thread: &Thread,
    items: &Seq<Alias>,
    stmts: Shared<Seq<Stmt>>,
    at: usize,
    module: ModRef,
) -> Result<Want, NoMemory>
    requires { items_of (slice_get stmts at) ≡ items.now }
    ensures { IfOk result (Does thread.now (pieces (λ w d. from_list (around_at w d) items.now «module») thread.now)) }
{
    let _ = thread;
    let asked = Item::AskSubmodules {
        module: module.copy()?,
        names: item_names(items)?,
    };
    let others = Frame::Bindings {
        module,
        stmts,
        at,
        place: 0,
    };
    Ok(Want::Both(asked, others))
}

/// How many items a `from` statement lists: none where it takes all names.
fn listed_count(names: &ImportedNames) -> usize
    ensures { result ≡ length (listed_in names.now) }
{
    match names {
        ImportedNames::Listed(items) => items.len(),
        ImportedNames::All => 0,
    }
}

/// How many items the `from` statement at a place lists.
fn item_count(stmts: &Seq<Stmt>, at: usize) -> usize
    ensures { result ≡ length (items_of (slice_get stmts.now at)) }
{
    match stmts.get(at) {
        Some(Stmt::From(_, _, names)) => listed_count(names),
        _ => 0,
    }
}

/// The items from a place on.
pub fn begin_bindings(
    thread: &Thread,
    module: ModRef,
    stmts: Shared<Seq<Stmt>>,
    at: usize,
    place: usize,
) -> Result<Want, NoMemory>
    ensures { IfOk result (Does thread.now (begins (items.Bindings «module» stmts at place) thread.now)) }
{
    let count = item_count(stmts.get(), at);
    if place >= count {
        drop(module);
        return Ok(went(thread, Value::Nothing));
    }
    let owner = module.copy()?;
    let block = stmts.share()?;
    let first = Item::Binding {
        module: owner,
        stmts: block,
        at,
        place,
    };
    let others = Frame::Bindings {
        module,
        stmts,
        at,
        place: place + 1,
    };
    Ok(Want::Both(first, others))
}

/// What comes before the items from a place on has ended.
pub fn go_on_bindings(
    thread: &Thread,
    module: ModRef,
    stmts: Shared<Seq<Stmt>>,
    at: usize,
    place: usize,
    flow: Flow,
) -> Want
    ensures { Does thread.now (goes_on (frames.Bindings «module» stmts at place) flow thread.now) result }
{
    let _ = thread;
    match flow {
        Flow::Went(value) => {
            drop(value);
            Want::Then(Item::Bindings {
                module,
                stmts,
                at,
                place,
            })
        }
        Flow::Left(leave) => Want::Go(Flow::Left(leave)),
    }
}

/// An item is read and bound.
fn bind_item(thread: &Thread, module: ModRef, item: &Alias) -> Result<Want, NoMemory>
    ensures { IfOk result (Does thread.now (pieces (λ w d. binds_item (around_at w d) «module» item.now) thread.now)) }
{
    let _ = thread;
    let name = dotted_name(&item.parts)?;
    let bound = bound_as(&item.bound, &name)?;
    let read = Item::FromModule {
        module,
        name,
        is_bound: true,
    };
    Ok(Want::Both(read, Frame::Store(bound)))
}

/// An item of a `from` statement, by its place.
pub fn begin_binding(
    alloc: Global,
    thread: &Thread,
    module: ModRef,
    stmts: &Shared<Seq<Stmt>>,
    at: usize,
    place: usize,
) -> Result<Want, NoMemory>
    ensures { IfOk result (Does thread.now (begins (items.Binding «module» stmts.now at place) thread.now)) }
{
    match item_at(stmts.get(), at, place) {
        None => fail(alloc, thread, Fault::NotInProfile),
        Some(item) => bind_item(thread, module, item),
    }
}
