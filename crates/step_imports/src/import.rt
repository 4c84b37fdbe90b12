//! `import` of one module: of a name with dots the first part is bound, or with `as` the last one, which is looked for
//! from the first on.
ghost use Rattle.std.specs.Prelude.{◌≡◌, ◌+◌, ◌<◌, IfOk, Some, slice_get};
ghost use Rattle.meaning_script.specs.ImportStatements.{imports_one, name_of, with_module};
ghost use Rattle.meaning_script.specs.Meaning.{around_at};
ghost use Rattle.py_frames.specs.Does.{Does, aliases_of, begins, binds_some_import, follows_some, frame_does, fronts_some, goes_on, pieces};
ghost use Rattle.py_frames.specs.declared.work.Frame.TheVariants as frames;
ghost use Rattle.py_frames.specs.declared.work.Item.TheVariants as items;

use crate::names::{bound_as, dotted_name, is_last};
use crate::places::{alias_at, front_at};
use base_owners::Shared;
use base_types::{Exact, NoMemory, Seq, Text};
use meaning_state::{Fault, Flow, Thread};
use py_frames::{Frame, Item, Want, fail};
use py_syntax::{Alias, Stmt};
use py_value::Value;
use std::alloc::Global;

/// The import of a module, with its binding.
fn import_alias(
    alloc: Global,
    thread: &Thread,
    alias: &Alias,
    stmts: &Shared<Seq<Stmt>>,
    at: usize,
    place: usize,
) -> Result<Want, NoMemory>
    requires { slice_get (aliases_of (slice_get stmts.now at)) place ≡ Some alias.now }
    ensures { IfOk result (Does thread.now (pieces (λ w d. imports_one (around_at w d) alias.now) thread.now)) }
{
    let Some(front) = alias.parts.get(0) else {
        return fail(alloc, thread, Fault::NotInProfile);
    };
    let count = alias.parts.len();
    if count == 1 {
        let bound = bound_as(&alias.bound, front)?;
        let part = front.copy()?;
        let item = Item::Import {
            name: part,
            is_parent: false,
            is_lazy: false,
        };
        return Ok(Want::Both(item, Frame::Store(bound)));
    }
    let name = dotted_name(&alias.parts)?;
    let stmts = stmts.share()?;
    let item = Item::Import {
        name,
        is_parent: false,
        is_lazy: false,
    };
    Ok(Want::Both(item, Frame::Front { stmts, at, place }))
}

/// A module of an `import`, by its place.
pub fn begin_alias(
    alloc: Global,
    thread: &Thread,
    stmts: &Shared<Seq<Stmt>>,
    at: usize,
    place: usize,
) -> Result<Want, NoMemory>
    ensures { IfOk result (Does thread.now (begins (items.Alias stmts.now at place) thread.now)) }
{
    match alias_at(stmts.get(), at, place) {
        None => fail(alloc, thread, Fault::NotInProfile),
        Some(alias) => import_alias(alloc, thread, alias, stmts, at, place),
    }
}

/// The first part of a name with dots is asked for once more.
fn import_front(
    alloc: Global,
    thread: &Thread,
    stmts: Shared<Seq<Stmt>>,
    at: usize,
    place: usize,
) -> Result<Want, NoMemory>
    ensures { IfOk result (Does thread.now (pieces (λ w d. fronts_some (around_at w d)
        (slice_get (aliases_of (slice_get stmts at)) place)) thread.now)) }
{
    let name = match front_at(stmts.get(), at, place) {
        None => return fail(alloc, thread, Fault::NotInProfile),
        Some(front) => front.copy()?,
    };
    let item = Item::Import {
        name,
        is_parent: false,
        is_lazy: false,
    };
    Ok(Want::Both(item, Frame::Fronted { stmts, at, place }))
}

/// A name with dots was imported.
pub fn go_on_front(
    alloc: Global,
    thread: &Thread,
    stmts: Shared<Seq<Stmt>>,
    at: usize,
    place: usize,
    flow: Flow,
) -> Result<Want, NoMemory>
    ensures { IfOk result (Does thread.now (goes_on (frames.Front stmts at place) flow thread.now)) }
{
    match flow {
        Flow::Left(leave) => Ok(Want::Go(Flow::Left(leave))),
        Flow::Went(value) => {
            drop(value);
            import_front(alloc, thread, stmts, at, place)
        }
    }
}

/// A part of the module that a value has to be, and then this.
fn part_then(
    alloc: Global,
    thread: &Thread,
    value: Value,
    name: Text,
    is_bound: bool,
    frame: Frame,
) -> Result<Want, NoMemory>
    ensures { IfOk result (Does thread.now (λ w next. with_module value
        (λ m s k. name_of (around_at w thread.now.left) is_bound m name s
        (frame_does w thread.now.left frame next)) thread.now.state (next thread.now.left))) }
{
    match value {
        Value::Module(module) => {
            let item = Item::FromModule {
                module,
                name,
                is_bound,
            };
            Ok(Want::Both(item, frame))
        }
        other => {
            drop(other);
            drop(name);
            drop(frame);
            fail(alloc, thread, Fault::NotInProfile)
        }
    }
}

/// The place behind one of so many.
fn next_place(at: usize, count: usize) -> usize
    requires { at < count }
    ensures { result ≡ at + 1 }
{
    at + 1
}

/// The parts of a name from one on, each a name of the module before it. The last one is bound.
fn follow_parts(
    alloc: Global,
    thread: &Thread,
    stmts: &Shared<Seq<Stmt>>,
    at: usize,
    place: usize,
    part: usize,
    value: Value,
) -> Result<Want, NoMemory>
    ensures { IfOk result (Does thread.now (pieces (λ w d. follows_some (around_at w d) part
        (slice_get (aliases_of (slice_get stmts.now at)) place) value) thread.now)) }
{
    let Some(alias) = alias_at(stmts.get(), at, place) else {
        drop(value);
        return fail(alloc, thread, Fault::NotInProfile);
    };
    let Some(bound) = &alias.bound else {
        drop(value);
        return fail(alloc, thread, Fault::NotInProfile);
    };
    let count = alias.parts.len();
    let Some(name) = alias.parts.get(part) else {
        let name = bound.copy()?;
        return Ok(Want::Then(Item::Store { name, value }));
    };
    let is_bound = is_last(&alias.parts, part);
    let following = next_place(part, count);
    let own_name = name.copy()?;
    let block = stmts.share()?;
    let frame = Frame::Parts {
        stmts: block,
        at,
        place,
        part: following,
    };
    part_then(alloc, thread, value, own_name, is_bound, frame)
}

/// A part of a name that is bound with `as`.
pub fn go_on_parts(
    alloc: Global,
    thread: &Thread,
    stmts: &Shared<Seq<Stmt>>,
    at: usize,
    place: usize,
    part: usize,
    flow: Flow,
) -> Result<Want, NoMemory>
    ensures { IfOk result (Does thread.now (goes_on (frames.Parts stmts.now at place part) flow thread.now)) }
{
    match flow {
        Flow::Left(leave) => Ok(Want::Go(Flow::Left(leave))),
        Flow::Went(value) => follow_parts(alloc, thread, stmts, at, place, part, value),
    }
}

/// The first part of a name with dots is bound, unless another one is.
fn bind_import(
    alloc: Global,
    thread: &Thread,
    stmts: &Shared<Seq<Stmt>>,
    at: usize,
    place: usize,
    value: Value,
) -> Result<Want, NoMemory>
    ensures { IfOk result (Does thread.now (pieces (λ w d. binds_some_import (around_at w d)
        (slice_get (aliases_of (slice_get stmts.now at)) place) value) thread.now)) }
{
    let Some(alias) = alias_at(stmts.get(), at, place) else {
        drop(value);
        return fail(alloc, thread, Fault::NotInProfile);
    };
    let Some(front) = alias.parts.get(0) else {
        drop(value);
        return fail(alloc, thread, Fault::NotInProfile);
    };
    match &alias.bound {
        None => {
            let name = front.copy()?;
            Ok(Want::Then(Item::Store { name, value }))
        }
        Some(_) => follow_parts(alloc, thread, stmts, at, place, 1, value),
    }
}

/// The first part of a name with dots was imported once more.
pub fn go_on_fronted(
    alloc: Global,
    thread: &Thread,
    stmts: &Shared<Seq<Stmt>>,
    at: usize,
    place: usize,
    flow: Flow,
) -> Result<Want, NoMemory>
    ensures { IfOk result (Does thread.now (goes_on (frames.Fronted stmts.now at place) flow thread.now)) }
{
    match flow {
        Flow::Left(leave) => Ok(Want::Go(Flow::Left(leave))),
        Flow::Went(value) => bind_import(alloc, thread, stmts, at, place, value),
    }
}
