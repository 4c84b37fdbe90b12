//! The module of a `from` statement, whose name may be relative (Language Reference 5.7).
ghost use Rattle.std.specs.Prelude.{◌≡◌, ◌≤◌, ℕ, List, Option, Some, IfOk, slice_get};
ghost use Rattle.py_value.specs.declared.value.Value.{out-Value};
ghost use Rattle.meaning_script.specs.ImportStatements as spec;
ghost use Rattle.meaning_script.specs.Meaning.{around_at};
ghost use Rattle.spec_core.specs.Relative.{Resolves, followed, resolved};
ghost use Rattle.py_syntax.specs.declared.stmt.ImportedNames.{ImportedNames};
ghost use Rattle.py_frames.specs.Does.{Does, begins, goes_on, items_of, listed_in, names_some, pieces, replies};
ghost use Rattle.step_imports.specs.Parts.{from_of};
ghost use Rattle.py_frames.specs.declared.replies.OnReply.TheVariants as ons;
ghost use Rattle.py_frames.specs.declared.work.Frame.TheVariants as frames;
ghost use Rattle.py_frames.specs.declared.work.Item.TheVariants as items;

use crate::binding::import_items;
use crate::names::dotted_name;
use crate::places::from_at;
use base_owners::Shared;
use base_types::{NoMemory, Seq, Text, Texts};
use machine_events::{Event, Reply};
use meaning_state::{Fault, Flow, Thread};
use py_frames::{Frame, Item, OnReply, Want, fail, joined_name};
use py_syntax::{ImportedNames, Stmt};
use py_value::{ModRef, Value};
use spec_core::{Dotted, RelativeError, resolve};
use std::alloc::Global;

/// The module is imported, or first asked for its package where the name is relative.
#[tactic(auto, using(crate::proofs::Levels::from_none))]
pub fn begin_from(
    alloc: Global,
    thread: &Thread,
    stmts: Shared<Seq<Stmt>>,
    at: usize,
) -> Result<Want, NoMemory>
    ensures { IfOk result (Does thread.now (begins (items.From stmts at) thread.now)) }
{
    let block = stmts.share()?;
    match from_at(stmts.get(), at) {
        None => fail(alloc, thread, Fault::NotInProfile),
        Some((dots, parts, names)) => begin_dots(alloc, thread, dots, parts, names, block, at),
    }
}

/// The module with so many dots and these parts.
fn begin_dots(
    alloc: Global,
    thread: &Thread,
    dots: u32,
    parts: &Texts,
    names: &ImportedNames,
    stmts: Shared<Seq<Stmt>>,
    at: usize,
) -> Result<Want, NoMemory>
    requires { from_of (slice_get stmts at) ≡ Some (dots, parts.now, names.now) }
    ensures { IfOk result (Does thread.now (pieces (λ w d. spec.from_import
        (around_at w d) dots parts.now names.now) thread.now)) }
{
    let _ = names;
    if dots == 0 {
        let name = dotted_name(parts)?;
        let item = Item::Import {
            name,
            is_parent: false,
            is_lazy: false,
        };
        return Ok(Want::Both(item, Frame::From { stmts, at }));
    }
    let name = Text::from_str(alloc, "__package__")?;
    let event = Event::GetVar {
        mid: thread.state.scope.mid,
        name,
        raw: true,
    };
    Ok(Want::Call(event, OnReply::Package { stmts, at }))
}

/// The text that a value is.
fn package_at(value: Value) -> Option<Text>
    ensures { result ≡ spec.package_at (out-Value value) }
{
    match value {
        Value::Text(package) => Some(package),
        other => {
            drop(other);
            None
        }
    }
}

/// The package that a module says it is in.
fn package_in(reply: Reply) -> Option<Text>
    ensures { result ≡ spec.package_in reply }
{
    match reply {
        Reply::Value(value) => package_at(value),
        other => {
            drop(other);
            None
        }
    }
}

/// The level of a relative name with so many dots. Without dots it is as with one: both mean the package itself.
fn level_of(dots: u32) -> u32
    ensures least { 1 ≤ result }
    ensures same { («package» name : Option (List ℕ)) → resolved «package» result name ≡ resolved «package» dots name }
{
    if dots == 0 {
        return 1;
    }
    dots
}

/// A package with parts behind it.
fn behind(package: &Dotted, parts: &Texts) -> Result<Text, NoMemory>
    ensures { IfOk result (λ name. name ≡ followed «package».now (spec.optional_name parts.now)) }
{
    let front = package.owned()?;
    let is_bare = parts.is_empty();
    if is_bare {
        return Ok(front);
    }
    let name = dotted_name(parts)?;
    joined_name(&front, &name)
}

/// The name that is meant by dots and parts in a module of this package.
#[tactic(auto, using(crate::proofs::Levels::meant_err, crate::proofs::Levels::meant_ok))]
fn meant(package: Option<Text>, dots: u32, parts: &Texts) -> Result<Text, RelativeError>
    ensures { Resolves (resolved «package» dots (spec.optional_name parts.now)) result }
{
    let level = level_of(dots);
    match resolve(package.as_ref(), level, None) {
        Err(error) => Err(error),
        Ok(base) => match behind(&base, parts) {
            Ok(name) => Ok(name),
            Err(_) => Err(RelativeError::NoMemory),
        },
    }
}

/// The module that is meant by dots and parts in a module of this package is imported.
fn import_meant(
    alloc: Global,
    thread: &Thread,
    package: Option<Text>,
    dots: u32,
    parts: &Texts,
    stmts: Shared<Seq<Stmt>>,
    at: usize,
) -> Result<Want, NoMemory>
    ensures { IfOk result (Does thread.now (pieces (λ w d. spec.from_resolved (around_at w d)
        (names_some (around_at w d) (slice_get stmts at)) (resolved «package» dots
        (spec.optional_name parts.now))) thread.now)) }
{
    match meant(package, dots, parts) {
        Ok(name) => {
            let item = Item::Import {
                name,
                is_parent: false,
                is_lazy: false,
            };
            Ok(Want::Both(item, Frame::From { stmts, at }))
        }
        Err(RelativeError::NoParent) => fail(alloc, thread, Fault::NoParentPackage),
        Err(RelativeError::BeyondTop) => fail(alloc, thread, Fault::BeyondTop),
        Err(RelativeError::NoMemory) => Err(NoMemory),
    }
}

/// The package of the statement's own module is known.
pub fn replied_package(
    alloc: Global,
    thread: &Thread,
    stmts: &Shared<Seq<Stmt>>,
    at: usize,
    reply: Reply,
) -> Result<Want, NoMemory>
    ensures { IfOk result (Does thread.now (replies (ons.Package stmts.now at) reply thread.now)) }
{
    let package = package_in(reply);
    let block = stmts.share()?;
    match from_at(stmts.get(), at) {
        None => {
            drop(package);
            fail(alloc, thread, Fault::NotInProfile)
        }
        Some((dots, parts, _)) => import_meant(alloc, thread, package, dots, parts, block, at),
    }
}

/// The module's `__all__` is read.
fn read_all(alloc: Global, thread: &Thread, module: ModRef) -> Result<Want, NoMemory>
    ensures { IfOk result (Does thread.now (pieces (λ w d. spec.from_star (around_at w d) «module») thread.now)) }
{
    let _ = thread;
    let event = Event::GetVar {
        mid: module.mid(),
        name: Text::from_str(alloc, "__all__")?,
        raw: false,
    };
    let is_raw = false;
    Ok(Want::Call(event, OnReply::All { module, is_raw }))
}

/// What a `from` statement does with its module.
fn import_names(
    alloc: Global,
    thread: &Thread,
    stmts: &Shared<Seq<Stmt>>,
    at: usize,
    module: ModRef,
) -> Result<Want, NoMemory>
    ensures { IfOk result (Does thread.now (pieces (λ w d. names_some (around_at w d)
        (slice_get stmts.now at) «module») thread.now)) }
{
    let block = stmts.share()?;
    match from_at(stmts.get(), at) {
        None => {
            drop(module);
            fail(alloc, thread, Fault::NotInProfile)
        }
        Some((_, _, names)) => take_names(alloc, thread, names, block, at, module),
    }
}

/// All names of the module, or those that are listed.
fn take_names(
    alloc: Global,
    thread: &Thread,
    names: &ImportedNames,
    stmts: Shared<Seq<Stmt>>,
    at: usize,
    module: ModRef,
) -> Result<Want, NoMemory>
    requires { items_of (slice_get stmts at) ≡ listed_in names.now }
    ensures { IfOk result (Does thread.now (pieces (λ w d. spec.imported_names
        (around_at w d) names.now «module») thread.now)) }
{
    match names {
        ImportedNames::All => read_all(alloc, thread, module),
        ImportedNames::Listed(items) => import_items(thread, items, stmts, at, module),
    }
}

/// The module of a `from` statement was imported.
pub fn go_on_from(
    alloc: Global,
    thread: &Thread,
    stmts: &Shared<Seq<Stmt>>,
    at: usize,
    flow: Flow,
) -> Result<Want, NoMemory>
    ensures { IfOk result (Does thread.now (goes_on (frames.From stmts.now at) flow thread.now)) }
{
    match flow {
        Flow::Left(leave) => Ok(Want::Go(Flow::Left(leave))),
        Flow::Went(Value::Module(module)) => import_names(alloc, thread, stmts, at, module),
        Flow::Went(other) => {
            drop(other);
            fail(alloc, thread, Fault::NotInProfile)
        }
    }
}
