//! A procedure is fed, and what it wants is what the work wants.
ghost use Rattle.std.specs.Prelude.{◌≡◌, IfOk};
ghost use Rattle.step_imports.specs.Waiting.{inside_by, lifts, waits_parent, waits_path, waits_rouse};
ghost use Rattle.py_frames.specs.Does as meant;
ghost use Rattle.py_frames.specs.Does.{Does, begins, goes_on, pieces, replies};
ghost use Rattle.py_frames.specs.declared.work.Item.TheVariants as items;
ghost use Rattle.py_frames.specs.declared.work.Frame.TheVariants as frames;
ghost use Rattle.py_frames.specs.declared.replies.OnReply.TheVariants as ons;

use crate::stepping::Steps;
use base_owners::Boxed;
use base_types::NoMemory;
use find_load::{In, Want as Wanted};
use machine_events::Reply;
use meaning_state::{Flow, Thread};
use py_frames::{Frame, Item, OnReply, Procedure, Want};
use py_value::ModRef;
use run_module::Rouser;
use spec_core::Dotted;
use std::alloc::Global;
use step_package_path::PathReader;

/// A procedure waits for the import of a parent.
fn open_import(name: Dotted, is_parent: bool, procedure: Procedure, thread: &Thread) -> Want
    ensures { Does thread.now (pieces (λ w d. waits_parent w d is_parent procedure name) thread.now) result }
{
    let _ = thread;
    Want::Both(Item::Parent { name, is_parent }, Frame::Open(procedure))
}

/// A procedure waits for the path of a module.
fn open_path(
    alloc: Global,
    module: ModRef,
    turns: u64,
    procedure: Procedure,
    thread: &Thread,
) -> Result<Want, NoMemory>
    ensures { IfOk result (Does thread.now (pieces (λ w d. waits_path w d procedure turns «module») thread.now)) }
{
    let _ = thread;
    let reader = Boxed::new(alloc, PathReader::start(module, turns))?;
    let item = Item::Feed(Procedure::Path(reader), In::Start);
    Ok(Want::Both(item, Frame::Open(procedure)))
}

/// A procedure waits for the first use of a module.
fn open_rouse(
    alloc: Global,
    module: ModRef,
    procedure: Procedure,
    thread: &Thread,
) -> Result<Want, NoMemory>
    ensures { IfOk result (Does thread.now (pieces (λ w d. waits_rouse w d procedure «module») thread.now)) }
{
    let _ = thread;
    let rouser = Boxed::new(alloc, Rouser::start(module))?;
    let item = Item::Feed(Procedure::Rouse(rouser), In::Start);
    Ok(Want::Both(item, Frame::Open(procedure)))
}

/// What a procedure wants, wanted by the work.
fn lift(
    alloc: Global,
    is_parent: bool,
    procedure: Procedure,
    want: Wanted,
    thread: &Thread,
) -> Result<Want, NoMemory>
    ensures { IfOk result (Does thread.now (pieces (λ w d. lifts w d is_parent want procedure) thread.now)) }
{
    match want {
        Wanted::Call(event) => Ok(Want::Call(event, OnReply::Feed(procedure))),
        Wanted::Wait => Ok(Want::Wait(Item::Feed(procedure, In::Woken))),
        Wanted::Pay { of_tree, units } => Ok(Want::Pay {
            of_tree,
            units,
            item: Item::Feed(procedure, In::Paid),
        }),
        Wanted::Find { name, path } => Ok(Want::Find {
            name,
            path,
            procedure,
        }),
        Wanted::File(path) => Ok(Want::File(path, procedure)),
        Wanted::Body {
            mid,
            load,
            name,
            text,
        } => {
            let item = Item::Start {
                mid,
                load,
                name,
                text,
            };
            Ok(Want::Both(item, Frame::Open(procedure)))
        }
        Wanted::Import(name) => Ok(open_import(name, is_parent, procedure, thread)),
        Wanted::Path { module, turns } => open_path(alloc, module, turns, procedure, thread),
        Wanted::Rouse(module) => open_rouse(alloc, module, procedure, thread),
        Wanted::End(flow) => {
            drop(procedure);
            Ok(Want::Go(flow))
        }
    }
}

/// A procedure of a kind is fed where it lies.
fn step<P: Steps>(
    alloc: Global,
    procedure: Boxed<P>,
    input: In,
    thread: &Thread,
) -> Result<Want, NoMemory>
    ensures { IfOk result (Does thread.now (pieces (λ w d.
        P.means (inside_by w d P.imports_parent) procedure input) thread.now)) }
{
    let mut procedure = procedure;
    let is_parent = procedure.get().is_parent();
    match procedure.get_mut().step(input) {
        Ok(want) => lift(alloc, is_parent, P::hold(procedure), want, thread),
        Err(_) => {
            drop(procedure);
            Err(NoMemory)
        }
    }
}

/// A procedure is fed. It changes nothing of the thread.
pub fn fed(
    alloc: Global,
    procedure: Procedure,
    input: In,
    thread: &Thread,
) -> Result<Want, NoMemory>
    ensures { IfOk result (Does thread.now (pieces (λ w d. meant.fed w d procedure input) thread.now)) }
{
    match procedure {
        Procedure::Import(importer) => step(alloc, importer, input, thread),
        Procedure::Path(reader) => step(alloc, reader, input, thread),
        Procedure::Rouse(rouser) => step(alloc, rouser, input, thread),
        Procedure::Reload(reloader) => step(alloc, reloader, input, thread),
        Procedure::Program(start) => step(alloc, start, input, thread),
    }
}

/// The piece of work that feeds a procedure.
pub fn begin_feed(
    alloc: Global,
    procedure: Procedure,
    input: In,
    thread: &Thread,
) -> Result<Want, NoMemory>
    ensures { IfOk result (Does thread.now (begins (items.Feed procedure input) thread.now)) }
{
    fed(alloc, procedure, input, thread)
}

/// What a procedure waited for has ended.
pub fn go_on_open(
    alloc: Global,
    procedure: Procedure,
    flow: Flow,
    thread: &Thread,
) -> Result<Want, NoMemory>
    ensures { IfOk result (Does thread.now (goes_on (frames.Open procedure) flow thread.now)) }
{
    fed(alloc, procedure, In::Ended(flow), thread)
}

/// The reply to a procedure's event.
pub fn replied_feed(
    alloc: Global,
    procedure: Procedure,
    reply: Reply,
    thread: &Thread,
) -> Result<Want, NoMemory>
    ensures { IfOk result (Does thread.now (replies (ons.Feed procedure) reply thread.now)) }
{
    fed(alloc, procedure, In::Replied(reply), thread)
}
