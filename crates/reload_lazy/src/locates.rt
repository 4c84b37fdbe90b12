//! The path on which a reload searches.
ghost use Rattle.std.specs.Prelude.{[], IfOk, None, Some};
ghost use Rattle.machine_events.specs.declared.module.Slot.TheVariants as slots;
ghost use Rattle.meaning_state.specs.declared.flow.Flow.TheVariants as flows;
ghost use Rattle.meaning_state.specs.declared.fault.Fault.TheVariants as faults;
ghost use Rattle.spec_core.specs.Names.{parent_of};
ghost use Rattle.find_load.specs.declared.words.In.TheVariants as ins;
ghost use Rattle.reload_lazy.specs.Reload.{ReloadGoes};
ghost use Rattle.reload_lazy.specs.Reloading.{does_at, lacks_path, on_entry_of, reads_path_of, stops_at};
ghost use Rattle.reload_lazy.specs.declared.reloader.Awaited.TheVariants as await;

use crate::finds::find;
use crate::raises::{stop, stop_and, stop_misfit};
use crate::reloader::{Awaited, Reloader};
use crate::waits::wait_for;
use base_types::{Exact, NoMemory, Text};
use find_load::{Want, most, parent_of};
use machine_events::{Event, Reply, Slot};
use meaning_state::{Fault, Flow};
use py_value::{Items, ModRef, Value};
use spec_core::Dotted;

/// The entry of the parent is read.
fn read_entry(p: &mut Reloader, name: Dotted, epoch: u64, parent: Dotted) -> Result<Want, NoMemory>
    ensures goes { IfOk result (ReloadGoes (reads_path_of p.old name epoch (Some parent)) p.new) }
{
    let entry = Want::Call(Event::TabGet(parent.copy()?));
    Ok(wait_for(p, name, Awaited::ParentEntry { epoch, parent }, entry))
}

/// The search path is read.
fn read_search_path(p: &mut Reloader, name: Dotted, epoch: u64) -> Want
    ensures goes { ReloadGoes (reads_path_of p.old name epoch None) p.new result }
{
    wait_for(
        p,
        name,
        Awaited::SearchPath(epoch),
        Want::Call(Event::PathGet),
    )
}

/// The path is read: for a name without a dot the search path, for any other that of the module which
/// the cache has for its parent.
pub(crate) fn read_path(p: &mut Reloader, name: Dotted, epoch: u64) -> Result<Want, NoMemory>
    ensures goes { IfOk result (ReloadGoes (reads_path_of p.old name epoch (parent_of name)) p.new) }
{
    match parent_of(&name)? {
        Some(parent) => read_entry(p, name, epoch, parent),
        None => Ok(read_search_path(p, name, epoch)),
    }
}

/// The search path was read.
pub(crate) fn on_search_path(
    p: &mut Reloader,
    name: Dotted,
    epoch: u64,
    reply: Reply,
) -> Result<Want, NoMemory>
    ensures goes { IfOk result (ReloadGoes (does_at p.old name (await.SearchPath epoch) (ins.Replied reply)) p.new) }
{
    match reply {
        Reply::Path(items) => find(p, name, epoch, items),
        other => Ok(stop_misfit(p, name, other)),
    }
}

/// The path of the module that stands in the parent's entry is wanted.
fn read_parent(p: &mut Reloader, name: Dotted, epoch: u64, parent: ModRef) -> Result<Want, NoMemory>
    ensures goes { IfOk result (ReloadGoes (on_entry_of p.old name epoch [] (slots.Module parent)) p.new) }
{
    let path = Want::Path {
        module: parent.copy()?,
        turns: most(),
    };
    Ok(wait_for(p, name, Awaited::ParentPath { epoch, parent }, path))
}

/// The parent has no entry.
fn stop_parent(p: &mut Reloader, name: Dotted, parent: Dotted) -> Result<Want, NoMemory>
    ensures goes { IfOk result (ReloadGoes (stops_at p.old name (faults.ParentNotCached parent)) p.new) }
{
    let text = parent.owned()?;
    Ok(stop(p, name, Fault::ParentNotCached(text)))
}

/// What stands in the parent's entry.
fn on_parent(
    p: &mut Reloader,
    name: Dotted,
    epoch: u64,
    parent: Dotted,
    slot: Slot,
) -> Result<Want, NoMemory>
    ensures goes { IfOk result (ReloadGoes (on_entry_of p.old name epoch parent slot) p.new) }
{
    match slot {
        Slot::Absent => stop_parent(p, name, parent),
        Slot::Halted => Ok(stop(p, name, Fault::NothingHasNoPath)),
        Slot::Module(module) => read_parent(p, name, epoch, module),
    }
}

/// The entry of the parent was read.
pub(crate) fn on_entry(
    p: &mut Reloader,
    name: Dotted,
    epoch: u64,
    parent: Dotted,
    reply: Reply,
) -> Result<Want, NoMemory>
    ensures goes { IfOk result (ReloadGoes (does_at p.old name (await.ParentEntry epoch parent)
        (ins.Replied reply)) p.new) }
{
    match reply {
        Reply::Slot(slot) => on_parent(p, name, epoch, parent, slot),
        other => Ok(stop_misfit(p, name, other)),
    }
}

/// The parent has no path, and so lacks the attribute; whether it is initialising.
fn stop_no_path(
    p: &mut Reloader,
    name: Dotted,
    parent: ModRef,
    is_initialising: bool,
) -> Result<Want, NoMemory>
    ensures goes { IfOk result (ReloadGoes (lacks_path p.old name parent is_initialising) p.new) }
{
    let path = Text::from_str(name.alloc(), "__path__")?;
    let fault = Fault::NoAttribute {
        is_initialising,
        module: parent.name().copy()?,
        name: path,
    };
    Ok(stop(p, name, fault))
}

/// The path of the parent, or that it has none.
fn on_path(
    p: &mut Reloader,
    name: Dotted,
    epoch: u64,
    parent: ModRef,
    path: Value,
) -> Result<Want, NoMemory>
    ensures goes { IfOk result (ReloadGoes (does_at p.old name (await.ParentPath epoch parent)
        (ins.Ended (flows.Went path))) p.new) }
{
    match path {
        Value::List(items) => find(p, name, epoch, items),
        Value::Bool(is_initialising) => stop_no_path(p, name, parent, is_initialising),
        other => {
            drop(other);
            drop(parent);
            Ok(stop(p, name, Fault::NotInProfile))
        }
    }
}

/// The path of the parent was read.
pub(crate) fn on_parent_path(
    p: &mut Reloader,
    name: Dotted,
    epoch: u64,
    parent: ModRef,
    flow: Flow,
) -> Result<Want, NoMemory>
    ensures goes { IfOk result (ReloadGoes (does_at p.old name (await.ParentPath epoch parent)
        (ins.Ended flow)) p.new) }
{
    match flow {
        Flow::Went(path) => on_path(p, name, epoch, parent, path),
        Flow::Left(leave) => {
            drop(parent);
            Ok(stop_and(p, name, leave))
        }
    }
}
