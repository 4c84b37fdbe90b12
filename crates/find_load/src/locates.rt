//! The path on which a name is searched.
ghost use Rattle.std.specs.Prelude.{IfOk};
ghost use Rattle.machine_events.specs.declared.module.Slot.TheVariants as slots;
ghost use Rattle.meaning_state.specs.declared.flow.Flow.TheVariants as flows;
ghost use Rattle.meaning_script.specs.Imports.{has_lock, on_parent, reads_path};
ghost use Rattle.find_load.specs.Means.{Goes};
ghost use Rattle.find_load.specs.UnderWay.{again, does_at, found_on, within};
ghost use Rattle.find_load.specs.declared.import.Stage.TheVariants as stages;
ghost use Rattle.find_load.specs.declared.words.In.TheVariants as ins;

use crate::import::{Importer, Stage, most};
use crate::raises::{
    give_back_and, give_back_lost, give_back_misfit, give_back_not_package, parent_of,
};
use crate::waits::wait_for;
use crate::words::Want;
use base_types::{Exact, NoMemory};
use machine_events::{Event, Reply, Slot};
use meaning_state::Flow;
use py_value::{Items, ModRef, Value};
use spec_core::Dotted;

/// The entry of the parent is read.
fn read_entry(p: &mut Importer, epoch: u64, parent: Dotted) -> Result<Want, NoMemory>
    ensures goes { IfOk result (Goes (λ inside. reads_path (within p.old inside)
        (found_on p.old epoch inside) p.old.name (Some parent)) p.new) }
{
    let entry = Want::Call(Event::TabGet(parent.copy()?));
    Ok(wait_for(p, Stage::ParentEntry { epoch, parent }, entry))
}

/// The search path is read.
fn read_search_path(p: &mut Importer, epoch: u64) -> Want
    ensures goes { Goes (λ inside. reads_path (within p.old inside)
        (found_on p.old epoch inside) p.old.name None) p.new result }
{
    wait_for(p, Stage::SearchPath(epoch), Want::Call(Event::PathGet))
}

/// With the lock the path is read: for a name without a dot the search path, for any other that of the module
/// which the cache has for its parent.
pub(crate) fn locate(p: &mut Importer, epoch: u64) -> Result<Want, NoMemory>
    ensures goes { IfOk result (Goes (λ inside. has_lock (within p.old inside)
        (again p.old inside) p.old.name epoch) p.new) }
{
    match parent_of(&p.name)? {
        Some(parent) => read_entry(p, epoch, parent),
        None => Ok(read_search_path(p, epoch)),
    }
}

/// The name is searched on a path, of which a copy is kept for a namespace.
fn find(p: &mut Importer, epoch: u64, path: Items) -> Result<Want, NoMemory>
    ensures goes { IfOk result (Goes (λ inside. found_on p.old epoch inside path) p.new) }
{
    let name = p.name.copy()?;
    let kept = path.copy()?;
    let search = Want::Find { name, path };
    Ok(wait_for(p, Stage::Searched { epoch, path: kept }, search))
}

/// The search path was read.
pub(crate) fn on_search_path(p: &mut Importer, epoch: u64, reply: Reply) -> Result<Want, NoMemory>
    ensures goes { IfOk result (Goes (does_at p.old (stages.SearchPath epoch) (ins.Replied reply)) p.new) }
{
    match reply {
        Reply::Path(items) => find(p, epoch, items),
        other => give_back_misfit(p, other),
    }
}

/// The path of the module that stands in the parent's entry is wanted.
fn read_path(p: &mut Importer, epoch: u64, parent: Dotted, module: ModRef) -> Want
    ensures goes { Goes (λ inside. on_parent (within p.old inside) (found_on p.old epoch inside) p.old.name parent
        (slots.Module «module»)) p.new result }
{
    let path = Want::Path {
        module,
        turns: most(),
    };
    wait_for(p, Stage::ParentPath { epoch, parent }, path)
}

/// What stands in the parent's entry.
fn on_parent(p: &mut Importer, epoch: u64, parent: Dotted, slot: Slot) -> Result<Want, NoMemory>
    ensures goes { IfOk result (Goes (λ inside. on_parent (within p.old inside)
        (found_on p.old epoch inside) p.old.name parent slot) p.new) }
{
    match slot {
        Slot::Absent => give_back_lost(p, parent),
        Slot::Halted => give_back_not_package(p, parent),
        Slot::Module(module) => Ok(read_path(p, epoch, parent, module)),
    }
}

/// The entry of the parent was read.
pub(crate) fn on_entry(
    p: &mut Importer,
    epoch: u64,
    parent: Dotted,
    reply: Reply,
) -> Result<Want, NoMemory>
    ensures goes { IfOk result (Goes (does_at p.old (stages.ParentEntry epoch parent) (ins.Replied reply)) p.new) }
{
    match reply {
        Reply::Slot(slot) => on_parent(p, epoch, parent, slot),
        other => give_back_misfit(p, other),
    }
}

/// The parent is a package where it has a path.
fn on_path(p: &mut Importer, epoch: u64, parent: Dotted, path: Value) -> Result<Want, NoMemory>
    ensures goes { IfOk result (Goes (does_at p.old (stages.ParentPath epoch parent)
        (ins.Ended (flows.Went path))) p.new) }
{
    match path {
        Value::List(items) => find(p, epoch, items),
        other => {
            drop(other);
            give_back_not_package(p, parent)
        }
    }
}

/// The path of the module that stands in the parent's entry was read.
pub(crate) fn on_parent_path(
    p: &mut Importer,
    epoch: u64,
    parent: Dotted,
    flow: Flow,
) -> Result<Want, NoMemory>
    ensures goes { IfOk result (Goes (does_at p.old (stages.ParentPath epoch parent) (ins.Ended flow)) p.new) }
{
    match flow {
        Flow::Went(path) => on_path(p, epoch, parent, path),
        Flow::Left(leave) => give_back_and(p, leave),
    }
}
