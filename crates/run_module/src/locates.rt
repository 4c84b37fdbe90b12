//! The parent of the module, and the path on which its name is searched.
ghost use Rattle.std.specs.Prelude.{◌≡◌, IfOk, None, Some};
ghost use Rattle.spec_core.specs.Names.{parent_of};
ghost use Rattle.machine_events.specs.declared.module.Slot.TheVariants as slots;
ghost use Rattle.meaning_state.specs.declared.flow.Flow.TheVariants as flows;
ghost use Rattle.meaning_script.specs.Imports.{after_parent};
ghost use Rattle.find_load.specs.declared.words.In.TheVariants as ins;
ghost use Rattle.run_module.specs.Programs.{is_built_in, on_parent, reads_path, runs};
ghost use Rattle.run_module.specs.Means.{Goes};
ghost use Rattle.run_module.specs.UnderWay.{does_at, found_on};
ghost use Rattle.run_module.specs.declared.start.Stage.TheVariants as stages;

use crate::raises::{built_in, lost, misfit_reply, not_package};
use crate::start::{ModuleStart, Stage};
use crate::waits::wait_for;
use base_types::{Exact, NoMemory};
use find_load::{Want, most, parent_of};
use machine_events::{Event, Reply, Slot};
use meaning_state::Flow;
use py_value::{Items, ModRef, Value};
use spec_core::Dotted;

/// Whether the module of this name is in no file.
fn is_built_in(name: &Dotted) -> bool
    ensures { result ≡ is_built_in name.now }
{
    name.text() == "sys" || name.text() == "importlib" || name.text() == "pyimport"
}

/// The search path is read.
fn read_search_path(p: &mut ModuleStart) -> Want
    ensures goes { Goes (λ inside. reads_path inside (found_on p.old inside) p.old.name None) p.new result }
{
    wait_for(p, Stage::SearchPath, Want::Call(Event::PathGet))
}

/// The entry of the parent is read.
fn read_entry(p: &mut ModuleStart, parent: Dotted) -> Result<Want, NoMemory>
    ensures goes { IfOk result (Goes (λ inside. reads_path inside (found_on p.old inside) p.old.name (Some parent))
        p.new) }
{
    let entry = Want::Call(Event::TabGet(parent.copy()?));
    Ok(wait_for(p, Stage::ParentEntry(parent), entry))
}

/// The path is read: for a name without a dot the search path, for any other that of the module which the cache has for
/// its parent.
pub(crate) fn locate(p: &mut ModuleStart) -> Result<Want, NoMemory>
    ensures goes { IfOk result (Goes (λ inside. reads_path inside (found_on p.old inside) p.old.name
        (parent_of p.old.name)) p.new) }
{
    match parent_of(&p.name)? {
        Some(parent) => read_entry(p, parent),
        None => Ok(read_search_path(p)),
    }
}

/// The parent is imported, if the name has one.
fn import_parent(p: &mut ModuleStart) -> Result<Want, NoMemory>
    ensures goes { IfOk result (Goes (λ inside. after_parent inside (reads_path inside (found_on p.old inside)
        p.old.name (parent_of p.old.name)) (parent_of p.old.name)) p.new) }
{
    match parent_of(&p.name)? {
        Some(parent) => Ok(wait_for(p, Stage::Parent, Want::Import(parent))),
        None => Ok(read_search_path(p)),
    }
}

/// The name is run as a program.
pub(crate) fn begin(p: &mut ModuleStart) -> Result<Want, NoMemory>
    ensures goes { IfOk result (Goes (λ inside. runs inside p.old.script p.old.home p.old.name) p.new) }
{
    if is_built_in(&p.name) {
        return built_in(p);
    }
    import_parent(p)
}

/// The name is searched on a path.
fn find(p: &mut ModuleStart, path: Items) -> Result<Want, NoMemory>
    ensures goes { IfOk result (Goes (λ inside. found_on p.old inside path) p.new) }
{
    let name = p.name.copy()?;
    let search = Want::Find { name, path };
    Ok(wait_for(p, Stage::Searched, search))
}

/// The search path was read.
pub(crate) fn on_search_path(p: &mut ModuleStart, reply: Reply) -> Result<Want, NoMemory>
    ensures goes { IfOk result (Goes (does_at p.old stages.SearchPath (ins.Replied reply)) p.new) }
{
    match reply {
        Reply::Path(items) => find(p, items),
        other => misfit_reply(p, other),
    }
}

/// The path of the module that stands in the parent's entry is wanted.
fn read_path(p: &mut ModuleStart, parent: Dotted, module: ModRef) -> Want
    ensures goes { Goes (λ inside. on_parent inside (found_on p.old inside) p.old.name parent
        (slots.Module «module»)) p.new result }
{
    let path = Want::Path {
        module,
        turns: most(),
    };
    wait_for(p, Stage::ParentPath(parent), path)
}

/// What stands in the parent's entry.
fn on_parent(p: &mut ModuleStart, parent: Dotted, slot: Slot) -> Result<Want, NoMemory>
    ensures goes { IfOk result (Goes (λ inside. on_parent inside (found_on p.old inside) p.old.name parent slot)
        p.new) }
{
    match slot {
        Slot::Absent => lost(p, parent),
        Slot::Halted => not_package(p, parent),
        Slot::Module(module) => Ok(read_path(p, parent, module)),
    }
}

/// The entry of the parent was read.
pub(crate) fn on_entry(p: &mut ModuleStart, parent: Dotted, reply: Reply) -> Result<Want, NoMemory>
    ensures goes { IfOk result (Goes (does_at p.old (stages.ParentEntry parent) (ins.Replied reply)) p.new) }
{
    match reply {
        Reply::Slot(slot) => on_parent(p, parent, slot),
        other => misfit_reply(p, other),
    }
}

/// The parent is a package where it has a path.
fn on_path(p: &mut ModuleStart, parent: Dotted, path: Value) -> Result<Want, NoMemory>
    ensures goes { IfOk result (Goes (does_at p.old (stages.ParentPath parent) (ins.Ended (flows.Went path))) p.new) }
{
    match path {
        Value::List(items) => find(p, items),
        other => {
            drop(other);
            not_package(p, parent)
        }
    }
}

/// The path of the module that stands in the parent's entry was read.
pub(crate) fn on_parent_path(
    p: &mut ModuleStart,
    parent: Dotted,
    flow: Flow,
) -> Result<Want, NoMemory>
    ensures goes { IfOk result (Goes (does_at p.old (stages.ParentPath parent) (ins.Ended flow)) p.new) }
{
    match flow {
        Flow::Went(path) => on_path(p, parent, path),
        Flow::Left(leave) => Ok(Want::End(Flow::Left(leave))),
    }
}
