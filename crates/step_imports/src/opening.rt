//! The import of a name begins and ends.
ghost use Rattle.std.specs.Prelude.{◌≡◌, ◌<◌, IfOk};
ghost use Rattle.meaning_state.specs.declared.fault.Fault.TheVariants as faults;
ghost use Rattle.meaning_script.specs.Pieces.{fails};
ghost use Rattle.py_frames.specs.Does.{Does, begins, goes_on, pieces};
ghost use Rattle.py_frames.specs.declared.work.Item.TheVariants as items;
ghost use Rattle.py_frames.specs.declared.work.Frame.TheVariants as frames;

use base_owners::Boxed;
use base_types::{NoMemory, Text};
use find_load::{Importer, In};
use meaning_state::{Fault, Flow, Leave, Thread, raised};
use py_frames::{Frame, Item, Procedure, Want};
use spec_core::Dotted;
use std::alloc::Global;

/// An error is raised.
fn fail(alloc: Global, fault: Fault, thread: &Thread) -> Result<Want, NoMemory>
    ensures { IfOk result (Does thread.now (pieces (λ w d. fails fault) thread.now)) }
{
    let _ = thread;
    let error = raised(alloc, fault)?;
    Ok(Want::Go(Flow::Left(Leave::Raised(error))))
}

/// The import of a dotted name, where one more may be open. Within it one fewer may be.
fn start_import(
    alloc: Global,
    name: Dotted,
    is_parent: bool,
    is_lazy: bool,
    thread: &mut Thread,
) -> Result<Want, NoMemory>
    requires { 0 < thread.old.left }
    ensures { IfOk result (Does thread.new (begins (items.Import name is_parent is_lazy) thread.old)) }
{
    // Not for its value: what it says of `name`, that it is a dotted name, is what the start of an import takes.
    let _dotted = name.text();
    let importer = Boxed::new(alloc, Importer::start(name, is_parent, is_lazy))?;
    let left = thread.left;
    thread.left = left - 1;
    Ok(Want::Both(
        Item::Feed(Procedure::Import(importer), In::Start),
        Frame::Imported(left),
    ))
}

/// The import of a name, which may be the parent of one that is imported, and whose module may be loaded
/// at its first use only. Where none more may be open, RecursionError; a name that is no dotted name is
/// not in the profile.
pub fn begin_import(
    alloc: Global,
    name: Text,
    is_parent: bool,
    is_lazy: bool,
    thread: &mut Thread,
) -> Result<Want, NoMemory>
    ensures { IfOk result (Does thread.new (begins (items.Import name is_parent is_lazy) thread.old)) }
{
    if thread.left == 0 {
        return fail(alloc, Fault::TooDeep, thread);
    }
    let Some(dotted) = Dotted::read(&name)? else {
        return fail(alloc, Fault::NotInProfile, thread);
    };
    start_import(alloc, dotted, is_parent, is_lazy, thread)
}

/// The import of the parent of a name, which need not be read. Where none more may be open, RecursionError.
pub fn begin_parent(
    alloc: Global,
    name: Dotted,
    is_parent: bool,
    thread: &mut Thread,
) -> Result<Want, NoMemory>
    ensures { IfOk result (Does thread.new (begins (items.Parent name is_parent) thread.old)) }
{
    if thread.left == 0 {
        return fail(alloc, Fault::TooDeep, thread);
    }
    start_import(alloc, name, is_parent, false, thread)
}

/// The import has ended: as many may be open as before it.
pub fn go_on_imported(left: u32, flow: Flow, thread: &mut Thread) -> Want
    ensures { Does thread.new (goes_on (frames.Imported left) flow thread.old) result }
{
    thread.left = left;
    Want::Go(flow)
}
