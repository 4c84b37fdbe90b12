//! How many loads of each name are open.
ghost use Rattle.std.specs.Prelude.{◌≡◌, ◌+◌, IfOk, OnOk, OnErr};
ghost use Rattle.std.specs.FinMap as map;
ghost use Rattle.std.specs.Option.{option_copied};
ghost use Rattle.import_machine.specs.SpareCounts.{count_of};
ghost use Rattle.machine_spec.specs.Gives.{name_of};
ghost use Rattle.import_machine.specs.Counts.{is_end, ends, begins, has_begun, raised, lowered, raised_at, lowered_at, settled};

use base_types::NoMemory;
use machine_events::{Event, Reply};
use machine_spec::State;
use machine_step::gives;
use spec_core::{Dotted, NameMap};

fn count(counts: &NameMap<u64>, name: &Dotted) -> u64
    ensures { result ≡ count_of counts.now name.now }
{
    match counts.get(name) {
        None => 0,
        Some(count) => *count,
    }
}

// One more of the name. An `Err` changes nothing.
fn raise(counts: &mut NameMap<u64>, name: &Dotted) -> Result<(), NoMemory>
    ensures ok { OnOk result (counts.new ≡ raised counts.old name.now) }
    ensures err { OnErr result (counts.new ≡ counts.old) }
{
    let Some(count) = count(counts, name).checked_add(1) else {
        return Err(NoMemory);
    };
    counts.insert(name.clone()?, count)
}

// One less of the name. It takes no memory.
fn lower(counts: &mut NameMap<u64>, name: &Dotted)
    ensures { counts.new ≡ lowered counts.old name.now }
{
    let count = count(counts, name);
    if count <= 1 {
        drop(counts.remove(name));
    } else {
        counts.set(name, count - 1);
    }
}

/// One more of the name, if there is one. An `Err` changes nothing.
pub(crate) fn raise_at(counts: &mut NameMap<u64>, name: &Option<Dotted>) -> Result<(), NoMemory>
    ensures ok { OnOk result (counts.new ≡ raised_at counts.old name.now) }
    ensures err { OnErr result (counts.new ≡ counts.old) }
{
    match name {
        None => Ok(()),
        Some(name) => raise(counts, name),
    }
}

/// One less of the name, if there is one. It takes no memory.
pub(crate) fn lower_at(counts: &mut NameMap<u64>, name: &Option<Dotted>)
    ensures { counts.new ≡ lowered_at counts.old name.now }
{
    match name {
        None => {}
        Some(name) => lower(counts, name),
    }
}

/// What was raised for the load that may begin is taken back where none has, and what ended is
/// taken off. It takes no memory.
pub(crate) fn settle(
    counts: &mut NameMap<u64>,
    begun: &Option<Dotted>,
    ended: &Option<Dotted>,
    reply: &Reply,
)
    ensures { counts.new ≡ settled counts.old begun.now ended.now (has_begun reply.now) }
{
    if !has_begun(reply) {
        lower_at(counts, begun);
    }
    lower_at(counts, ended);
}

fn has_begun(reply: &Reply) -> bool
    ensures { result ≡ has_begun reply.now }
{
    match reply {
        Reply::Load(_, _) => true,
        Reply::Yours(_, _) => true,
        Reply::Module(_)
        | Reply::Cycle(_)
        | Reply::Halted
        | Reply::Missing
        | Reply::Deadlock
        | Reply::Wait(_)
        | Reply::Mine(_)
        | Reply::Woken
        | Reply::Kept(_)
        | Reply::Lost
        | Reply::LostParent
        | Reply::Value(_)
        | Reply::Unset(_)
        | Reply::Sleeping
        | Reply::Fixed
        | Reply::Names(_)
        | Reply::Loaded(_, _)
        | Reply::Path(_)
        | Reply::Full
        | Reply::Ns(_, _)
        | Reply::Slot(_)
        | Reply::Was(_)
        | Reply::NotThere
        | Reply::Busy(_)
        | Reply::Begun(_)
        | Reply::NoListing
        | Reply::Listing(_, _, _)
        | Reply::Ready
        | Reply::Done => false,
    }
}

fn is_end(event: &Event) -> bool
    ensures { result ≡ is_end event.now }
{
    match event {
        Event::Finish { .. } => true,
        Event::ReloadEnd { .. } => true,
        Event::Ask(_)
        | Event::Take(_)
        | Event::Wake
        | Event::Add { .. }
        | Event::Release(_)
        | Event::GetVar { .. }
        | Event::SetVar { .. }
        | Event::DelVar { .. }
        | Event::Names(_)
        | Event::Source(_)
        | Event::Print(_)
        | Event::PathGet
        | Event::PathAdd { .. }
        | Event::DirGet { .. }
        | Event::DirSet { .. }
        | Event::Invalidate
        | Event::NsGet(_)
        | Event::NsSet { .. }
        | Event::TabGet(_)
        | Event::TabSet { .. }
        | Event::TabDel(_)
        | Event::ReloadBegin { .. }
        | Event::ReloadTake { .. }
        | Event::AddLazy { .. }
        | Event::Rouse(_)
        | Event::Main { .. }
        | Event::End { .. } => false,
    }
}

fn copied(name: Option<&Dotted>) -> Result<Option<Dotted>, NoMemory>
    ensures { IfOk result (λ it. it ≡ option_copied name.entry) }
{
    match name {
        None => Ok(None),
        Some(name) => Ok(Some(name.clone()?)),
    }
}

fn name_of(state: &State, mid: u32) -> Result<Option<Dotted>, NoMemory>
    ensures { IfOk result (λ it. it ≡ name_of state.now mid) }
{
    match state.table.object(mid) {
        None => Ok(None),
        Some(object) => Ok(Some(object.spec.name().clone()?)),
    }
}

fn some(name: &Dotted) -> Result<Option<Dotted>, NoMemory>
    ensures { IfOk result (λ it. it ≡ Some name.now) }
{
    Ok(Some(name.clone()?))
}

/// The name of the load that the event ends.
pub(crate) fn ends(state: &State, event: &Event) -> Result<Option<Dotted>, NoMemory>
    ensures { IfOk result (λ it. it ≡ ends state.now event.now) }
{
    if is_end(event) {
        copied(gives(state, event))
    } else {
        Ok(None)
    }
}

/// The name of the load that the event may open.
pub(crate) fn begins(state: &State, event: &Event) -> Result<Option<Dotted>, NoMemory>
    ensures { IfOk result (λ it. it ≡ begins state.now event.now) }
{
    match event {
        Event::Add { spec, .. } => some(spec.name()),
        Event::ReloadTake { spec, .. } => some(spec.name()),
        Event::Rouse(mid) => name_of(state, *mid),
        Event::Ask(_)
        | Event::Take(_)
        | Event::Wake
        | Event::Finish { .. }
        | Event::Release(_)
        | Event::GetVar { .. }
        | Event::SetVar { .. }
        | Event::DelVar { .. }
        | Event::Names(_)
        | Event::Source(_)
        | Event::Print(_)
        | Event::PathGet
        | Event::PathAdd { .. }
        | Event::DirGet { .. }
        | Event::DirSet { .. }
        | Event::Invalidate
        | Event::NsGet(_)
        | Event::NsSet { .. }
        | Event::TabGet(_)
        | Event::TabSet { .. }
        | Event::TabDel(_)
        | Event::ReloadBegin { .. }
        | Event::ReloadEnd { .. }
        | Event::AddLazy { .. }
        | Event::Main { .. }
        | Event::End { .. } => Ok(None),
    }
}
