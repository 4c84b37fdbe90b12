//! Which lock an event gives back.
ghost use Rattle.std.specs.Prelude.{◌≡◌, slice_get, option_and_then};
ghost use Rattle.std.specs.Option.{option_copied};
ghost use Rattle.machine_spec.specs.Gives.{gives, name_of};

use machine_events::Event;
use machine_spec::State;
use spec_core::Dotted;

fn name_of(machine: &State, mid: u32) -> Option<&Dotted>
    ensures { option_copied result ≡ name_of machine.now mid }
{
    match machine.table.object(mid) {
        None => None,
        Some(object) => Some(object.spec.name()),
    }
}

fn name_of_load(machine: &State, load: u32) -> Option<&Dotted>
    ensures { option_copied result ≡ option_and_then (λ l. name_of machine.now l.mid)
        (slice_get machine.now.table.loads load) }
{
    match machine.table.find_load(load) {
        None => None,
        Some(load) => name_of(machine, load.mid),
    }
}

/// The name whose lock's count the event lowers: of Finish, Release, AddLazy, and a ReloadEnd with
/// a load. It takes no memory.
pub fn gives<'a>(machine: &'a State, event: &'a Event) -> Option<&'a Dotted>
    ensures { option_copied result ≡ gives machine.now event.now }
{
    match event {
        Event::Finish { load, .. } => name_of_load(machine, *load),
        Event::Release(name) => Some(name),
        Event::AddLazy { spec, .. } => Some(spec.name()),
        Event::ReloadEnd { mid, load: Some(_) } => name_of(machine, *mid),
        Event::Ask(_)
        | Event::Take(_)
        | Event::Wake
        | Event::Add { .. }
        | Event::GetVar { .. }
        | Event::SetVar { .. }
        | Event::DelVar { .. }
        | Event::Names(_)
        | Event::Source(_)
        | Event::Print(_)
        | Event::PathGet
        | Event::PathAdd { .. }
        | Event::DirGet { .. }
        | Event::DirSet { .. }
        | Event::Invalidate
        | Event::NsGet(_)
        | Event::NsSet { .. }
        | Event::TabGet(_)
        | Event::TabSet { .. }
        | Event::TabDel(_)
        | Event::ReloadBegin { .. }
        | Event::ReloadTake { .. }
        | Event::ReloadEnd { mid: _, load: None }
        | Event::Rouse(_)
        | Event::Main { .. }
        | Event::End { .. } => None,
    }
}
