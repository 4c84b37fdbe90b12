//! Exact copies.
ghost use Rattle.std.specs.Prelude.{◌≡◌, IfOk};

use crate::event::{Entry, Event, Outcome, Pair, Reply};
use crate::module::Slot;
use base_types::{Exact, NoMemory, Text};
use py_value::Value;

impl Exact for Slot {
    fn copy(&self) -> Result<Slot, NoMemory> {
        match self {
            Slot::Absent => Ok(Slot::Absent),
            Slot::Halted => Ok(Slot::Halted),
            Slot::Module(module) => Ok(Slot::Module(module.copy()?)),
        }
    }
}

impl Exact for Outcome {
    fn copy(&self) -> Result<Outcome, NoMemory> {
        match self {
            Outcome::Normal => Ok(Outcome::Normal),
            Outcome::Raised(error) => Ok(Outcome::Raised(error.copy()?)),
            Outcome::Fuel => Ok(Outcome::Fuel),
            Outcome::Read => Ok(Outcome::Read),
        }
    }
}

// A call clears the places of all locals of its function, and every event that happens is copied:
// so what scripts ask for most often is met with few locals, and all else by `copy_of_event`.

fn copy_of_get(mid: u32, name: &Text, raw: bool) -> Result<Event, NoMemory>
    ensures { IfOk result (λ it. it ≡ Event.GetVar mid name.now raw) }
{
    Ok(Event::GetVar {
        mid,
        name: name.copy()?,
        raw,
    })
}

fn copy_of_set(mid: u32, name: &Text, value: &Value, raw: bool) -> Result<Event, NoMemory>
    ensures { IfOk result (λ it. it ≡ Event.SetVar raw mid name.now value.now) }
{
    Ok(Event::SetVar {
        raw,
        mid,
        name: name.copy()?,
        value: value.copy()?,
    })
}

fn copy_of_text(text: &Text) -> Result<Event, NoMemory>
    ensures { IfOk result (λ it. it ≡ Event.Print text.now) }
{
    Ok(Event::Print(text.copy()?))
}

fn copy_of_event(event: &Event) -> Result<Event, NoMemory>
    ensures { IfOk result (λ it. it ≡ event.now) }
{
    match event {
        Event::Ask(name) => Ok(Event::Ask(name.copy()?)),
        Event::Take(name) => Ok(Event::Take(name.copy()?)),
        Event::Wake => Ok(Event::Wake),
        Event::Add { spec, text } => Ok(Event::Add {
            spec: spec.copy()?,
            text: text.copy()?,
        }),
        Event::Finish { load, good } => Ok(Event::Finish {
            load: *load,
            good: *good,
        }),
        Event::Release(name) => Ok(Event::Release(name.copy()?)),
        Event::GetVar { mid, name, raw } => copy_of_get(*mid, name, *raw),
        Event::SetVar {
            raw,
            mid,
            name,
            value,
        } => copy_of_set(*mid, name, value, *raw),
        Event::DelVar { mid, name, raw } => Ok(Event::DelVar {
            mid: *mid,
            name: name.copy()?,
            raw: *raw,
        }),
        Event::Names(mid) => Ok(Event::Names(*mid)),
        Event::Source(load) => Ok(Event::Source(*load)),
        Event::Print(text) => copy_of_text(text),
        Event::PathGet => Ok(Event::PathGet),
        Event::PathAdd { at, value } => Ok(Event::PathAdd {
            at: *at,
            value: value.copy()?,
        }),
        Event::DirGet { dir, part } => Ok(Event::DirGet {
            dir: dir.copy()?,
            part: part.copy()?,
        }),
        Event::DirSet { dir, listing } => Ok(Event::DirSet {
            dir: dir.copy()?,
            listing: listing.copy()?,
        }),
        Event::Invalidate => Ok(Event::Invalidate),
        Event::NsGet(mid) => Ok(Event::NsGet(*mid)),
        Event::NsSet { mid, state } => Ok(Event::NsSet {
            mid: *mid,
            state: state.copy()?,
        }),
        Event::TabGet(name) => Ok(Event::TabGet(name.copy()?)),
        Event::TabSet { name, slot } => Ok(Event::TabSet {
            name: name.copy()?,
            slot: slot.copy()?,
        }),
        Event::TabDel(name) => Ok(Event::TabDel(name.copy()?)),
        Event::ReloadBegin { mid, raw } => Ok(Event::ReloadBegin {
            mid: *mid,
            raw: *raw,
        }),
        Event::ReloadTake { mid, spec, text } => Ok(Event::ReloadTake {
            mid: *mid,
            spec: spec.copy()?,
            text: text.copy()?,
        }),
        Event::ReloadEnd { mid, load } => Ok(Event::ReloadEnd {
            mid: *mid,
            load: *load,
        }),
        Event::AddLazy { spec, text } => Ok(Event::AddLazy {
            spec: spec.copy()?,
            text: text.copy()?,
        }),
        Event::Rouse(mid) => Ok(Event::Rouse(*mid)),
        Event::Main { spec, text } => Ok(Event::Main {
            spec: spec.copy()?,
            text: text.copy()?,
        }),
        Event::End { outcome, spent } => Ok(Event::End {
            outcome: outcome.copy()?,
            spent: *spent,
        }),
    }
}

impl Exact for Event {
    fn copy(&self) -> Result<Event, NoMemory> {
        match self {
            Event::GetVar { mid, name, raw } => copy_of_get(*mid, name, *raw),
            Event::SetVar {
                raw,
                mid,
                name,
                value,
            } => copy_of_set(*mid, name, value, *raw),
            Event::Print(text) => copy_of_text(text),
            _ => copy_of_event(self),
        }
    }
}

fn copy_of_value(value: &Value) -> Result<Reply, NoMemory>
    ensures { IfOk result (λ it. it ≡ Reply.Value value.now) }
{
    Ok(Reply::Value(value.copy()?))
}

fn copy_of_reply(reply: &Reply) -> Result<Reply, NoMemory>
    ensures { IfOk result (λ it. it ≡ reply.now) }
{
    match reply {
        Reply::Module(module) => Ok(Reply::Module(module.copy()?)),
        Reply::Cycle(module) => Ok(Reply::Cycle(module.copy()?)),
        Reply::Halted => Ok(Reply::Halted),
        Reply::Missing => Ok(Reply::Missing),
        Reply::Deadlock => Ok(Reply::Deadlock),
        Reply::Wait(name) => Ok(Reply::Wait(name.copy()?)),
        Reply::Mine(epoch) => Ok(Reply::Mine(*epoch)),
        Reply::Woken => Ok(Reply::Woken),
        Reply::Load(load, mid) => Ok(Reply::Load(*load, *mid)),
        Reply::Kept(slot) => Ok(Reply::Kept(slot.copy()?)),
        Reply::Lost => Ok(Reply::Lost),
        Reply::LostParent => Ok(Reply::LostParent),
        Reply::Value(value) => copy_of_value(value),
        Reply::Unset(init) => Ok(Reply::Unset(*init)),
        Reply::Sleeping => Ok(Reply::Sleeping),
        Reply::Fixed => Ok(Reply::Fixed),
        Reply::Names(names) => Ok(Reply::Names(names.copy()?)),
        Reply::Loaded(module, text) => Ok(Reply::Loaded(module.copy()?, text.copy()?)),
        Reply::Path(items) => Ok(Reply::Path(items.copy()?)),
        Reply::Full => Ok(Reply::Full),
        Reply::Ns(state, epoch) => Ok(Reply::Ns(state.copy()?, *epoch)),
        Reply::Slot(slot) => Ok(Reply::Slot(slot.copy()?)),
        Reply::Was(slot) => Ok(Reply::Was(slot.copy()?)),
        Reply::NotThere => Ok(Reply::NotThere),
        Reply::Busy(module) => Ok(Reply::Busy(module.copy()?)),
        Reply::Begun(epoch) => Ok(Reply::Begun(*epoch)),
        Reply::Yours(load, text) => Ok(Reply::Yours(*load, text.copy()?)),
        Reply::NoListing => Ok(Reply::NoListing),
        Reply::Listing(time, part, file) => Ok(Reply::Listing(*time, *part, *file)),
        Reply::Ready => Ok(Reply::Ready),
        Reply::Done => Ok(Reply::Done),
    }
}

impl Exact for Reply {
    fn copy(&self) -> Result<Reply, NoMemory> {
        match self {
            Reply::Value(value) => copy_of_value(value),
            Reply::Done => Ok(Reply::Done),
            _ => copy_of_reply(self),
        }
    }
}

impl Exact for Entry {
    fn copy(&self) -> Result<Entry, NoMemory> {
        Ok(Entry {
            thread: self.thread,
            event: self.event.copy()?,
            reply: self.reply.copy()?,
        })
    }
}

impl Exact for Pair {
    fn copy(&self) -> Result<Pair, NoMemory> {
        Ok(Pair {
            event: self.event.copy()?,
            reply: self.reply.copy()?,
        })
    }
}
