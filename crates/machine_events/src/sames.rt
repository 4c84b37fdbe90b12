//! Equality as contracts see it.
ghost use Rattle.std.specs.Prelude.{◌≡◌, ◌↔◌, IsTrue};

use crate::event::{Event, Outcome, Reply};
use crate::module::Slot;
use base_types::Same;

impl Same for Slot {
    fn is_same(&self, other: &Slot) -> bool {
        match self {
            Slot::Absent => match other {
                Slot::Absent => true,
                _ => false,
            },
            Slot::Halted => match other {
                Slot::Halted => true,
                _ => false,
            },
            Slot::Module(a) => match other {
                Slot::Module(b) => a.is_same(b),
                _ => false,
            },
        }
    }
}

impl Same for Outcome {
    fn is_same(&self, other: &Outcome) -> bool {
        match self {
            Outcome::Normal => match other {
                Outcome::Normal => true,
                _ => false,
            },
            Outcome::Raised(a) => match other {
                Outcome::Raised(b) => a.is_same(b),
                _ => false,
            },
            Outcome::Fuel => match other {
                Outcome::Fuel => true,
                _ => false,
            },
            Outcome::Read => match other {
                Outcome::Read => true,
                _ => false,
            },
        }
    }
}

impl Same for Event {
    fn is_same(&self, other: &Event) -> bool {
        match self {
            Event::Ask(a) => match other {
                Event::Ask(b) => a.is_same(b),
                _ => false,
            },
            Event::Take(a) => match other {
                Event::Take(b) => a.is_same(b),
                _ => false,
            },
            Event::Wake => match other {
                Event::Wake => true,
                _ => false,
            },
            Event::Add { spec, text } => match other {
                Event::Add {
                    spec: to_spec,
                    text: to_text,
                } => spec.is_same(to_spec) && text.is_same(to_text),
                _ => false,
            },
            Event::Finish { load, good } => match other {
                Event::Finish {
                    load: to_load,
                    good: to_good,
                } => *load == *to_load && *good == *to_good,
                _ => false,
            },
            Event::Release(a) => match other {
                Event::Release(b) => a.is_same(b),
                _ => false,
            },
            Event::GetVar { mid, name, raw } => match other {
                Event::GetVar {
                    mid: to_mid,
                    name: to_name,
                    raw: to_raw,
                } => *mid == *to_mid && name.is_same(to_name) && *raw == *to_raw,
                _ => false,
            },
            Event::SetVar {
                raw,
                mid,
                name,
                value,
            } => match other {
                Event::SetVar {
                    raw: to_raw,
                    mid: to_mid,
                    name: to_name,
                    value: to_value,
                } => *mid == *to_mid
                    && name.is_same(to_name)
                    && value.is_same(to_value)
                    && *raw == *to_raw,
                _ => false,
            },
            Event::DelVar { mid, name, raw } => match other {
                Event::DelVar {
                    mid: to_mid,
                    name: to_name,
                    raw: to_raw,
                } => *mid == *to_mid && name.is_same(to_name) && *raw == *to_raw,
                _ => false,
            },
            Event::Names(a) => match other {
                Event::Names(b) => *a == *b,
                _ => false,
            },
            Event::Source(a) => match other {
                Event::Source(b) => *a == *b,
                _ => false,
            },
            Event::Print(a) => match other {
                Event::Print(b) => a.is_same(b),
                _ => false,
            },
            Event::PathGet => match other {
                Event::PathGet => true,
                _ => false,
            },
            Event::PathAdd { at, value } => match other {
                Event::PathAdd {
                    at: to_at,
                    value: to_value,
                } => at.is_same(to_at) && value.is_same(to_value),
                _ => false,
            },
            Event::DirGet { dir, part } => match other {
                Event::DirGet {
                    dir: to_dir,
                    part: to_part,
                } => dir.is_same(to_dir) && part.is_same(to_part),
                _ => false,
            },
            Event::DirSet { dir, listing } => match other {
                Event::DirSet {
                    dir: to_dir,
                    listing: to_listing,
                } => dir.is_same(to_dir) && listing.is_same(to_listing),
                _ => false,
            },
            Event::Invalidate => match other {
                Event::Invalidate => true,
                _ => false,
            },
            Event::NsGet(a) => match other {
                Event::NsGet(b) => *a == *b,
                _ => false,
            },
            Event::NsSet { mid, state } => match other {
                Event::NsSet {
                    mid: to_mid,
                    state: to_state,
                } => *mid == *to_mid && state.is_same(to_state),
                _ => false,
            },
            Event::TabGet(a) => match other {
                Event::TabGet(b) => a.is_same(b),
                _ => false,
            },
            Event::TabSet { name, slot } => match other {
                Event::TabSet {
                    name: to_name,
                    slot: to_slot,
                } => name.is_same(to_name) && slot.is_same(to_slot),
                _ => false,
            },
            Event::TabDel(a) => match other {
                Event::TabDel(b) => a.is_same(b),
                _ => false,
            },
            Event::ReloadBegin { mid, raw } => match other {
                Event::ReloadBegin {
                    mid: to_mid,
                    raw: to_raw,
                } => *mid == *to_mid && *raw == *to_raw,
                _ => false,
            },
            Event::ReloadTake { mid, spec, text } => match other {
                Event::ReloadTake {
                    mid: to_mid,
                    spec: to_spec,
                    text: to_text,
                } => *mid == *to_mid && spec.is_same(to_spec) && text.is_same(to_text),
                _ => false,
            },
            Event::ReloadEnd { mid, load } => match other {
                Event::ReloadEnd {
                    mid: to_mid,
                    load: to_load,
                } => *mid == *to_mid && load.is_same(to_load),
                _ => false,
            },
            Event::AddLazy { spec, text } => match other {
                Event::AddLazy {
                    spec: to_spec,
                    text: to_text,
                } => spec.is_same(to_spec) && text.is_same(to_text),
                _ => false,
            },
            Event::Rouse(a) => match other {
                Event::Rouse(b) => *a == *b,
                _ => false,
            },
            Event::Main { spec, text } => match other {
                Event::Main {
                    spec: to_spec,
                    text: to_text,
                } => spec.is_same(to_spec) && text.is_same(to_text),
                _ => false,
            },
            Event::End { outcome, spent } => match other {
                Event::End {
                    outcome: to_outcome,
                    spent: to_spent,
                } => outcome.is_same(to_outcome) && *spent == *to_spent,
                _ => false,
            },
        }
    }
}

impl Same for Reply {
    fn is_same(&self, other: &Reply) -> bool {
        match self {
            Reply::Module(a) => match other {
                Reply::Module(b) => a.is_same(b),
                _ => false,
            },
            Reply::Cycle(a) => match other {
                Reply::Cycle(b) => a.is_same(b),
                _ => false,
            },
            Reply::Halted => match other {
                Reply::Halted => true,
                _ => false,
            },
            Reply::Missing => match other {
                Reply::Missing => true,
                _ => false,
            },
            Reply::Deadlock => match other {
                Reply::Deadlock => true,
                _ => false,
            },
            Reply::Wait(a) => match other {
                Reply::Wait(b) => a.is_same(b),
                _ => false,
            },
            Reply::Mine(a) => match other {
                Reply::Mine(b) => *a == *b,
                _ => false,
            },
            Reply::Woken => match other {
                Reply::Woken => true,
                _ => false,
            },
            Reply::Load(load, mid) => match other {
                Reply::Load(to_load, to_mid) => *load == *to_load && *mid == *to_mid,
                _ => false,
            },
            Reply::Kept(a) => match other {
                Reply::Kept(b) => a.is_same(b),
                _ => false,
            },
            Reply::Lost => match other {
                Reply::Lost => true,
                _ => false,
            },
            Reply::LostParent => match other {
                Reply::LostParent => true,
                _ => false,
            },
            Reply::Value(a) => match other {
                Reply::Value(b) => a.is_same(b),
                _ => false,
            },
            Reply::Unset(a) => match other {
                Reply::Unset(b) => *a == *b,
                _ => false,
            },
            Reply::Sleeping => match other {
                Reply::Sleeping => true,
                _ => false,
            },
            Reply::Fixed => match other {
                Reply::Fixed => true,
                _ => false,
            },
            Reply::Names(a) => match other {
                Reply::Names(b) => a.is_same(b),
                _ => false,
            },
            Reply::Loaded(m, text) => match other {
                Reply::Loaded(to_m, to_text) => m.is_same(to_m) && text.is_same(to_text),
                _ => false,
            },
            Reply::Path(a) => match other {
                Reply::Path(b) => a.is_same(b),
                _ => false,
            },
            Reply::Full => match other {
                Reply::Full => true,
                _ => false,
            },
            Reply::Ns(state, epoch) => match other {
                Reply::Ns(to_state, to_epoch) => state.is_same(to_state) && *epoch == *to_epoch,
                _ => false,
            },
            Reply::Slot(a) => match other {
                Reply::Slot(b) => a.is_same(b),
                _ => false,
            },
            Reply::Was(a) => match other {
                Reply::Was(b) => a.is_same(b),
                _ => false,
            },
            Reply::NotThere => match other {
                Reply::NotThere => true,
                _ => false,
            },
            Reply::Busy(a) => match other {
                Reply::Busy(b) => a.is_same(b),
                _ => false,
            },
            Reply::Begun(a) => match other {
                Reply::Begun(b) => *a == *b,
                _ => false,
            },
            Reply::Yours(load, text) => match other {
                Reply::Yours(to_load, to_text) => *load == *to_load && text.is_same(to_text),
                _ => false,
            },
            Reply::NoListing => match other {
                Reply::NoListing => true,
                _ => false,
            },
            Reply::Listing(time, part, file) => match other {
                Reply::Listing(to_time, to_part, to_file) => *time == *to_time
                    && *part == *to_part
                    && *file == *to_file,
                _ => false,
            },
            Reply::Ready => match other {
                Reply::Ready => true,
                _ => false,
            },
            Reply::Done => match other {
                Reply::Done => true,
                _ => false,
            },
        }
    }
}
