//! How an event changes what a script holds.
ghost use Rattle.std.specs.Prelude.{◌≡◌, IfOk, OnOk, List};
ghost use Rattle.machine_events.specs.declared.event.Reply.{Reply};
ghost use Rattle.machine_shown.specs.Holdings.{Holding};
ghost use Rattle.machine_shown.specs.Shown.{holds};
ghost use Rattle.drive_account.specs.Holds.{held_in};
ghost use Rattle.drive_account.specs.Changes.{changed};

use crate::held::{Held, Hold};
use base_types::{Exact, NoMemory};
use machine_events::{Event, Reply};
use spec_core::Dotted;

/// How an event changes what a script holds, once its reply is known.
#[derive(Drop)]
pub enum Change {
    Nothing,
    /// A lock may be taken.
    Takes(Dotted),
    /// This is held no more.
    Gives(Hold),
    /// The lock becomes a body.
    Adds(Dotted),
    /// A body may begin.
    Rouses,
    /// A reload of this module may begin.
    Begins(u32),
    /// The body of a reload of this module may begin.
    Reloads(u32),
}

/// How an event changes what is held.
pub fn change_of(event: &Event) -> Result<Change, NoMemory>
    ensures { IfOk result (λ change. (reply : Reply) (held : List Holding) → changed change reply held
        ≡ holds event.now reply held) }
{
    match event {
        Event::Take(name) => Ok(Change::Takes(name.copy()?)),
        Event::Release(name) => Ok(Change::Gives(Hold::Taken(name.copy()?))),
        Event::Add { spec, text: _ } => Ok(Change::Adds(spec.name().copy()?)),
        Event::AddLazy { spec, text: _ } => Ok(Change::Gives(Hold::Taken(spec.name().copy()?))),
        Event::Finish { load, good: _ } => Ok(Change::Gives(Hold::Loading(*load))),
        Event::Rouse(_) => Ok(Change::Rouses),
        Event::ReloadBegin { mid, raw: _ } => Ok(Change::Begins(*mid)),
        Event::ReloadTake {
            mid,
            spec: _,
            text: _,
        } => Ok(Change::Reloads(*mid)),
        Event::ReloadEnd { mid, load } => Ok(Change::Gives(Hold::Reloading {
            mid: *mid,
            load: *load,
        })),
        Event::Ask(_)
        | Event::Wake
        | Event::GetVar { .. }
        | Event::SetVar { .. }
        | Event::DelVar { .. }
        | Event::Names(_)
        | Event::Source(_)
        | Event::Print(_)
        | Event::PathGet
        | Event::PathAdd { .. }
        | Event::DirGet { .. }
        | Event::DirSet { .. }
        | Event::Invalidate
        | Event::NsGet(_)
        | Event::NsSet { .. }
        | Event::TabGet(_)
        | Event::TabSet { .. }
        | Event::TabDel(_)
        | Event::Main { .. }
        | Event::End { .. } => Ok(Change::Nothing),
    }
}

impl Held {
    /// What is held after an event and its reply. Where memory is wanted, what is held is not known.
    pub fn change(&mut self, change: Change, reply: &Reply) -> Result<(), NoMemory>
        ensures { OnOk result (held_in self.new ≡ changed change reply.now (held_in self.old)) }
    {
        match change {
            Change::Nothing => Ok(()),
            Change::Gives(hold) => {
                self.give(&hold);
                Ok(())
            }
            Change::Takes(name) => match reply {
                Reply::Mine(_) => self.put(Hold::Taken(name)),
                _ => Ok(()),
            },
            Change::Adds(name) => match reply {
                Reply::Load(load, _) => {
                    self.turn(&Hold::Taken(name), Hold::Loading(*load));
                    Ok(())
                }
                _ => Ok(()),
            },
            Change::Rouses => match reply {
                Reply::Yours(load, _) => self.put(Hold::Loading(*load)),
                _ => Ok(()),
            },
            Change::Begins(mid) => match reply {
                Reply::Begun(_) => self.put(Hold::Reloading { mid, load: None }),
                _ => Ok(()),
            },
            Change::Reloads(mid) => match reply {
                Reply::Load(load, _) => {
                    let load = Some(*load);
                    self.turn(
                        &Hold::Reloading { mid, load: None },
                        Hold::Reloading { mid, load },
                    );
                    Ok(())
                }
                _ => Ok(()),
            },
        }
    }
}
