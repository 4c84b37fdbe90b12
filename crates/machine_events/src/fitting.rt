//! Whether a reply is of a kind that the table of events gives for its event.
ghost use Rattle.std.specs.Prelude.{◌≡◌, ◌↔◌, IsTrue};
ghost use Rattle.machine_events.specs.declared.event.Reply.TheVariants as replies;
ghost use Rattle.machine_events.specs.Fitting.{Fits, IsAsked, IsTaken, IsLoad, IsFinished, IsRead, IsSet, IsDeleted, IsNames, IsLoaded, IsPath, IsAdded, IsListing, IsNs, IsEntry, IsEntered, IsDropped, IsBegun, IsReloading, IsReloaded, IsModule, IsRoused};

use crate::event::{Event, Reply};

fn is_asked(reply: &Reply) -> bool
    ensures { IsTrue result ↔ IsAsked reply.now }
{
    match reply {
        Reply::Missing => true,
        Reply::Deadlock => true,
        Reply::Wait(_) => true,
        Reply::Halted => true,
        Reply::Module(_) => true,
        Reply::Cycle(_) => true,
        _ => false,
    }
}

fn is_taken(reply: &Reply) -> bool
    ensures { IsTrue result ↔ IsTaken reply.now }
{
    match reply {
        Reply::Mine(_) => true,
        Reply::Deadlock => true,
        Reply::Wait(_) => true,
        Reply::Halted => true,
        Reply::Module(_) => true,
        Reply::Cycle(_) => true,
        _ => false,
    }
}

fn is_woken(reply: &Reply) -> bool
    ensures { IsTrue result ↔ (reply.now ≡ replies.Woken) }
{
    match reply {
        Reply::Woken => true,
        _ => false,
    }
}

fn is_load(reply: &Reply) -> bool
    ensures { IsTrue result ↔ IsLoad reply.now }
{
    match reply {
        Reply::Load(_, _) => true,
        _ => false,
    }
}

fn is_finished(good: bool, reply: &Reply) -> bool
    ensures { IsTrue result ↔ IsFinished good reply.now }
{
    match reply {
        Reply::Kept(_) => true,
        Reply::Lost => good,
        Reply::LostParent => good,
        _ => false,
    }
}

fn is_read(raw: bool, reply: &Reply) -> bool
    ensures { IsTrue result ↔ IsRead raw reply.now }
{
    match reply {
        Reply::Sleeping => !raw,
        Reply::Value(_) => true,
        Reply::Unset(_) => true,
        _ => false,
    }
}

fn is_set(raw: bool, reply: &Reply) -> bool
    ensures { IsTrue result ↔ IsSet raw reply.now }
{
    match reply {
        Reply::Fixed => true,
        Reply::Sleeping => !raw,
        Reply::Done => true,
        _ => false,
    }
}

fn is_deleted(raw: bool, reply: &Reply) -> bool
    ensures { IsTrue result ↔ IsDeleted raw reply.now }
{
    match reply {
        Reply::Fixed => true,
        Reply::Sleeping => !raw,
        Reply::Done => true,
        Reply::Unset(_) => true,
        _ => false,
    }
}

fn is_names(reply: &Reply) -> bool
    ensures { IsTrue result ↔ IsNames reply.now }
{
    match reply {
        Reply::Names(_) => true,
        _ => false,
    }
}

fn is_loaded(reply: &Reply) -> bool
    ensures { IsTrue result ↔ IsLoaded reply.now }
{
    match reply {
        Reply::Loaded(_, _) => true,
        _ => false,
    }
}

fn is_path(reply: &Reply) -> bool
    ensures { IsTrue result ↔ IsPath reply.now }
{
    match reply {
        Reply::Path(_) => true,
        _ => false,
    }
}

fn is_added(reply: &Reply) -> bool
    ensures { IsTrue result ↔ IsAdded reply.now }
{
    match reply {
        Reply::Full => true,
        Reply::Done => true,
        _ => false,
    }
}

fn is_listing(reply: &Reply) -> bool
    ensures { IsTrue result ↔ IsListing reply.now }
{
    match reply {
        Reply::NoListing => true,
        Reply::Listing(_, _, _) => true,
        _ => false,
    }
}

fn is_ns(reply: &Reply) -> bool
    ensures { IsTrue result ↔ IsNs reply.now }
{
    match reply {
        Reply::Ns(_, _) => true,
        _ => false,
    }
}

fn is_entry(reply: &Reply) -> bool
    ensures { IsTrue result ↔ IsEntry reply.now }
{
    match reply {
        Reply::Slot(_) => true,
        _ => false,
    }
}

fn is_entered(reply: &Reply) -> bool
    ensures { IsTrue result ↔ IsEntered reply.now }
{
    match reply {
        Reply::Fixed => true,
        Reply::Done => true,
        _ => false,
    }
}

fn is_dropped(reply: &Reply) -> bool
    ensures { IsTrue result ↔ IsDropped reply.now }
{
    match reply {
        Reply::Fixed => true,
        Reply::Was(_) => true,
        _ => false,
    }
}

fn is_begun(raw: bool, reply: &Reply) -> bool
    ensures { IsTrue result ↔ IsBegun raw reply.now }
{
    match reply {
        Reply::Fixed => true,
        Reply::Sleeping => !raw,
        Reply::NotThere => true,
        Reply::Busy(_) => true,
        Reply::Begun(_) => true,
        _ => false,
    }
}

fn is_reloading(reply: &Reply) -> bool
    ensures { IsTrue result ↔ IsReloading reply.now }
{
    match reply {
        Reply::Deadlock => true,
        Reply::Wait(_) => true,
        Reply::NotThere => true,
        Reply::Load(_, _) => true,
        _ => false,
    }
}

fn is_reloaded(reply: &Reply) -> bool
    ensures { IsTrue result ↔ IsReloaded reply.now }
{
    match reply {
        Reply::Lost => true,
        Reply::Kept(_) => true,
        _ => false,
    }
}

fn is_module(reply: &Reply) -> bool
    ensures { IsTrue result ↔ IsModule reply.now }
{
    match reply {
        Reply::Module(_) => true,
        _ => false,
    }
}

fn is_roused(reply: &Reply) -> bool
    ensures { IsTrue result ↔ IsRoused reply.now }
{
    match reply {
        Reply::Ready => true,
        Reply::Cycle(_) => true,
        Reply::Yours(_, _) => true,
        Reply::Deadlock => true,
        Reply::Wait(_) => true,
        _ => false,
    }
}

fn is_done(reply: &Reply) -> bool
    ensures { IsTrue result ↔ (reply.now ≡ replies.Done) }
{
    match reply {
        Reply::Done => true,
        _ => false,
    }
}

/// Whether a reply is of a kind that the table of events gives for its event. It takes no memory.
pub fn fits(event: &Event, reply: &Reply) -> bool
    ensures { IsTrue result ↔ Fits event.now reply.now }
{
    match event {
        Event::Ask(_) => is_asked(reply),
        Event::Take(_) => is_taken(reply),
        Event::Wake => is_woken(reply),
        Event::Add { spec: _, text: _ } => is_load(reply),
        Event::Finish { load: _, good } => is_finished(*good, reply),
        Event::Release(_) => is_done(reply),
        Event::GetVar {
            mid: _,
            name: _,
            raw,
        } => is_read(*raw, reply),
        Event::SetVar {
            raw,
            mid: _,
            name: _,
            value: _,
        } => is_set(*raw, reply),
        Event::DelVar {
            mid: _,
            name: _,
            raw,
        } => is_deleted(*raw, reply),
        Event::Names(_) => is_names(reply),
        Event::Source(_) => is_loaded(reply),
        Event::Print(_) => is_done(reply),
        Event::PathGet => is_path(reply),
        Event::PathAdd { at: _, value: _ } => is_added(reply),
        Event::DirGet { dir: _, part: _ } => is_listing(reply),
        Event::DirSet { dir: _, listing: _ } => is_done(reply),
        Event::Invalidate => is_done(reply),
        Event::NsGet(_) => is_ns(reply),
        Event::NsSet { mid: _, state: _ } => is_done(reply),
        Event::TabGet(_) => is_entry(reply),
        Event::TabSet { name: _, slot: _ } => is_entered(reply),
        Event::TabDel(_) => is_dropped(reply),
        Event::ReloadBegin { mid: _, raw } => is_begun(*raw, reply),
        Event::ReloadTake {
            mid: _,
            spec: _,
            text: _,
        } => is_reloading(reply),
        Event::ReloadEnd { mid: _, load: None } => is_done(reply),
        Event::ReloadEnd {
            mid: _,
            load: Some(_),
        } => is_reloaded(reply),
        Event::AddLazy { spec: _, text: _ } => is_module(reply),
        Event::Rouse(_) => is_roused(reply),
        Event::Main { spec: _, text: _ } => is_done(reply),
        Event::End {
            outcome: _,
            spent: _,
        } => is_done(reply),
    }
}
