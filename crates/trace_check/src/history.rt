//! The replay of a history.
ghost use Rattle.std.specs.Prelude.{◌≡◌, ◌↔◌, length, IfOk, OnOk, IsTrue};
ghost use Rattle.machine_spec.specs.Legal.{Allowed};
ghost use Rattle.machine_spec.specs.Step.{step};
ghost use Rattle.trace_check.specs.Replays.{begins_body, waits, is_cycle, is_deadlock, replied, counts_of, Tests, Replays};
ghost use Rattle.trace_check.specs.Judge.{IsPlaced};

use crate::answers::{Counts, Replayed, Why};
use base_types::{Exact, NoMemory, Same};
use import_machine::Machine;
use machine_events::{Entry, Reply};

fn begins_body(reply: &Reply) -> bool
    ensures { result ≡ begins_body reply.now }
{
    match reply {
        Reply::Load(_, _) => true,
        Reply::Yours(_, _) => true,
        Reply::Module(_)
        | Reply::Cycle(_)
        | Reply::Halted
        | Reply::Missing
        | Reply::Deadlock
        | Reply::Wait(_)
        | Reply::Mine(_)
        | Reply::Woken
        | Reply::Kept(_)
        | Reply::Lost
        | Reply::LostParent
        | Reply::Value(_)
        | Reply::Unset(_)
        | Reply::Sleeping
        | Reply::Fixed
        | Reply::Names(_)
        | Reply::Loaded(_, _)
        | Reply::Path(_)
        | Reply::Full
        | Reply::Ns(_, _)
        | Reply::Slot(_)
        | Reply::Was(_)
        | Reply::NotThere
        | Reply::Busy(_)
        | Reply::Begun(_)
        | Reply::NoListing
        | Reply::Listing(_, _, _)
        | Reply::Ready
        | Reply::Done => false,
    }
}

fn waits(reply: &Reply) -> bool
    ensures { result ≡ waits reply.now }
{
    matches!(reply, Reply::Wait(_))
}

fn is_cycle(reply: &Reply) -> bool
    ensures { result ≡ is_cycle reply.now }
{
    matches!(reply, Reply::Cycle(_))
}

fn is_deadlock(reply: &Reply) -> bool
    ensures { result ≡ is_deadlock reply.now }
{
    matches!(reply, Reply::Deadlock)
}

fn loads_in(entries: &[Entry]) -> usize
    ensures { result ≡ replied begins_body entries.now }
{
    let mut count: usize = 0;
    for entry in entries {
        if begins_body(&entry.reply) {
            count += 1;
        }
    }
    count
}

fn waits_in(entries: &[Entry]) -> usize
    ensures { result ≡ replied waits entries.now }
{
    let mut count: usize = 0;
    for entry in entries {
        if waits(&entry.reply) {
            count += 1;
        }
    }
    count
}

fn cycles_in(entries: &[Entry]) -> usize
    ensures { result ≡ replied is_cycle entries.now }
{
    let mut count: usize = 0;
    for entry in entries {
        if is_cycle(&entry.reply) {
            count += 1;
        }
    }
    count
}

fn deadlocks_in(entries: &[Entry]) -> usize
    ensures { result ≡ replied is_deadlock entries.now }
{
    let mut count: usize = 0;
    for entry in entries {
        if is_deadlock(&entry.reply) {
            count += 1;
        }
    }
    count
}

/// The four counts of a history. It takes no memory.
pub fn counts_of(entries: &[Entry]) -> Counts
    ensures { result ≡ counts_of entries.now }
{
    Counts {
        loads: loads_in(entries) as u64,
        waits: waits_in(entries) as u64,
        cycles: cycles_in(entries) as u64,
        deadlocks: deadlocks_in(entries) as u64,
    }
}

/// The machine makes an allowed event, and tells whether its reply is the recorded one.
fn replies(machine: &mut Machine, entry: &Entry) -> Result<bool, NoMemory>
    requires { Allowed machine.old entry.now.thread entry.now.event }
    ensures same { IfOk result (λ same. IsTrue same
        ↔ (entry.now.reply ≡ (step machine.old entry.now.thread entry.now.event).0)) }
    ensures ok { OnOk result (machine.new ≡ (step machine.old entry.now.thread entry.now.event).1) }
{
    let event = entry.event.copy()?;
    let reply = machine.step(entry.thread, event)?;
    let same = entry.reply.is_same(&reply);
    drop(reply);
    Ok(same)
}

/// One entry on the machine: why it is not as the machine says, if it is not.
pub(crate) fn fault(machine: &mut Machine, entry: &Entry) -> Result<Option<Why>, NoMemory>
    ensures { IfOk result (Tests machine.old machine.new entry.now) }
{
    if entry.thread >= machine.scripts() {
        return Ok(Some(Why::Thread));
    }
    if !machine.allowed(entry.thread, &entry.event) {
        return Ok(Some(Why::Allowed));
    }
    if replies(machine, entry)? {
        Ok(None)
    } else {
        Ok(Some(Why::Reply))
    }
}

/// The answer of a replay that broke at a place. A place that 32 bits do not hold is want of memory.
pub(crate) fn broken(at: usize, why: Why) -> Result<Replayed, NoMemory>
    ensures { IfOk result (λ it. it ≡ Replayed.Breaks at why) }
{
    match u32::try_from(at) {
        Ok(at) => Ok(Replayed::Breaks { at, why }),
        Err(_) => Err(NoMemory),
    }
}

/// Replays entries on a machine: each must be of one of the scripts, be allowed where it stands, and
/// have the reply of the machine.
pub fn replay(machine: Machine, entries: &[Entry]) -> Result<Replayed, NoMemory>
    ensures replays { IfOk result (Replays machine entries.now) }
    ensures placed { IfOk result (λ it. IsPlaced it (length entries.now)) }
{
    let mut machine = machine;
    let mut at: usize = 0;
    for entry in entries {
        if let Some(why) = fault(&mut machine, entry)? {
            return broken(at, why);
        }
        at += 1;
    }
    Ok(Replayed::Legal(counts_of(entries)))
}
