//! Waiting for a lock, and whether that would close a cycle.
ghost use Rattle.std.specs.Prelude.{◌≡◌, ◌<◌, None, IfOk, OnOk, OnErr, if◌then◌else◌};
ghost use Rattle.std.specs.FinMap as maps;
ghost use Rattle.machine_events.specs.declared.event.Reply.TheVariants.{Deadlock};
ghost use Rattle.module_lock.specs.Table.{closes, is_free, took_of, after_take};
ghost use Rattle.machine_spec.specs.Waits.{wait_reply, wait_after};

use base_types::{Exact, NoMemory};
use machine_events::Reply;
use module_lock::{Locks, Steps, Took};
use spec_core::Dotted;
use std::marker::Brand;
use std::sync::ledger::{Blank, Ledger};

// Whether waiting for the lock would close a cycle, by a counter of its own.
fn closes_by<L: Ledger>(locks: &Locks, thread: u32, name: &Dotted, blank: Blank) -> bool
    requires name { blank.name ≡ L.name }
    requires parts { blank.parts ≡ L.parts }
    requires some { 0 < L.parts }
    ensures { result ≡ closes locks.now thread name.now }
{
    let mut steps = Steps::<L>::new(blank);
    locks.closes(thread, name, &mut steps)
}

/// Whether waiting for the lock would close a cycle.
pub fn closes(locks: &Locks, thread: u32, name: &Dotted) -> bool
    ensures { result ≡ closes locks.now thread name.now }
{
    closes_by::<Brand>(locks, thread, name, Blank::new(1))
}

// Lets a reply go in whose place another comes. It stands apart, since a call clears a place for each part of what its
// function may let go.
fn let_go(reply: Reply) {
    drop(reply);
}

/// Waits for the name, or answers that this would close a cycle.
pub fn wait_or(
    locks: &mut Locks,
    thread: u32,
    name: Dotted,
    blocked: Reply,
) -> Result<Reply, NoMemory>
    ensures reply { IfOk result (λ reply. reply ≡ wait_reply locks.old thread name blocked) }
    ensures ok { OnOk result (locks.new ≡ wait_after locks.old thread name) }
    ensures err { OnErr result (locks.new ≡ locks.old) }
{
    if closes(locks, thread, &name) {
        return Ok(blocked);
    }
    let_go(blocked);
    let awaited = name.copy()?;
    locks.queue(thread, awaited)?;
    Ok(Reply::Wait(name))
}

// Takes the lock or waits for it, by a counter of its own.
fn take_by<L: Ledger>(
    locks: &mut Locks,
    thread: u32,
    name: &Dotted,
    blank: Blank,
) -> Result<Took, NoMemory>
    requires waits { maps.get locks.old.waits thread ≡ None }
    requires name { blank.name ≡ L.name }
    requires parts { blank.parts ≡ L.parts }
    requires some { 0 < L.parts }
    ensures took { IfOk result (λ took. took ≡ took_of locks.old thread name.now) }
    ensures ok { OnOk result (locks.new ≡ after_take locks.old thread name.now) }
    ensures err { OnErr result (locks.new ≡ locks.old) }
{
    let mut steps = Steps::<L>::new(blank);
    locks.take(thread, name, &mut steps)
}

fn take(locks: &mut Locks, thread: u32, name: &Dotted) -> Result<Took, NoMemory>
    requires waits { maps.get locks.old.waits thread ≡ None }
    ensures took { IfOk result (λ took. took ≡ took_of locks.old thread name.now) }
    ensures ok { OnOk result (locks.new ≡ after_take locks.old thread name.now) }
    ensures err { OnErr result (locks.new ≡ locks.old) }
{
    take_by::<Brand>(locks, thread, name, Blank::new(1))
}

/// Takes the lock, which is answered so, or waits for it, or answers that this would close a cycle.
pub fn take_or(locks: &mut Locks, thread: u32, name: Dotted, mine: Reply) -> Result<Reply, NoMemory>
    requires waits { maps.get locks.old.waits thread ≡ None }
    ensures reply { IfOk result
        (λ reply. reply ≡ (if is_free locks.old thread name then mine else wait_reply locks.old thread name Deadlock)) }
    ensures ok { OnOk result (locks.new ≡ after_take locks.old thread name) }
    ensures err { OnErr result (locks.new ≡ locks.old) }
{
    let took = match take(locks, thread, &name) {
        Ok(Took::Got) => return Ok(mine),
        Ok(Took::Waits) => Ok(Reply::Wait(name)),
        Ok(Took::Closes) => Ok(Reply::Deadlock),
        Err(refusal) => Err(refusal),
    };
    let_go(mine);
    took
}

/// Waiting for the name, or that this would close a cycle.
pub fn wait_reply(
    locks: &Locks,
    thread: u32,
    name: &Dotted,
    blocked: Reply,
) -> Result<Reply, NoMemory>
    ensures { IfOk result (λ reply. reply ≡ wait_reply locks.now thread name.now blocked) }
{
    if closes(locks, thread, name) {
        return Ok(blocked);
    }
    let_go(blocked);
    Ok(Reply::Wait(name.copy()?))
}
