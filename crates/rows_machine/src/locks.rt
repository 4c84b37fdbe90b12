//! Calls of the locks.
ghost use Rattle.std.specs.Prelude.{◌≡◌, ◌<◌};

use base_types::{NoMemory, Text};
use module_lock::{Locks, Steps, Took};
use rows_words::{Row, RowError};
use spec_core::Dotted;
use std::alloc::Global;
use std::marker::Brand;
use std::sync::ledger::{Blank, Ledger};

fn yes(answer: bool) -> &'static str {
    if answer { "yes" } else { "no" }
}

fn take(locks: &mut Locks, thread: u32, name: &Dotted) -> Result<&'static str, NoMemory> {
    take_by::<Brand>(locks, thread, name, Blank::new(1))
}

fn take_by<L: Ledger>(
    locks: &mut Locks,
    thread: u32,
    name: &Dotted,
    blank: Blank,
) -> Result<&'static str, NoMemory>
    requires name { blank.name ≡ L.name }
    requires parts { blank.parts ≡ L.parts }
    requires some { 0 < L.parts }
{
    if locks.awaited(thread).is_some() {
        return Ok("waits already");
    }
    let mut steps = Steps::<L>::new(blank);
    match locks.take(thread, name, &mut steps)? {
        Took::Got => Ok("got"),
        Took::Waits => Ok("waits"),
        Took::Closes => Ok("closes"),
    }
}

fn closes(locks: &Locks, thread: u32, name: &Dotted) -> &'static str {
    yes(closes_by::<Brand>(locks, thread, name, Blank::new(1)))
}

fn closes_by<L: Ledger>(locks: &Locks, thread: u32, name: &Dotted, blank: Blank) -> bool
    requires name { blank.name ≡ L.name }
    requires parts { blank.parts ≡ L.parts }
    requires some { 0 < L.parts }
{
    let mut steps = Steps::<L>::new(blank);
    locks.closes(thread, name, &mut steps)
}

fn waiters(alloc: Global, locks: &Locks, name: &Dotted) -> Result<Text, RowError> {
    let mut told = Text::from_str(alloc, "threads")?;
    for thread in locks.waiters(name) {
        told.push_str(format!(in alloc; " {thread}")?.as_str())?;
    }
    Ok(told)
}

fn owner(alloc: Global, locks: &Locks, name: &Dotted) -> Result<Text, RowError> {
    match locks.owner(name) {
        None => Ok(Text::from_str(alloc, "none")?),
        Some(lock) => Ok(Text::from_string(format!(in alloc;
            "thread {}, {} times",
            lock.owner, lock.count
        )?)?),
    }
}

fn give(locks: &mut Locks, thread: u32, name: &Dotted) -> &'static str {
    locks.give(thread, name);
    "given"
}

fn dotted(alloc: Global, row: &mut Row<'_>) -> Result<Dotted, RowError> {
    Dotted::read(&row.text(alloc)?)?.ok_or(RowError::Unknown)
}

/// A call on a lock, or on a thread.
pub fn answer(alloc: Global, locks: &mut Locks, row: &mut Row<'_>) -> Result<Text, RowError> {
    let call = row.word()?;
    match call {
        "owner" => return owner(alloc, locks, &dotted(alloc, row)?),
        "waiters" => return waiters(alloc, locks, &dotted(alloc, row)?),
        _ => {}
    }
    let thread = row.small()?;
    let told = match call {
        "wake" => yes(locks.wake(thread)),
        "holds" => yes(locks.holds(thread)),
        "awaits" => yes(locks.awaited(thread).is_some()),
        "take" => take(locks, thread, &dotted(alloc, row)?)?,
        "give" => give(locks, thread, &dotted(alloc, row)?),
        "closes" => closes(locks, thread, &dotted(alloc, row)?),
        _ => return Err(RowError::Unknown),
    };
    Ok(Text::from_str(alloc, told)?)
}
