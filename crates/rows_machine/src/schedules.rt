//! Schedules: which thread makes which event, and what it is answered.
ghost use Rattle.std.specs.Prelude.{◌≡◌, ◌≤◌, length, IfOk};

use crate::spellings::{made, told};
use base_types::{Exact, NoMemory, Seq, Text, Texts};
use import_machine::Machine;
use machine_events::Event;
use rows_words::{Row, RowError};
use std::alloc::Global;

/// The most scripts that a machine takes.
const MOST_SCRIPTS: u32 = 16;

/// So many scripts of one name.
fn scripts(alloc: Global, count: u32) -> Result<Texts, NoMemory>
    ensures { IfOk result (λ it. length it ≡ count) }
{
    let mut names = Texts::new(alloc);
    for _ in 0..count {
        names.push(Text::from_str(alloc, "s.py")?)?;
    }
    Ok(names)
}

fn empty_texts(alloc: Global, count: u32) -> Result<Seq<Seq<u8>>, NoMemory>
    ensures { IfOk result (λ it. length it ≡ count) }
{
    let mut texts = Seq::new(alloc);
    for _ in 0..count {
        texts.push(Seq::new(alloc))?;
    }
    Ok(texts)
}

/// A machine of scripts with empty texts, all in one round.
fn machine(alloc: Global, count: u32) -> Result<Machine, NoMemory>
    requires some { 1 ≤ count }
    requires few { count ≤ 16 }
{
    let names = scripts(alloc, count)?;
    let texts = empty_texts(alloc, count)?;
    Machine::new(&names, &texts, &Texts::new(alloc), &[count])
}

/// Two scripts, each in a round of its own.
fn two_rounds(alloc: Global) -> Result<Machine, NoMemory> {
    let names = scripts(alloc, 2)?;
    let texts = empty_texts(alloc, 2)?;
    Machine::new(&names, &texts, &Texts::new(alloc), &[1, 1])
}

/// A machine: of so many scripts in one round, or `of two rounds`, with one script each.
pub fn begun(alloc: Global, row: &mut Row<'_>) -> Result<Machine, RowError> {
    if row.takes("of two rounds") {
        return Ok(two_rounds(alloc)?);
    }
    let count = row.small()?;
    if count == 0 || count > MOST_SCRIPTS {
        return Err(RowError::Unknown);
    }
    Ok(machine(alloc, count)?)
}

/// The name whose lock the event gives back.
fn given(alloc: Global, machine: &Machine, event: &Event) -> Result<Text, RowError> {
    match machine.gives(event) {
        Some(name) => Ok(name.owned()?),
        None => Ok(Text::from_str(alloc, "none")?),
    }
}

/// What the machine answers to an event, which is the reply that it told before.
fn stepped(
    alloc: Global,
    machine: &mut Machine,
    thread: u32,
    event: &Event,
) -> Result<Text, RowError> {
    let before = told(alloc, machine.reply(thread, event)?)?;
    if !machine.allowed(thread, event) {
        return Ok(Text::from_str(alloc, "not allowed")?);
    }
    let after = told(alloc, machine.step(thread, event.copy()?)?)?;
    if before.as_str() == after.as_str() {
        Ok(after)
    } else {
        Ok(Text::from_str(alloc, "another reply than it told before")?)
    }
}

/// An event in the words of a trace; `gives` and an event; or `scripts`.
pub fn answer(alloc: Global, machine: &mut Machine, row: &mut Row<'_>) -> Result<Text, RowError> {
    if row.takes("scripts") {
        let count = machine.scripts();
        return Ok(Text::from_string(format!(in alloc; "{count}")?)?);
    }
    let gives = row.takes("gives ");
    let entry = made(alloc, row.all_text()?)?;
    let answer = if gives {
        given(alloc, machine, &entry.event)
    } else {
        stepped(alloc, machine, entry.thread, &entry.event)
    };
    drop(entry);
    answer
}
