//! Entries and replies as traces spell them.

use base_types::Text;
use machine_events::{Entry, Event, Reply};
use rows_words::RowError;
use std::alloc::Global;
use trace_entries::entry_in;
use trace_fields::Refusal;
use trace_text::write_entry;

/// The entry of a line. The line comes as any bytes: of a text that is known in part a proof would compute the reading.
fn read(alloc: Global, line: &[u8]) -> Result<Entry, RowError> {
    match entry_in(alloc, false, line) {
        Ok(entry) => Ok(entry),
        Err(Refusal::NoMemory) => Err(RowError::NoMemory),
        Err(Refusal::Cause(_)) => Err(RowError::Unknown),
    }
}

/// The thread and the event that a row spells, with a reply that says nothing.
pub fn made(alloc: Global, row: &str) -> Result<Entry, RowError> {
    let line = format!(in alloc; "{row} -> done")?;
    read(alloc, line.as_bytes())
}

/// What an entry's line has behind the arrow.
fn reply_of(alloc: Global, entry: &Entry) -> Result<Text, RowError> {
    let line = write_entry(alloc, entry)?;
    match line.as_str().split_once(" -> ") {
        Some((_, reply)) => Ok(Text::from_str(alloc, reply.trim_end())?),
        None => Err(RowError::Unknown),
    }
}

/// A reply, whatever it replies to.
pub fn told(alloc: Global, reply: Reply) -> Result<Text, RowError> {
    let entry = Entry {
        thread: 0,
        event: Event::Wake,
        reply,
    };
    let text = reply_of(alloc, &entry);
    drop(entry);
    text
}
