//! Entries and whole traces.
ghost use Rattle.std.specs.Prelude.{◌≡◌, ◌++◌, IfOk};
ghost use Rattle.std.specs.List.{flat_map};
ghost use Rattle.trace_text.specs.Trace.{line, trace};

use crate::events::put_event;
use crate::replies::put_reply;
use crate::values::put_number;
use base_spelling::put;
use base_types::{NoMemory, Text};
use machine_events::Entry;
use std::alloc::Global;

#[tactic(auto, using(crate::proofs::Pieces::entry_line))]
fn put_entry(out: Text, entry: &Entry) -> Result<Text, NoMemory>
    ensures { IfOk result (λ it. it ≡ out ++ line entry.now) }
{
    let out = put_number(out, entry.thread as u64)?;
    let out = put_event(out, &entry.event)?;
    let out = put(out, " ->")?;
    let out = put_reply(out, &entry.reply)?;
    put(out, "\n")
}

/// The line of an entry, with its line end. A spec that is built in stands in no trace; it is written as `builtin`,
/// which no reader takes.
pub fn write_entry(alloc: Global, entry: &Entry) -> Result<Text, NoMemory>
    ensures { IfOk result (λ it. it ≡ line entry.now) }
{
    put_entry(Text::new(alloc), entry)
}

fn put_entries(out: Text, entries: &[Entry]) -> Result<Text, NoMemory>
    ensures { IfOk result (λ it. it ≡ out ++ flat_map line entries.now) }
{
    let mut more = out;
    for entry in entries {
        more = put_entry(more, entry)?;
    }
    Ok(more)
}

/// The trace of a history, in format 2: its first line, and a line for each entry.
pub fn write_trace(alloc: Global, entries: &[Entry]) -> Result<Text, NoMemory>
    ensures { IfOk result (λ it. it ≡ trace entries.now) }
{
    let out = put(Text::new(alloc), "pyimport-trace 2\n")?;
    put_entries(out, entries)
}
