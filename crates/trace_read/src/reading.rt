//! From bytes to entries.
ghost use Rattle.std.specs.Prelude.{◌≡◌, ◌∷◌, [], ◌++◌, ◌+◌, ◌<◌, ◌^◌, map, IfOk};
ghost use Rattle.trace_fields.specs.Splitting.{views};
ghost use Rattle.trace_read.specs.Reading as reading;

use crate::trace::{Trace, TraceError};
use base_types::{NoMemory, Seq};
use machine_events::Entry;
use std::alloc::{AllocError, Global};
use trace_entries::entry_in;
use trace_fields::{Cause, Refusal};

/// What stands before, between and behind the line ends.
fn pieces_of(alloc: Global, bytes: &[u8]) -> Result<Vec<&[u8]>, AllocError>
    ensures { IfOk result (λ v. views v.items ≡ reading.pieces bytes.now) }
{
    bytes.split(|b| *b == b'\n').collect(alloc)
}

/// The refusal of a line; there is no room for a number past 2 ^ 32 - 1.
fn at(line: usize, cause: Cause) -> TraceError
    ensures { reading.Refuses line cause result }
{
    if line <= u32::MAX as usize {
        TraceError::At {
            line: line as u32,
            cause,
        }
    } else {
        TraceError::NoMemory
    }
}

fn refused(line: usize, refusal: Refusal) -> TraceError
    ensures { reading.Told line refusal result }
{
    match refusal {
        Refusal::Cause(cause) => at(line, cause),
        Refusal::NoMemory => TraceError::NoMemory,
    }
}

/// The lines from the second on, each without its line end, and what stands behind the last line end.
fn entries_in(
    alloc: Global,
    old: bool,
    lines: &[&[u8]],
    rest: &[u8],
) -> Result<Seq<Entry>, TraceError>
    ensures { reading.Gives (λ x. x) result (reading.entries_in old 2 (views lines.now ++ rest.now ∷ [])) }
{
    let mut entries = Seq::new(alloc);
    for i in 0..lines.len() {
        match entry_in(alloc, old, lines[i]) {
            Ok(entry) => entries.push(entry)?,
            Err(refusal) => return Err(refused(i + 2, refusal)),
        }
    }
    if rest.is_empty() {
        Ok(entries)
    } else {
        Err(at(lines.len() + 2, Cause::Cut))
    }
}

fn format_in(line: &[u8]) -> Option<bool>
    ensures { result ≡ reading.format_in line.now }
{
    if line == b"pyimport-trace 2".as_slice() {
        return Some(false);
    }
    if line == b"pyimport-trace 1".as_slice() {
        return Some(true);
    }
    None
}

fn format_of(old: bool) -> u32
    ensures { result ≡ reading.format_of old }
{
    if old { 1 } else { 2 }
}

fn with_format(alloc: Global, old: bool, lines: &[&[u8]], rest: &[u8]) -> Result<Trace, TraceError>
    ensures { reading.Gives reading.format_and_entries result
        (reading.with_format old (reading.entries_in old 2 (views lines.now ++ rest.now ∷ []))) }
{
    let entries = entries_in(alloc, old, lines, rest)?;
    Ok(Trace {
        format: format_of(old),
        entries,
    })
}

/// The first line, those behind it, and what stands behind the last line end.
fn opened(alloc: Global, first: &[u8], lines: &[&[u8]], rest: &[u8]) -> Result<Trace, TraceError>
    ensures { reading.Gives reading.format_and_entries result
        (reading.opened (reading.format_in first.now) (views lines.now ++ rest.now ∷ [])) }
{
    match format_in(first) {
        Some(old) => with_format(alloc, old, lines, rest),
        None => Err(TraceError::At {
            line: 1,
            cause: Cause::Fields,
        }),
    }
}

fn lines_in(alloc: Global, pieces: &[&[u8]]) -> Result<Trace, TraceError>
    ensures { reading.Gives reading.format_and_entries result (reading.lines_in (views pieces.now)) }
{
    match pieces {
        [first, _, ..] => {
            let last = pieces.len() - 1;
            opened(alloc, first, &pieces[1..last], pieces[last])
        }
        _ => Err(TraceError::At {
            line: 1,
            cause: Cause::Cut,
        }),
    }
}

/// The format and the entries of a trace; else the first line that is no line of the format, and the cause.
#[tactic(auto, unfolding(crate::specs::Reading::trace_in))]
pub fn trace_in(alloc: Global, bytes: &[u8]) -> Result<Trace, TraceError>
    ensures { reading.Gives reading.format_and_entries result (reading.trace_in bytes.now) }
{
    match pieces_of(alloc, bytes) {
        Ok(pieces) => lines_in(alloc, pieces.as_slice()),
        Err(_) => Err(TraceError::NoMemory),
    }
}
