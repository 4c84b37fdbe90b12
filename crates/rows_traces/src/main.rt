//! Traces, read and written again, and damaged ones with the line and the cause of their refusal.
#![tactic(auto)]

use base_types::{Seq, Text};
use rows_words::{Row, RowError, Table, answer_rows};
use std::alloc::Global;
use std::process::ExitCode;
use trace_read::{Cause, Trace, TraceError, read_trace};
use trace_text::write_trace;

/// The text of the rows so far that begin with `|` or `/`.
#[derive(Drop)]
struct Traces {
    text: Seq<u8>,
}

fn cause(cause: Cause) -> &'static str {
    match cause {
        Cause::Fields => "fields",
        Cause::Number => "a number",
        Cause::Name => "a name",
        Cause::Escape => "a text",
        Cause::Event => "an event",
        Cause::Reply => "a reply",
        Cause::Cut => "cut",
    }
}

/// How many entries there are, and whether they are written as they were read.
fn told(alloc: Global, text: &[u8], trace: &Trace) -> Result<Text, RowError> {
    let count = trace.entries.len();
    let again = write_trace(alloc, trace.entries.as_slice())?;
    let how = if again.as_bytes() == text {
        "written as they were read"
    } else if trace.format == 1 {
        "in format 1"
    } else {
        "written otherwise"
    };
    Ok(Text::from_string(format!(in alloc; "{count} entries, {how}")?)?)
}

/// What comes of reading a text.
fn read(alloc: Global, text: &[u8]) -> Result<Text, RowError> {
    match read_trace(alloc, text) {
        Ok(trace) => told(alloc, text, &trace),
        Err(TraceError::At { line, cause: why }) => {
            let why = cause(why);
            Ok(Text::from_string(format!(in alloc; "refused in line {line}: {why}")?)?)
        }
        Err(TraceError::NoMemory) => Err(RowError::NoMemory),
    }
}

/// What comes of reading a line behind the first line of a format.
fn line(alloc: Global, first: &str, line: &str) -> Result<Text, RowError> {
    let text = format!(in alloc; "{first}\n{line}\n")?;
    read(alloc, text.as_bytes())
}

/// Whether a prefix is read as the entries so far, or refused as cut in its last line.
fn is_told_of_a_prefix(alloc: Global, prefix: &[u8]) -> Result<bool, RowError> {
    let lines = prefix.iter().filter(|b| **b == b'\n').count();
    match read_trace(alloc, prefix) {
        Ok(trace) => {
            Ok(prefix.ends_with(b"\n") && trace.entries.len().saturating_add(1) == lines)
        }
        Err(TraceError::At { line, cause }) => {
            let is_last = (line as usize) == lines.saturating_add(1);
            Ok(!prefix.ends_with(b"\n") && is_last && cause == Cause::Cut)
        }
        Err(TraceError::NoMemory) => Err(RowError::NoMemory),
    }
}

/// The length of the first prefix of which something else is told.
fn prefixes(alloc: Global, text: &[u8]) -> Result<Text, RowError> {
    for n in 0..text.len() {
        let (prefix, _) = text.split_at(n);
        if !is_told_of_a_prefix(alloc, prefix)? {
            return Ok(Text::from_string(format!(in alloc; "otherwise at {n}")?)?);
        }
    }
    Ok(Text::from_str(alloc, "the entries so far, or cut in the last line")?)
}

fn push_all(text: &mut Seq<u8>, bytes: &[u8]) -> Result<(), RowError> {
    for b in bytes {
        text.push(*b)?;
    }
    Ok(())
}

/// What a row answers that does not speak of the lines above it.
fn alone(alloc: Global, call: &str, row: &mut Row<'_>) -> Result<Text, RowError> {
    match call {
        "text" => read(alloc, row.pieces(alloc)?.as_slice()),
        "line" => line(alloc, "pyimport-trace 2", row.all_text()?),
        "old" => line(alloc, "pyimport-trace 1", row.all_text()?),
        _ => Err(RowError::Unknown),
    }
}

impl Traces {
    fn begin(&mut self, alloc: Global) -> Result<Option<Text>, RowError> {
        self.text = Seq::new(alloc);
        Ok(None)
    }

    fn put_line(&mut self, line: &[u8]) -> Result<Option<Text>, RowError> {
        push_all(&mut self.text, line)?;
        self.text.push(b'\n')?;
        Ok(None)
    }

    fn told(&self, alloc: Global, call: &str, row: &mut Row<'_>) -> Result<Text, RowError> {
        match call {
            "read" => read(alloc, self.text.as_slice()),
            "prefixes" => prefixes(alloc, self.text.as_slice()),
            _ => alone(alloc, call, row),
        }
    }
}

impl Table for Traces {
    fn answer(&mut self, alloc: Global, row: &mut Row<'_>) -> Result<Option<Text>, RowError> {
        if row.takes("|") {
            return self.put_line(row.all());
        }
        match row.word()? {
            "trace" => self.begin(alloc),
            call => Ok(Some(self.told(alloc, call, row)?)),
        }
    }
}

fn main(rt: HostRuntime) -> ExitCode {
    let mut traces = Traces {
        text: Seq::new(rt.alloc()),
    };
    answer_rows(rt, &mut traces)
}
