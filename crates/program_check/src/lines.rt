//! The line about a judged trace, and the status.
ghost use Rattle.std.specs.Prelude.{◌≡◌, IfOk};
ghost use Rattle.program_check.specs.Lines.{why_name, yes_line, no_line, verdict_line, status_of};

use base_types::NoMemory;
use program_run::{ERROR_END, NORMAL_END};
use std::alloc::Global;
use trace_check::{Counts, Verdict, Why};

/// The name of what is wrong with a line.
fn why_name(why: Why) -> &'static str
    ensures { result.now ≡ why_name why }
{
    match why {
        Why::Text => "text",
        Why::Thread => "thread",
        Why::Call => "call",
        Why::Allowed => "allowed",
        Why::Reply => "reply",
        Why::End => "end",
    }
}

/// The line of a trace with so many entries that is accepted.
fn yes_line(alloc: Global, entries: usize, counts: &Counts) -> Result<Vec<u8>, NoMemory>
    ensures { IfOk result (λ it. it.items ≡ yes_line entries counts.now) }
{
    let loads = counts.loads;
    let waits = counts.waits;
    let cycles = counts.cycles;
    let deadlocks = counts.deadlocks;
    let text = format!(in alloc;
        "yes entries {entries} loads {loads} waits {waits} cycles {cycles} deadlocks {deadlocks}\n"
    )?;
    Ok(text.into_bytes())
}

/// The line of a trace that is refused, with the first line of it that is wrong.
fn no_line(alloc: Global, line: u32, why: Why) -> Result<Vec<u8>, NoMemory>
    ensures { IfOk result (λ it. it.items ≡ no_line line why) }
{
    let why = why_name(why);
    let text = format!(in alloc; "no: line {line}: {why}\n")?;
    Ok(text.into_bytes())
}

/// The line about a trace of so many entries, by the verdict on it.
pub fn verdict_line(alloc: Global, entries: usize, verdict: &Verdict) -> Result<Vec<u8>, NoMemory>
    ensures { IfOk result (λ it. it.items ≡ verdict_line entries verdict.now) }
{
    match verdict {
        Verdict::Yes(counts) => yes_line(alloc, entries, counts),
        Verdict::No { line, why } => no_line(alloc, *line, *why),
    }
}

/// The status of a verdict.
pub fn status_of(verdict: &Verdict) -> u8
    ensures { result ≡ status_of verdict.now }
{
    match verdict {
        Verdict::Yes(_) => NORMAL_END,
        Verdict::No { .. } => ERROR_END,
    }
}
