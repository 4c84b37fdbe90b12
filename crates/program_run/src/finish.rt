//! What is said when all scripts are over.
ghost use Rattle.std.specs.Prelude.{◌≡◌, ◌≤◌, ◌⊎◌, ℕ, List, IfOk, OnOk, OnErr, length};
ghost use Rattle.machine_events.specs.declared.event.Entry.{Entry};
ghost use Rattle.machine_desk.specs.declared.outlet.Flow.{Flow};
ghost use Rattle.program_run.specs.Ends.{err_text, status_of};
ghost use Rattle.program_run.specs.Results.{number_by, worst_by, lines_by, AreWhole, AllEnded};
ghost use Rattle.program_run.specs.Sinks.{at, Gets, status_by};
ghost use Rattle.program_run.specs.Statuses.{sink_fault, want_of_memory};

use crate::line::line_of;
use crate::outlet::say;
use crate::status::{ERROR_END, NORMAL_END, SINK_FAULT, SPENT_BUDGET, TREE_FAULT, WANT_OF_MEMORY};
use base_types::{NoMemory, Text};
use drive_account::Ending;
use machine_desk::Flow;
use std::alloc::Global;
use tree_files::Sink;

/// How a script ended, or that memory was wanting.
pub type Came = Result<Ending, NoMemory>;

/// The status of what came of a script.
fn number_of(came: &Came) -> u8
    ensures { result ≡ number_by came.now }
{
    match came {
        Ok(Ending::Normal) | Err(_) => NORMAL_END,
        Ok(Ending::Raised(_)) => ERROR_END,
        Ok(Ending::Fuel) => SPENT_BUDGET,
        Ok(Ending::Read) => TREE_FAULT,
    }
}

/// The status of the worst.
fn worst_of(results: &[Came]) -> u8
    ensures { result ≡ worst_by results.now }
{
    let mut worst = NORMAL_END;
    for came in results {
        worst = number_of(came).max(worst);
    }
    worst
}

/// The lines about the ends of these scripts. There are none where one has no end.
fn lines_of(alloc: Global, scripts: &[Text], results: &[Came]) -> Result<Vec<u8>, NoMemory>
    requires { length results.now ≡ length scripts.now }
    ensures lines { IfOk result (λ lines. lines.items ≡ lines_by scripts.now results.now) }
    ensures whole { OnOk result (AreWhole results.now) }
{
    let mut lines = Vec::new(alloc);
    for i in 0..scripts.len() {
        match &results[i] {
            Ok(ending) => {
                let line = line_of(alloc, scripts[i].as_str(), ending)?;
                lines.extend_from_slice(line.as_slice())?;
            }
            Err(_) => return Err(NoMemory),
        }
    }
    Ok(lines)
}

/// The status, by what became of both sinks.
pub fn status_by(good: u8, bad: u8, out: Flow, err: Flow) -> u8
    ensures { result ≡ status_by good bad out err }
{
    match (out, err) {
        (Flow::Short, _) | (_, Flow::Short) => WANT_OF_MEMORY,
        (Flow::Open, Flow::Open) => good,
        _ => bad,
    }
}

/// Writes a line, unless there was no memory to make it.
pub fn say_line<K: Sink>(sink: &mut K, line: Result<Vec<u8>, NoMemory>) -> Flow
    ensures gets { (text : List ℕ) → IfOk line (λ it. it.items ≡ text)
        → Gets (at K.Sink sink.old) text (at K.Sink sink.new) result }
    ensures short { OnErr line (result ≡ Flow.Short) }
    ensures faults_grow { K.faults sink.old ≤ K.faults sink.new }
{
    match line {
        Ok(line) => say(sink, line.as_slice()),
        Err(_) => Flow::Short,
    }
}

/// Writes the lines about the ends of the scripts, and gives the status.
pub fn finish_run<K: Sink>(
    alloc: Global,
    err: &mut K,
    scripts: &[Text],
    out: Flow,
    results: &[Came],
) -> u8
    requires { length results.now ≡ length scripts.now }
    ensures leaves { (history : List Entry) → AllEnded 0 results.now history
        → (flow : Flow) × Gets (at K.Sink err.old) (err_text scripts.now history) (at K.Sink err.new) flow
        × (result ≡ status_by (status_of (length scripts.now) history) sink_fault out flow) }
    ensures short { (result ≡ want_of_memory) ⊎ AreWhole results.now }
    ensures faults_grow { K.faults err.old ≤ K.faults err.new }
{
    let lines = lines_of(alloc, scripts, results);
    let said = say_line(err, lines);
    status_by(worst_of(results), SINK_FAULT, out, said)
}
