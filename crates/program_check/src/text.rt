//! The verdict on the text of a trace.
ghost use Rattle.std.specs.Prelude.{◌≡◌, ◌≤◌, ℕ, List, Ok, IfOk, IsErrOf};
ghost use Rattle.tree_files.specs.Count.{Rose};
ghost use Rattle.trace_read.specs.Reading.{Gives, trace_in, format_and_entries};
ghost use Rattle.program_check.specs.Judge.{Judge};
ghost use Rattle.program_check.specs.Opened.{Fit};

use crate::entries::judge_entries;
use crate::followed::Followed;
use crate::opened::Opened;
use base_types::Seq;
use import_words::RunPlan;
use std::alloc::Global;
use trace_check::{Verdict, Why};
use trace_read::{Trace, TraceError, read_trace};
use tree_files::{Grove, TreeFault};

/// The format that is judged. The older one has no listings.
const JUDGED_FORMAT: u32 = 2;

/// The line that tells the format.
const FORMAT_LINE: u32 = 1;

/// What is said of a text: the number of its entries, where they were judged, and the verdict.
#[derive(Drop)]
pub struct Said {
    pub entries: usize,
    pub verdict: Verdict,
}

/// A text is no trace of the judged format, by this line.
fn no_trace(line: u32) -> Said
    ensures { result ≡ record { entries = 0; verdict = Verdict.No line Why.Text } }
{
    Said {
        entries: 0,
        verdict: Verdict::No {
            line,
            why: Why::Text,
        },
    }
}

/// Judges a trace that was read.
fn judge_trace<F: Followed, T: Grove>(
    alloc: Global,
    run: &RunPlan,
    it: &Opened,
    tree: &mut T,
    trace: Trace,
) -> Result<Said, TreeFault>
    requires fit { Fit it.now.rounds it.now.texts }
    ensures judges { (bytes : List ℕ) → trace_in bytes ≡ Ok (format_and_entries trace)
        → IfOk result (λ said. Judge F.means (T.files tree.old) run.now it.now.rounds it.now.texts bytes
        said.entries said.verdict) }
    ensures failed { IsErrOf result TreeFault.Failed → Rose (T.faults tree.old) (T.faults tree.new) }
    ensures files_stay { T.files tree.new ≡ T.files tree.old }
    ensures faults_grow { T.faults tree.old ≤ T.faults tree.new }
{
    if trace.format != JUDGED_FORMAT {
        return Ok(no_trace(FORMAT_LINE));
    }
    let entries = trace.entries.len();
    let verdict = judge_entries::<F, T>(alloc, run, it, tree, trace.entries)?;
    Ok(Said { entries, verdict })
}

/// Reads the text of a trace, which is given back then: its entries say all that is needed.
fn read_text(alloc: Global, bytes: Seq<u8>) -> Result<Trace, TraceError>
    ensures { Gives format_and_entries result (trace_in bytes) }
{
    read_trace(alloc, bytes.as_slice())
}

/// Judges a text: it is read, its entries are replayed, and each script is compared with its own.
pub fn judge<F: Followed, T: Grove>(
    alloc: Global,
    run: &RunPlan,
    it: &Opened,
    tree: &mut T,
    bytes: Seq<u8>,
) -> Result<Said, TreeFault>
    requires fit { Fit it.now.rounds it.now.texts }
    ensures judges { IfOk result (λ said. Judge F.means (T.files tree.old) run.now it.now.rounds it.now.texts
        bytes said.entries said.verdict) }
    ensures failed { IsErrOf result TreeFault.Failed → Rose (T.faults tree.old) (T.faults tree.new) }
    ensures files_stay { T.files tree.new ≡ T.files tree.old }
    ensures faults_grow { T.faults tree.old ≤ T.faults tree.new }
{
    match read_text(alloc, bytes) {
        Ok(trace) => judge_trace::<F, T>(alloc, run, it, tree, trace),
        Err(TraceError::At { line, cause }) => {
            drop(cause);
            Ok(no_trace(line))
        }
        Err(TraceError::NoMemory) => Err(TreeFault::NoMemory),
    }
}
