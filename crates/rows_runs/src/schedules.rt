//! A call of several scripts, made again and again: each time it must come to something that is allowed, and leave a trace
//! whose events the machine, made one after another, gives the same replies.

use crate::calls::{Call, Holding, Outcome, sink, tree, with_option};
use base_spelling::write_quoted;
use base_types::{Exact, Same, Seq, Text, Texts};
use import_machine::Machine;
use import_words::{Plan, RunPlan};
use machine_events::{Entry, Event};
use pyimport::{OpenGate, Report, pyimport};
use rows_words::RowError;
use std::alloc::Global;
use std::sync::Wait;
use std::thread::Threads;
use trace_read::read_trace;

/// How often the call is made.
const RUNS: u32 = 200;

/// The most scripts of a call.
const MOST_SCRIPTS: usize = 16;

/// The bytes of a script, as the tree of the call has them.
fn text_of(call: &Call, script: &Text) -> Result<Seq<u8>, RowError> {
    for holding in &call.holdings {
        if let Holding::File { path, bytes } = holding {
            if path.is_same(script) {
                return Ok(bytes.copy()?);
            }
        }
    }
    Err(RowError::Unknown)
}

fn texts_of(alloc: Global, call: &Call, scripts: &Texts) -> Result<Seq<Seq<u8>>, RowError> {
    let mut texts = Seq::new(alloc);
    for script in scripts.as_slice() {
        texts.push(text_of(call, script)?)?;
    }
    Ok(texts)
}

/// The texts of as many modules that run as programs: each is empty at first.
fn no_texts(alloc: Global, count: usize) -> Result<Seq<Seq<u8>>, RowError> {
    let mut texts = Seq::new(alloc);
    for _ in 0..count {
        texts.push(Seq::new(alloc))?;
    }
    Ok(texts)
}

/// The machine before the first event of a run.
fn machine_of(run: &RunPlan, texts: &Seq<Seq<u8>>) -> Result<Machine, RowError> {
    let count = run.scripts.len();
    if count < 1 || count > MOST_SCRIPTS || texts.len() != count {
        return Err(RowError::Unknown);
    }
    let rounds = [count as u32];
    Ok(Machine::new(&run.scripts, texts, &run.path, &rounds)?)
}

/// Whether the machine takes the event of an entry, and gives the reply that stands there.
fn is_given(machine: &mut Machine, entry: &Entry) -> Result<bool, RowError> {
    if !machine.allowed(entry.thread, &entry.event) {
        return Ok(false);
    }
    let event = entry.event.copy()?;
    let reply = machine.step(entry.thread, event)?;
    Ok(reply.is_same(&entry.reply))
}

/// Whether a trace is read, and the machine gives each of its replies once more.
fn is_replayed(
    alloc: Global,
    run: &RunPlan,
    texts: &Seq<Seq<u8>>,
    trace: &[u8],
) -> Result<bool, RowError> {
    let mut machine = machine_of(run, texts)?;
    let Ok(trace) = read_trace(alloc, trace) else {
        return Ok(false);
    };
    for entry in trace.entries.as_slice() {
        if !is_given(&mut machine, entry)? {
            return Ok(false);
        }
    }
    Ok(true)
}

/// What is printed in a history.
fn printed(alloc: Global, history: &[Entry]) -> Result<Text, RowError> {
    let mut all = Text::new(alloc);
    for entry in history {
        if let Event::Print(text) = &entry.event {
            all.push_str(text.as_str())?;
        }
    }
    Ok(all)
}

/// What stands in a history and on the error output, `None` where that is no text.
fn outcome_of(
    alloc: Global,
    status: u8,
    history: &[Entry],
    err: &[u8],
) -> Result<Option<Outcome>, RowError> {
    let Ok(told) = str::from_utf8(err) else {
        return Ok(None);
    };
    let err = Text::from_str(alloc, told)?;
    match printed(alloc, history) {
        Ok(out) => Ok(Some(Outcome {
            out,
            err,
            status: status as u64,
        })),
        Err(fault) => {
            drop(err);
            Err(fault)
        }
    }
}

/// What a call has left, `None` where it left no history or its trace is not replayed.
fn left_of(
    alloc: Global,
    call: &Call,
    report: &Report,
    out: &[u8],
    err: &[u8],
) -> Result<Option<Outcome>, RowError> {
    let Some(history) = &report.history else {
        return Ok(None);
    };
    let is_replayed = match &report.plan {
        Some(Plan::Run(run)) => {
            let texts = texts_of(alloc, call, &run.scripts)?;
            is_replayed(alloc, run, &texts, out)?
        }
        Some(Plan::Module(run)) => {
            let texts = no_texts(alloc, run.scripts.len())?;
            is_replayed(alloc, run, &texts, out)?
        }
        _ => false,
    };
    if !is_replayed {
        return Ok(None);
    }
    outcome_of(alloc, report.status, history.as_slice(), err)
}

/// Makes the call once.
fn tried<R: Threads + Wait + Sync>(
    rt: &R,
    alloc: Global,
    call: &Call,
    words: &[String],
) -> Result<Option<Outcome>, RowError> {
    let mut tree = tree(alloc, call)?;
    let mut out = sink(alloc, None);
    let mut err = sink(alloc, None);
    let report = pyimport(rt, alloc, words, &mut tree, &mut out, &mut err, &OpenGate);
    left_of(alloc, call, &report, out.bytes(), err.bytes())
}

/// Whether a call may come to this.
fn is_allowed(call: &Call, found: &Outcome) -> bool {
    call.allowed.iter().any(|it| {
        it.status == found.status && it.out.is_same(&found.out) && it.err.is_same(&found.err)
    })
}

fn otherwise(alloc: Global, found: &Outcome) -> Result<Text, RowError> {
    let mut told = Text::from_str(alloc, "otherwise: ")?;
    told = write_quoted(told, found.out.as_str())?;
    told.push_str(" ")?;
    told = write_quoted(told, found.err.as_str())?;
    let status = found.status;
    told.push_str(format!(in alloc; " {status}")?.as_str())?;
    Ok(told)
}

/// What comes of the call, made many times.
pub fn each_run<R: Threads + Wait + Sync>(
    rt: &R,
    alloc: Global,
    call: &Call,
) -> Result<Text, RowError> {
    let words = with_option(alloc, call.words.as_slice(), "--trace")?;
    for _ in 0..RUNS {
        match tried(rt, alloc, call, words.as_slice())? {
            Some(found) => {
                if !is_allowed(call, &found) {
                    return otherwise(alloc, &found);
                }
            }
            None => return Ok(Text::from_str(alloc, "a trace that is not replayed")?),
        }
    }
    Ok(Text::from_string(format!(in alloc;
        "as allowed, {RUNS} times, and each trace is replayed"
    )?)?)
}
