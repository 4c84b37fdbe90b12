//! A call with each call of its tree failing in turn, and with each room of its output that is too small.

use crate::calls::{Call, sink, tree};
use base_types::Text;
use machine_events::{Entry, Event, Outcome};
use pyimport::{OpenGate, Report, pyimport};
use rows_words::RowError;
use std::alloc::Global;
use std::sync::Wait;
use std::thread::Threads;
use tree_files::MemSink;

/// So many calls of the tree are tried at most.
const MOST_CALLS: u64 = 1000;

/// The statuses of a call of which a call of the tree failed, and of one whose output is full.
const FAILED: u8 = 4;

const FULL: u8 = 5;

/// What comes of a call: its report, and what its outputs got.
#[derive(Drop)]
struct Came {
    report: Report,
    out: MemSink,
    err: MemSink,
}

/// What comes of the call where the call of the tree with a number fails, of none where the number is 0, and the output has
/// some room.
fn tried<R: Threads + Wait + Sync>(
    rt: &R,
    alloc: Global,
    call: &Call,
    number: u64,
    room: Option<u64>,
) -> Result<Came, RowError> {
    let mut tree = tree(alloc, call)?;
    if number > 0 {
        tree.fail(None, number)?;
    }
    let mut out = sink(alloc, room);
    let mut err = sink(alloc, None);
    let report = pyimport(
        rt,
        alloc,
        call.words.as_slice(),
        &mut tree,
        &mut out,
        &mut err,
        &OpenGate,
    );
    Ok(Came { report, out, err })
}

/// What a call of the tree that failed was made for.
#[derive(Clone, Copy)]
enum Purpose {
    /// To open a script: there is no history.
    Opening,
    /// For an import: the history ends by a read that failed.
    Import,
}

/// Whether a history ends by a read that failed.
fn ends_read(history: &[Entry]) -> bool {
    let Some(entry) = history.last() else {
        return false;
    };
    match &entry.event {
        Event::End {
            outcome: Outcome::Read,
            spent: _,
        } => true,
        _ => false,
    }
}

/// What the call of the tree that failed was made for, `None` where the history does not end so.
fn purpose_of(report: &Report) -> Option<Purpose> {
    let Some(history) = report.history.as_ref() else {
        return Some(Purpose::Opening);
    };
    if ends_read(history.as_slice()) {
        Some(Purpose::Import)
    } else {
        None
    }
}

/// Whether a call failed by a file, and its output is a front of the whole one.
fn is_failed(now: &Came, whole: &Came) -> bool {
    now.report.status == FAILED
        && whole.out.bytes().starts_with(now.out.bytes())
        && now.err.bytes().ends_with(b": file fault\n")
}

fn is_same(now: &Came, whole: &Came) -> bool {
    now.report.status == whole.report.status
        && now.out.bytes() == whole.out.bytes()
        && now.err.bytes() == whole.err.bytes()
}

/// How many calls of the tree open scripts, and how many calls there are.
fn calls_told(alloc: Global, opening: u64, calls: u64) -> Result<Text, RowError> {
    let others = calls.saturating_sub(opening);
    Ok(Text::from_string(format!(in alloc;
        "{opening} calls of the tree open scripts, {others} are for imports, and each is a file fault"
    )?)?)
}

/// How many calls of the tree the call makes. Where one of them fails, the status must be 4 and the output a front of what
/// it is without; there must be no history where a script is opened, and else it must end by a read that failed. Where the
/// number is past them, all must be as without.
pub fn each_failing<R: Threads + Wait + Sync>(
    rt: &R,
    alloc: Global,
    call: &Call,
) -> Result<Text, RowError> {
    let whole = tried(rt, alloc, call, 0, None)?;
    let mut opening = 0u64;
    for number in 1..MOST_CALLS {
        let now = tried(rt, alloc, call, number, None)?;
        if is_same(&now, &whole) {
            return calls_told(alloc, opening, number.saturating_sub(1));
        }
        if !is_failed(&now, &whole) {
            break;
        }
        match purpose_of(&now.report) {
            Some(Purpose::Opening) if opening.saturating_add(1) == number => opening = number,
            Some(Purpose::Import) => {}
            _ => break,
        }
    }
    Ok(Text::from_str(alloc, "otherwise")?)
}

/// Whether an output with too little room has just what it had room for, and the status says so.
fn is_full(now: &Came, whole: &Came, room: usize) -> bool {
    let (front, _) = whole
        .out
        .bytes()
        .split_at(room.min(whole.out.bytes().len()));
    now.report.status == FULL && now.out.bytes() == front && now.err.bytes() == whole.err.bytes()
}

/// Whether the call with an output of some room that is too small gets just what there is room for.
fn fills<R: Threads + Wait + Sync>(
    rt: &R,
    alloc: Global,
    call: &Call,
    whole: &Came,
    room: usize,
) -> Result<bool, RowError> {
    let now = tried(rt, alloc, call, 0, Some(room as u64))?;
    Ok(is_full(&now, whole, room))
}

fn otherwise(alloc: Global, room: usize) -> Result<Text, RowError> {
    Ok(Text::from_string(format!(in alloc; "otherwise with room for {room}")?)?)
}

fn rooms_told(alloc: Global, rooms: usize) -> Result<Text, RowError> {
    Ok(Text::from_string(format!(in alloc; "each front of {rooms} bytes, and status 5")?)?)
}

/// What comes of the call with each room of its output that is too small.
pub fn each_room<R: Threads + Wait + Sync>(
    rt: &R,
    alloc: Global,
    call: &Call,
) -> Result<Text, RowError> {
    let whole = tried(rt, alloc, call, 0, None)?;
    let rooms = whole.out.bytes().len();
    for room in 0..rooms {
        if !fills(rt, alloc, call, &whole, room)? {
            return otherwise(alloc, room);
        }
    }
    rooms_told(alloc, rooms)
}
