//! What comes of a call: what both sinks hold, and the status.

use crate::calls::{Call, sink, tree};
use base_spelling::write_source;
use base_types::Text;
use pyimport::{OpenGate, pyimport};
use rows_words::RowError;
use std::alloc::Global;
use std::sync::Wait;
use std::thread::Threads;
use tree_files::MemSink;

/// The status of a call over its tree.
fn status<R: Threads + Wait + Sync>(
    rt: &R,
    alloc: Global,
    call: &Call,
    out: &mut MemSink,
    err: &mut MemSink,
) -> Result<u8, RowError> {
    let mut tree = tree(alloc, call)?;
    let report = pyimport(
        rt,
        alloc,
        call.words.as_slice(),
        &mut tree,
        out,
        err,
        &OpenGate,
    );
    Ok(report.status)
}

/// The text with lines behind it: `|` before a line, `/` before a last one without its end, and `bytes` before what is no
/// text.
fn put_lines(mut told: Text, bytes: &[u8]) -> Result<Text, RowError> {
    let Ok(text) = str::from_utf8(bytes) else {
        told.push_str("\nbytes ")?;
        return Ok(write_source(told, bytes)?);
    };
    let mut left = text;
    for _ in 0..u64::MAX {
        if left.is_empty() {
            break;
        }
        match left.split_once('\n') {
            Some((line, rest)) => {
                told.push_str("\n| ")?;
                told.push_str(line)?;
                left = rest;
            }
            None => {
                told.push_str("\n/ ")?;
                told.push_str(left)?;
                break;
            }
        }
    }
    Ok(told)
}

/// What both sinks hold, and a status.
fn lines_told(alloc: Global, out: &MemSink, err: &MemSink, status: u8) -> Result<Text, RowError> {
    let mut told = Text::from_str(alloc, "\nout")?;
    told = put_lines(told, out.bytes())?;
    if !err.bytes().is_empty() {
        told.push_str("\nerr")?;
        told = put_lines(told, err.bytes())?;
    }
    told.push_str(format!(in alloc; "\nstatus {status}")?.as_str())?;
    Ok(told)
}

/// What a call writes, and its status.
pub fn told<R: Threads + Wait + Sync>(
    rt: &R,
    alloc: Global,
    call: &Call,
) -> Result<Text, RowError> {
    let mut out = sink(alloc, call.out_room);
    let mut err = sink(alloc, call.err_room);
    let status = status(rt, alloc, call, &mut out, &mut err)?;
    lines_told(alloc, &out, &err, status)
}

/// Whether a call whose error output takes so many bytes keeps a prefix of what it would write, and ends with status 5.
fn keeps_prefix<R: Threads + Wait + Sync>(
    rt: &R,
    alloc: Global,
    call: &Call,
    whole: &[u8],
    room: usize,
) -> Result<bool, RowError> {
    let mut out = sink(alloc, call.out_room);
    let mut err = sink(alloc, Some(room as u64));
    let status = status(rt, alloc, call, &mut out, &mut err)?;
    let (prefix, _) = whole.split_at(room.min(whole.len()));
    Ok(status == 5 && err.bytes() == prefix)
}

/// What comes of the call with each room of its error output that is too small.
pub fn each_room<R: Threads + Wait + Sync>(
    rt: &R,
    alloc: Global,
    call: &Call,
) -> Result<Text, RowError> {
    let mut out = sink(alloc, call.out_room);
    let mut err = sink(alloc, None);
    status(rt, alloc, call, &mut out, &mut err)?;
    let len = err.bytes().len();
    for room in 0..len {
        if !keeps_prefix(rt, alloc, call, err.bytes(), room)? {
            return Ok(Text::from_string(format!(in alloc; "otherwise with room for {room}")?)?);
        }
    }
    Ok(Text::from_string(format!(in alloc; "a prefix of {len} bytes, and status 5")?)?)
}
