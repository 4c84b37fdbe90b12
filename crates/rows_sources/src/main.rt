//! Sources: each row is a source, and its tokens, its tree as the printer writes it, or its refusal.
#![tactic(auto)]

mod functions;
mod parts;
mod tokens;
mod trees;

use base_types::{Seq, Text};
use rows_words::{Row, RowError, Table, answer_rows};
use std::alloc::Global;
use std::process::ExitCode;

/// Each row stands alone.
#[derive(Drop)]
struct Sources;

/// What opens so many blocks, each one column further in, and the columns of the line inside; then pieces.
fn in_blocks(alloc: Global, row: &mut Row<'_>) -> Result<Seq<u8>, RowError> {
    let depth = row.number()?;
    row.must(",")?;
    let head = row.bytes(alloc)?;
    row.must(")")?;
    row.must("+")?;
    let line = row.pieces(alloc)?;
    let mut all = Seq::new(alloc);
    for level in 0..depth {
        put_line(&mut all, level, head.as_slice())?;
        all.push(b'\n')?;
    }
    put_line(&mut all, depth, line.as_slice())?;
    Ok(all)
}

/// A line behind so many blanks.
fn put_line(all: &mut Seq<u8>, blanks: u64, line: &[u8]) -> Result<(), RowError> {
    for _ in 0..blanks {
        all.push(b' ')?;
    }
    for b in line {
        all.push(*b)?;
    }
    Ok(())
}

/// A source, as Python spells a text.
fn source(alloc: Global, row: &mut Row<'_>) -> Result<Seq<u8>, RowError> {
    if row.takes("blocks(") {
        in_blocks(alloc, row)
    } else {
        row.pieces(alloc)
    }
}

/// What comes of a whole source.
fn whole(alloc: Global, call: &str, source: &[u8]) -> Result<Text, RowError> {
    match call {
        "tokens" => tokens::answer(alloc, source),
        "tree" => trees::answer(alloc, source),
        "functions" => functions::answer(alloc, None, source),
        _ => Err(RowError::Unknown),
    }
}

/// What a source begins with, where so many levels may be open.
fn part(alloc: Global, call: &str, row: &mut Row<'_>) -> Result<Text, RowError> {
    row.must("in ")?;
    let room = row.small()? as usize;
    let source = source(alloc, row)?;
    parts::answer(alloc, call, room, source.as_slice())
}

/// Whether a name is local in each function of a source.
fn local(alloc: Global, row: &mut Row<'_>) -> Result<Text, RowError> {
    let name = row.text(alloc)?;
    row.must("in ")?;
    let source = source(alloc, row)?;
    functions::answer(alloc, Some(&name), source.as_slice())
}

impl Table for Sources {
    fn answer(&mut self, alloc: Global, row: &mut Row<'_>) -> Result<Option<Text>, RowError> {
        let call = row.word()?;
        if call == "local" {
            return Ok(Some(local(alloc, row)?));
        }
        if parts::is_call(call) {
            return Ok(Some(part(alloc, call, row)?));
        }
        let source = source(alloc, row)?;
        Ok(Some(whole(alloc, call, source.as_slice())?))
    }
}

fn main(rt: HostRuntime) -> ExitCode {
    answer_rows(rt, &mut Sources)
}
