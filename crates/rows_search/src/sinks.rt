//! Sinks in memory, and sinks over standard streams that take a few bytes at a time.
ghost use Rattle.std.specs.Prelude.{◌≤◌, length, IfOk};

use base_spelling::write_source;
use base_types::Text;
use rows_words::{Row, RowError};
use std::alloc::Global;
use std::cell::Cell;
use std::io::{self, Error, ErrorKind};
use tree_files::{MemSink, Sink, SinkFault, write_whole};
use tree_system::{StdSink, Streams};

/// Standard streams of which the first takes two bytes at a time while there is room, after some interrupted writes, and
/// the second is closed.
#[derive(Clone, Copy)]
struct Pipes<'a> {
    room: &'a Cell<usize>,
    cuts: &'a Cell<usize>,
}

impl Streams for Pipes<'_> {
    fn write_out(&self, piece: &[u8]) -> io::Result<usize> {
        let cuts = self.cuts.get();
        if cuts > 0 {
            self.cuts.set(cuts - 1);
            return Err(Error::from(ErrorKind::Interrupted));
        }
        let room = self.room.get();
        let n = piece.len().min(room).min(2);
        self.room.set(room - n);
        Ok(n)
    }

    fn write_err(&self, _piece: &[u8]) -> io::Result<usize> {
        Err(Error::from(ErrorKind::BrokenPipe))
    }
}

fn word(written: Result<(), SinkFault>) -> Result<&'static str, RowError> {
    match written {
        Ok(()) => Ok("taken"),
        Err(SinkFault::Failed) => Ok("failed"),
        Err(SinkFault::NoMemory) => Err(RowError::NoMemory),
    }
}

/// What comes of writing a text, and what the sink holds then.
fn written(alloc: Global, mut sink: MemSink, text: &Text) -> Result<Text, RowError> {
    let word = word(write_whole(&mut sink, text.as_bytes()))?;
    let mut told = Text::from_str(alloc, word)?;
    told.push_str(", holds ")?;
    Ok(write_source(told, sink.bytes())?)
}

/// What a sink holds while it is lent and written to, and when it is restored.
fn lent(alloc: Global, text: &Text) -> Result<Text, RowError> {
    let mut sink = MemSink::new(alloc);
    let mut lent = sink.lend();
    let mut told = Text::from_str(alloc, word(write_whole(&mut lent, text.as_bytes()))?)?;
    told.push_str(", holds ")?;
    told = write_source(told, sink.bytes())?;
    sink.restore(lent);
    told.push_str(" and then ")?;
    Ok(write_source(told, sink.bytes())?)
}

/// What a standard stream takes of two texts, and the room that is left.
fn streamed(alloc: Global, row: &mut Row<'_>) -> Result<Text, RowError> {
    let room = Cell::new(row.small()? as usize);
    row.must("after ")?;
    let cuts = Cell::new(row.small()? as usize);
    let pipes = Pipes {
        room: &room,
        cuts: &cuts,
    };
    let mut out = StdSink::out(pipes);
    let first = word(write_whole(&mut out, row.quoted(alloc)?.as_bytes()))?;
    let left = room.get();
    let second = word(write_whole(&mut out, row.quoted(alloc)?.as_bytes()))?;
    Ok(Text::from_string(format!(in alloc; "{first} with room for {left}, {second}")?)?)
}

/// What a closed stream takes.
fn closed(alloc: Global, row: &mut Row<'_>) -> Result<Text, RowError> {
    let room = Cell::new(0);
    let cuts = Cell::new(0);
    let mut err = StdSink::err(Pipes {
        room: &room,
        cuts: &cuts,
    });
    let word = word(write_whole(&mut err, row.quoted(alloc)?.as_bytes()))?;
    Ok(Text::from_str(alloc, word)?)
}

/// A sink and what is written to it.
pub fn answer(alloc: Global, row: &mut Row<'_>) -> Result<Text, RowError> {
    match row.word()? {
        "whole" => written(alloc, MemSink::new(alloc), &row.quoted(alloc)?),
        "failing" => {
            let room = row.number()?;
            written(
                alloc,
                MemSink::failing_after(alloc, room),
                &row.quoted(alloc)?,
            )
        }
        "lent" => lent(alloc, &row.quoted(alloc)?),
        "stream" => streamed(alloc, row),
        "closed" => closed(alloc, row),
        _ => Err(RowError::Unknown),
    }
}
