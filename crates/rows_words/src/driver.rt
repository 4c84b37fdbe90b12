//! From the rows of the standard input to their answers.

use crate::row::{Row, RowError};
use base_types::Text;
use std::alloc::Global;
use std::io::{self, BufRead, BufReader, BufWriter, Write};
use std::process::ExitCode;

/// A table: what its rows do, and what comes of each.
pub trait Table {
    /// What comes of a row, `None` where it only says what later rows begin with. An answer that begins with a line end
    /// is written below its row.
    fn answer(&mut self, alloc: Global, row: &mut Row<'_>) -> Answered;
}

/// What comes of a row.
pub type Answered = Result<Option<Text>, RowError>;

/// Writes each row of the standard input with its answer. A row of which anything is not known is told on the
/// standard error output and ends it, with status 1. Empty rows and notes, which begin with `#`, are written as they are.
pub fn answer_rows<T: Table>(rt: HostRuntime, table: &mut T) -> ExitCode {
    answer_rows_by(
        rt,
        |alloc: Global, row: &mut Row<'_>| table.answer(alloc, row),
    )
}

/// As `answer_rows`, with a closure in place of a table, for rows that start threads: no method of a trait may do that for
/// any runtime.
pub fn answer_rows_by<F: FnMut(Global, &mut Row<'_>) -> Answered + Drop>(
    rt: HostRuntime,
    mut answer: F,
) -> ExitCode
    requires pre { (f : _) (a : _) (row : _) → F.pre f a row }
{
    match each_is_answered(rt, &mut answer) {
        Ok(true) => ExitCode::SUCCESS,
        _ => ExitCode::FAILURE,
    }
}

fn each_is_answered<F: FnMut(Global, &mut Row<'_>) -> Answered + Drop>(
    rt: HostRuntime,
    answer: &mut F,
) -> io::Result<bool>
    requires pre { (f : _) (a : _) (row : _) → F.pre f a row }
{
    let alloc = rt.alloc();
    let mut out = BufWriter::new(alloc, io::writer(&rt))?;
    for (n, line) in BufReader::new(alloc, rt.reader())?.lines(alloc).enumerate() {
        let line = line?;
        let answered = answer_of(alloc, answer, line.as_str());
        out.write_all(line.as_bytes())?;
        if !put_answer(&mut out, &answered)? {
            out.flush()?;
            eprintln!(rt; "line {} is not known: {line}", n.saturating_add(1))?;
            return Ok(false);
        }
    }
    out.flush()?;
    Ok(true)
}

fn answer_of<F: FnMut(Global, &mut Row<'_>) -> Answered + Drop>(
    alloc: Global,
    answer: &mut F,
    line: &str,
) -> Answered
    requires pre { (f : _) (a : _) (row : _) → F.pre f a row }
{
    let mut row = Row::of(line);
    if row.is_done() || line.starts_with('#') {
        return Ok(None);
    }
    let answered = answer(alloc, &mut row)?;
    if row.is_done() {
        Ok(answered)
    } else {
        Err(RowError::Unknown)
    }
}

/// Writes what stands behind a row; no where the row is not known.
fn put_answer<W: Write>(out: &mut W, answer: &Result<Option<Text>, RowError>) -> io::Result<bool> {
    match answer {
        Ok(None) => {}
        Ok(Some(text)) => {
            if !text.as_str().starts_with('\n') {
                out.write_all(b" -> ")?;
            }
            out.write_all(text.as_bytes())?;
        }
        Err(RowError::NoMemory) => out.write_all(b" -> no memory")?,
        Err(RowError::Unknown) => {
            out.write_all(b"\n")?;
            return Ok(false);
        }
    }
    out.write_all(b"\n")?;
    Ok(true)
}
