//! The rows, and what each does.

use crate::calls::{Call, Holding, Outcome, put_all};
use crate::{budgets, failing, outcomes, schedules};
use base_types::{Seq, Text};
use rows_words::{Answered, Row, RowError};
use std::alloc::Global;
use std::sync::Wait;
use std::thread::Threads;

/// What the rows so far have made.
#[derive(Drop)]
pub struct Runs {
    call: Call,
}

/// The most words of a call.
const MOST_WORDS: u32 = 1000;

/// The fork that a row names, `-` for the tree that is handed in.
fn fork_number(row: &mut Row<'_>) -> Result<Option<u32>, RowError> {
    if row.takes("- ") {
        Ok(None)
    } else {
        Ok(Some(row.small()?))
    }
}

/// The words that are left in a row; `""` is an empty one.
fn words(alloc: Global, row: &mut Row<'_>) -> Result<Vec<String>, RowError> {
    let mut words = Vec::new(alloc);
    for _ in 0..MOST_WORDS {
        if row.is_done() {
            return Ok(words);
        }
        let word = row.text(alloc)?;
        words.push(String::from_str(alloc, word.as_str())?)?;
    }
    Err(RowError::Unknown)
}

impl Runs {
    /// No row so far.
    pub fn new(alloc: Global) -> Runs {
        Runs {
            call: Call::new(alloc),
        }
    }

    fn begin(&mut self, alloc: Global, row: &mut Row<'_>) -> Answered {
        row.all();
        self.call = Call::new(alloc);
        Ok(None)
    }

    fn file(&mut self, alloc: Global, row: &mut Row<'_>) -> Answered {
        let path = row.text(alloc)?;
        let bytes = Seq::new(alloc);
        self.call.holdings.push(Holding::File { path, bytes })?;
        Ok(None)
    }

    fn dir(&mut self, alloc: Global, row: &mut Row<'_>) -> Answered {
        let path = row.text(alloc)?;
        let time = row.number()?;
        self.call.holdings.push(Holding::Dir { path, time })?;
        Ok(None)
    }

    /// A line of the file that was begun last.
    fn line(&mut self, line: &[u8], end: &[u8]) -> Answered {
        put_all(&mut self.call, line)?;
        put_all(&mut self.call, end)?;
        Ok(None)
    }

    fn pieces(&mut self, alloc: Global, row: &mut Row<'_>) -> Answered {
        let pieces = row.pieces(alloc)?;
        put_all(&mut self.call, pieces.as_slice())?;
        Ok(None)
    }

    fn words(&mut self, alloc: Global, row: &mut Row<'_>) -> Answered {
        self.call.words = words(alloc, row)?;
        Ok(None)
    }

    fn room(&mut self, row: &mut Row<'_>) -> Answered {
        self.call.out_room = Some(row.number()?);
        Ok(None)
    }

    fn err_room(&mut self, row: &mut Row<'_>) -> Answered {
        self.call.err_room = Some(row.number()?);
        Ok(None)
    }

    /// `fail - N` or `fail FORK N`: the call of that number fails.
    fn fail(&mut self, row: &mut Row<'_>) -> Answered {
        let who = fork_number(row)?;
        self.call.fails.push((who, row.number()?))?;
        Ok(None)
    }

    /// `allow OUT ERR STATUS`: what a call of several scripts may come to.
    fn allow(&mut self, alloc: Global, row: &mut Row<'_>) -> Answered {
        let out = row.text(alloc)?;
        let err = row.text(alloc)?;
        let status = row.number()?;
        self.call.allowed.push(Outcome { out, err, status })?;
        Ok(None)
    }

    fn run<R: Threads + Wait + Sync>(
        &mut self,
        rt: &R,
        alloc: Global,
        row: &mut Row<'_>,
    ) -> Answered {
        if row.takes("with each room of err") {
            return Ok(Some(outcomes::each_room(rt, alloc, &self.call)?));
        }
        if row.takes("with each room of out") {
            return Ok(Some(failing::each_room(rt, alloc, &self.call)?));
        }
        if row.takes("with each failing call") {
            return Ok(Some(failing::each_failing(rt, alloc, &self.call)?));
        }
        if row.takes("with each budget") {
            return Ok(Some(budgets::each_budget(rt, alloc, &self.call)?));
        }
        if row.takes("again and again") {
            return Ok(Some(schedules::each_run(rt, alloc, &self.call)?));
        }
        let told = outcomes::told(rt, alloc, &self.call)?;
        self.call.forget();
        Ok(Some(told))
    }

    /// A row that says what fails, or what may come.
    fn other(&mut self, alloc: Global, first: &str, row: &mut Row<'_>) -> Answered {
        match first {
            "room" => self.room(row),
            "err_room" => self.err_room(row),
            "fail" => self.fail(row),
            "allow" => self.allow(alloc, row),
            _ => Err(RowError::Unknown),
        }
    }

    /// What comes of a row. Several scripts run on threads of `rt`.
    pub fn answer<R: Threads + Wait + Sync>(
        &mut self,
        rt: &R,
        alloc: Global,
        row: &mut Row<'_>,
    ) -> Answered {
        if let Some(line) = row.line_behind("|") {
            return self.line(line, b"\n");
        }
        if let Some(line) = row.line_behind("/") {
            return self.line(line, b"");
        }
        match row.word()? {
            "row" => self.begin(alloc, row),
            "file" => self.file(alloc, row),
            "dir" => self.dir(alloc, row),
            "pieces" => self.pieces(alloc, row),
            "words" => self.words(alloc, row),
            "run" => self.run(rt, alloc, row),
            first => self.other(alloc, first, row),
        }
    }
}
