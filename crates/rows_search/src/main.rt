//! Trees of files and what a search finds in them, trees after edits, kept states of namespaces, rounds files, and sinks.
#![tactic(auto)]

mod edits;
mod namespaces;
mod rounds;
mod searches;
mod sinks;
mod trees;

use base_types::Text;
use namespaces::Namespaces;
use rows_words::{Row, RowError, Table, answer_rows};
use std::alloc::Global;
use std::process::ExitCode;
use trees::Trees;

/// What the rows so far have made.
#[derive(Drop)]
struct Room {
    trees: Option<Trees>,
    namespaces: Option<Namespaces>,
}

impl Room {
    fn begin_tree(&mut self, alloc: Global) -> Result<Option<Text>, RowError> {
        self.trees = Some(Trees::new(alloc)?);
        Ok(None)
    }

    fn begin_state(&mut self, alloc: Global, row: &mut Row<'_>) -> Result<Option<Text>, RowError> {
        self.namespaces = Some(Namespaces::begun(alloc, row)?);
        Ok(None)
    }

    fn state_call(&mut self, alloc: Global, row: &mut Row<'_>) -> Result<Option<Text>, RowError> {
        match &mut self.namespaces {
            Some(namespaces) => Ok(Some(namespaces.answer(alloc, row)?)),
            None => Err(RowError::Unknown),
        }
    }

    fn tree_call(
        &mut self,
        alloc: Global,
        call: &str,
        row: &mut Row<'_>,
    ) -> Result<Option<Text>, RowError> {
        match &mut self.trees {
            Some(trees) => trees.answer(alloc, call, row),
            None => Err(RowError::Unknown),
        }
    }
}

/// What a row answers that stands alone.
fn alone(alloc: Global, call: &str, row: &mut Row<'_>) -> Result<Text, RowError> {
    match call {
        "find" => searches::find(alloc, row),
        "load" => searches::load(alloc, row),
        "rounds" => rounds::answer(alloc, row),
        _ => sinks::answer(alloc, row),
    }
}

impl Table for Room {
    fn answer(&mut self, alloc: Global, row: &mut Row<'_>) -> Result<Option<Text>, RowError> {
        match row.word()? {
            "tree" => self.begin_tree(alloc),
            "namespace" => self.begin_state(alloc, row),
            "kept" => self.state_call(alloc, row),
            call => match call {
                "find" | "load" | "rounds" | "sink" => Ok(Some(alone(alloc, call, row)?)),
                _ => self.tree_call(alloc, call, row),
            },
        }
    }
}

fn main(rt: HostRuntime) -> ExitCode {
    let mut room = Room {
        trees: None,
        namespaces: None,
    };
    answer_rows(rt, &mut room)
}
