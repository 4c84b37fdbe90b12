//! Edits, spelled by their kind and their path.

use crate::trees::path;
use base_types::{Exact, Seq};
use rows_words::{Row, RowError};
use std::alloc::Global;
use tree_files::Edit;

/// The time of each directory that an edit makes.
const TIME: u64 = 9;

/// The most edits of a row.
const MOST_EDITS: u32 = 100;

/// An edit: a file holds its path, and a directory's time is 9.
pub fn edit(alloc: Global, row: &mut Row<'_>) -> Result<Edit, RowError> {
    let kind = row.word()?;
    let path = path(alloc, row)?;
    match kind {
        "remove" => Ok(Edit::Remove { path }),
        "dir" => Ok(Edit::Dir { path, time: TIME }),
        "file" => {
            let text = path.text()?;
            let bytes = Vec::from_slice(alloc, text.as_bytes())?;
            Ok(Edit::File {
                path,
                bytes: Seq::from_vec(bytes),
            })
        }
        _ => Err(RowError::Unknown),
    }
}

/// Edits with `and` between, or `none`; each is a copy of the one that is spelled.
pub fn edits(alloc: Global, row: &mut Row<'_>) -> Result<Vec<Edit>, RowError> {
    let mut edits = Vec::new(alloc);
    if row.takes("none ") {
        return Ok(edits);
    }
    for _ in 0..MOST_EDITS {
        edits.push(edit(alloc, row)?.copy()?)?;
        if !row.takes("and ") {
            return Ok(edits);
        }
    }
    Err(RowError::Unknown)
}
