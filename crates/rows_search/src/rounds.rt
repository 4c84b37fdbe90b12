//! Rounds files.

use base_spelling::write_source;
use base_types::Text;
use rows_words::{Row, RowError};
use std::alloc::Global;
use tree_files::Edit;
use words_rounds::{Round, RoundsError, read_rounds};

/// The text with an edit behind it, as a rounds file spells it.
fn put_edit(mut told: Text, edit: &Edit) -> Result<Text, RowError> {
    match edit {
        Edit::File { path, bytes } => {
            told.push_str(" file ")?;
            told.push_str(path.text()?.as_str())?;
            told.push_str(" ")?;
            Ok(write_source(told, bytes.as_slice())?)
        }
        Edit::Dir { path, time } => {
            told.push_str(" dir ")?;
            told.push_str(path.text()?.as_str())?;
            told.push_str(format!(in told.alloc(); " {time}")?.as_str())?;
            Ok(told)
        }
        Edit::Remove { path } => {
            told.push_str(" remove ")?;
            told.push_str(path.text()?.as_str())?;
            Ok(told)
        }
    }
}

fn put_round(mut told: Text, round: &Round) -> Result<Text, RowError> {
    if told.len() > 0 {
        told.push_str("; ")?;
    }
    told.push_str("round")?;
    for edit in round.edits.as_slice() {
        told = put_edit(told, edit)?;
    }
    for script in round.scripts.as_slice() {
        told.push_str(" script ")?;
        told.push_str(script.as_str())?;
    }
    Ok(told)
}

/// The rounds of a file, or the line at which it is refused.
pub fn answer(alloc: Global, row: &mut Row<'_>) -> Result<Text, RowError> {
    let bytes = row.pieces(alloc)?;
    match read_rounds(alloc, bytes.as_slice()) {
        Ok(rounds) => {
            let mut told = Text::new(alloc);
            for round in rounds.list.as_slice() {
                told = put_round(told, round)?;
            }
            Ok(told)
        }
        Err(RoundsError::At { line }) => {
            Ok(Text::from_string(format!(in alloc; "refused in line {line}")?)?)
        }
        Err(RoundsError::NoMemory) => Err(RowError::NoMemory),
    }
}
