//! The kept search state of a namespace package.

use base_types::{Text, Texts};
use namespace_path::{fresh, recomputed};
use path_finder::Found;
use py_value::{Items, NsState, Value};
use rows_words::{Row, RowError};
use std::alloc::Global;

/// The most portions of a row.
const MOST_PORTIONS: u32 = 1000;

/// The search state that a namespace package keeps, as the rows so far have left it.
#[derive(Drop)]
pub struct Namespaces {
    state: NsState,
}

/// The parent's path, with `:` between its entries, and `none` where it has none.
fn path(alloc: Global, row: &mut Row<'_>) -> Result<Items, RowError> {
    let mut items = Items::new(alloc);
    let word = row.word()?;
    if word == "none" {
        return Ok(items);
    }
    for entry in word.split(':') {
        items.push(Value::Text(Text::from_str(alloc, entry)?))?;
    }
    Ok(items)
}

/// The directories that are left in the row.
fn portions(alloc: Global, row: &mut Row<'_>) -> Result<Texts, RowError> {
    let mut texts = Texts::new(alloc);
    for _ in 0..MOST_PORTIONS {
        if row.is_done() {
            return Ok(texts);
        }
        texts.push(row.text(alloc)?)?;
    }
    Err(RowError::Unknown)
}

/// `on PATH in epoch N`.
fn place(alloc: Global, row: &mut Row<'_>) -> Result<(Items, u64), RowError> {
    row.must("on ")?;
    let path = path(alloc, row)?;
    row.must("in epoch ")?;
    Ok((path, row.number()?))
}

fn told(alloc: Global, texts: &Texts) -> Result<Text, RowError> {
    let mut told = Text::from_str(alloc, "portions")?;
    for text in texts.as_slice() {
        told.push_str(" ")?;
        told.push_str(text.as_str())?;
    }
    Ok(told)
}

impl Namespaces {
    /// A state that was found on a parent's path in an epoch.
    pub fn begun(alloc: Global, row: &mut Row<'_>) -> Result<Namespaces, RowError> {
        let (parent_path, epoch) = place(alloc, row)?;
        row.must("found")?;
        let portions = portions(alloc, row)?;
        Ok(Namespaces {
            state: NsState::of(parent_path, epoch, portions)?,
        })
    }

    /// What a new search makes of the state.
    fn again(&mut self, alloc: Global, row: &mut Row<'_>) -> Result<Text, RowError> {
        let (path, epoch) = place(alloc, row)?;
        row.must("found")?;
        let found = if row.takes("nothing") {
            None
        } else {
            Some(Found::Portions(portions(alloc, row)?))
        };
        self.state = recomputed(&self.state, &path, epoch, &found)?;
        told(alloc, self.state.portions())
    }

    /// Whether the state is fresh, or what it is after a new search.
    pub fn answer(&mut self, alloc: Global, row: &mut Row<'_>) -> Result<Text, RowError> {
        if row.takes("searched ") {
            return self.again(alloc, row);
        }
        let (path, epoch) = place(alloc, row)?;
        let word = if fresh(&self.state, &path, epoch) {
            "fresh"
        } else {
            "stale"
        };
        Ok(Text::from_str(alloc, word)?)
    }
}
