//! Locks, call by call. `locks` begins with new ones, and a row of `lock` calls them.

use crate::locks;
use base_types::Text;
use module_lock::Locks;
use rows_words::{Row, RowError};
use std::alloc::Global;

/// The locks as the rows so far have left them.
#[derive(Drop)]
pub struct LockRoom {
    locks: Locks,
}

impl LockRoom {
    fn begin(&mut self, alloc: Global) -> Result<Option<Text>, RowError> {
        self.locks = Locks::new(alloc);
        Ok(None)
    }

    fn call(&mut self, alloc: Global, row: &mut Row<'_>) -> Result<Option<Text>, RowError> {
        Ok(Some(locks::answer(alloc, &mut self.locks, row)?))
    }

    /// A row that takes `locks` or `lock`.
    pub fn answer(&mut self, alloc: Global, row: &mut Row<'_>) -> Result<Option<Text>, RowError> {
        if row.takes("locks") {
            self.begin(alloc)
        } else if row.takes("lock ") {
            self.call(alloc, row)
        } else {
            Err(RowError::Unknown)
        }
    }

    pub fn new(alloc: Global) -> Self {
        Self {
            locks: Locks::new(alloc),
        }
    }
}
