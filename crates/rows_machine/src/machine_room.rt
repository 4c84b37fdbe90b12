//! Schedules of the machine of imports. `machine` begins with a new one; a row is an event in the words of a trace, answered
//! by its reply.
ghost use Rattle.std.specs.Prelude.{◌≡◌, None};

use crate::schedules;
use base_types::Text;
use import_machine::Machine;
use rows_words::{Row, RowError};
use std::alloc::Global;

/// The machine as the rows so far have left it.
#[derive(Drop)]
pub struct Machines {
    machine: Option<Machine>,
}

impl Machines {
    fn begin(&mut self, alloc: Global, row: &mut Row<'_>) -> Result<Option<Text>, RowError> {
        let fresh = schedules::begun(alloc, row)?;
        drop(self.machine.replace(fresh));
        Ok(None)
    }

    fn call(&mut self, alloc: Global, row: &mut Row<'_>) -> Result<Option<Text>, RowError> {
        match &mut self.machine {
            Some(machine) => Ok(Some(schedules::answer(alloc, machine, row)?)),
            None => Err(RowError::Unknown),
        }
    }

    /// A row `machine` with its words, or an event.
    pub fn answer(&mut self, alloc: Global, row: &mut Row<'_>) -> Result<Option<Text>, RowError> {
        if row.takes("machine ") {
            self.begin(alloc, row)
        } else {
            self.call(alloc, row)
        }
    }

    /// No machine yet: each event is unknown.
    pub fn new() -> Self
        ensures { result.machine ≡ None }
    {
        Self { machine: None }
    }
}
