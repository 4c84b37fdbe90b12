//! What stands behind the machine of imports, row by row: schedules of the machine itself, its locks, and its tables of
//! modules and loads.
#![tactic(auto)]

mod cache;
mod loads;
mod lock_room;
mod locks;
mod machine_room;
mod modules;
mod paths;
mod reloads;
mod schedules;
mod spellings;
mod table_room;
mod tables;

use crate::lock_room::LockRoom;
use crate::machine_room::Machines;
use crate::table_room::TableRoom;
use base_types::Text;
use rows_words::{Row, RowError, Table, answer_rows};
use std::alloc::Global;
use std::process::ExitCode;

/// The machine, the locks and the tables as the rows so far have left them.
#[derive(Drop)]
struct Room {
    machines: Machines,
    locks: LockRoom,
    tables: TableRoom,
}

impl Table for Room {
    fn answer(&mut self, alloc: Global, row: &mut Row<'_>) -> Result<Option<Text>, RowError> {
        if row.left().starts_with(b"lock") {
            self.locks.answer(alloc, row)
        } else if row.left().starts_with(b"table") {
            self.tables.answer(alloc, row)
        } else {
            self.machines.answer(alloc, row)
        }
    }
}

fn main(rt: HostRuntime) -> ExitCode {
    let mut room = Room {
        machines: Machines::new(),
        locks: LockRoom::new(rt.alloc()),
        tables: TableRoom::new(rt.alloc()),
    };
    answer_rows(rt, &mut room)
}
