//! What a shared desk says of itself that no call changes.
ghost use Rattle.std.specs.Prelude.{ℕ, List};
ghost use Rattle.atomic_table.specs.Seated.{TableId, table_id_coded};

use crate::view::Base;
use std::marker::Model;

/// Of which shared book a desk is, what that was opened with, and the numbers that the desk's pass speaks
/// for. No value of it is made.
pub struct Place {
    pub base: Base,
    pub ghost table: { TableId } by { table_id_coded },
    pub ghost numbers: { List ℕ },
}

impl Model for Place {
    ghost use Rattle.std.specs.Borrow.{ftrue};

    ghost also_owns = { λ _. ftrue };
}
