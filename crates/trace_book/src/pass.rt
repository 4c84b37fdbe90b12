//! What a thread carries: the numbers that it speaks for, and what it has seen of the history.
ghost use Rattle.std.specs.Prelude.{◌≡◌};

use crate::view::View;
use atomic_table::Badge;
use std::marker::Model;

/// A thread's part in a shared book. Contracts see it as what it tells of itself.
#[derive(Drop)]
pub struct Pass {
    pub(crate) badge: Badge<View>,
    pub(crate) number: u32,
}

impl Model for Pass {
    ghost use Rattle.std.specs.Prelude.{◌≡◌, [], ◌∷◌};
    ghost use Rattle.std.specs.Coded.{codes};
    ghost use Rattle.atomic_table.specs.Seated.{table_id_coded};
    ghost use Rattle.machine_events.specs.contracts.event.Entry as entry;
    ghost use Rattle.trace_book.specs.contracts.view.Base as base;
    ghost use Rattle.trace_book.specs.declared.view.View.{View};
    ghost use Rattle.trace_book.specs.Told.{Told, told, view_in};
    ghost use Rattle.trace_book.specs.Seats.{Rests};

    ghost Value = { Told };

    ghost coded = { Prim.hlevel (codes, table_id_coded, base.the_row.coded, entry.the_row.coded) };

    ghost view = { λ p. told p.badge.table_id p.number (view_in p.badge.views) };

    ghost invariant = { λ p. (v : View) × (p.badge.views ≡ v ∷ []) × Rests v p.number };
}

impl Pass {
    /// The number that it was dealt for.
    pub fn number(&self) -> u32
        ensures { result ≡ self.now.number }
    {
        self.number
    }
}
