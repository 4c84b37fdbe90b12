//! A shared book that is stopped stays so.
ghost use Rattle.std.specs.Prelude.{◌≡◌, ℕ, Option, slice_index};
ghost use Rattle.atomic_table.specs.Table.{State};
ghost use Rattle.machine_book.specs.Bound.{BoundTo};
ghost use Rattle.machine_desk.specs.Outgo.{Outgo, Pieces};
ghost use Rattle.trace_book.specs.declared.view.Base.{Base};
ghost use Rattle.trace_book.specs.declared.view.View.{View};
ghost use Rattle.trace_book.specs.Rule.{NobodyHas, Shelved};

/// Where the turn is 2 nobody has it. So no step leaves 2: only who has the turn puts a book in, notes an
/// entry or gives the turn back, a take changes it only where it is 0, and to split and join passes reads it.
pub fn stopped_stays<O>()
    ensures { (piece : Pieces) (out : O → Outgo) (base : Base) (s : State (Option (BoundTo O)) View)
        → Shelved piece out base s → slice_index s.words 0 ≡ 2 → NobodyHas s }
{}
