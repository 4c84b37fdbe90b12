//! The rule of a shared book and the kinds of its steps. These types are for the proofs alone.
ghost use Rattle.trace_book.specs.Views.{first_view, kept_of, handed, joined, spent};
ghost use Rattle.trace_book.specs.Rule.{Holds};
ghost use Rattle.trace_book.specs.Plays.{Fills, Takes, Notes, GivesBack, Merges};

use crate::view::View;
use atomic_table::{Join, Play, Split, TableRule};
use base_owners::Boxed;
use machine_book::Book;
use machine_desk::Outlet;

/// What a shared book is opened with: the book, the number of the round's first script, and how many
/// scripts the round has.
pub(crate) type Opened<O> = (Boxed<Book<O>>, u32, u32);

/// One history, of which each view has seen a beginning, and one turn.
pub struct Turns;

impl<O: Outlet> TableRule<Option<Boxed<Book<O>>>, View, Opened<O>> for Turns {
    ghost holds = { Holds O.piece O.out };

    ghost first = { first_view O.out };
}

/// The book is put in.
pub struct Fill;

impl<O: Outlet> Play<Option<Boxed<Book<O>>>, View> for Fill {
    ghost then = { Fills };
}

/// The turn is taken, if it is free.
pub struct Take;

impl<O: Outlet> Play<Option<Boxed<Book<O>>>, View> for Take {
    ghost then = { Takes O.piece O.out };
}

/// One entry more.
pub struct Note;

impl<O: Outlet> Play<Option<Boxed<Book<O>>>, View> for Note {
    ghost then = { Notes };
}

/// The turn and the book are given back.
pub struct GiveBack;

impl<O: Outlet> Play<Option<Boxed<Book<O>>>, View> for GiveBack {
    ghost then = { GivesBack };
}

/// What another view knew is taken in.
pub struct Merge;

impl<O: Outlet> Play<Option<Boxed<Book<O>>>, View> for Merge {
    ghost then = { Merges };
}

/// One number of a view goes to a new one, or all numbers of one go to another.
pub struct OneNumber;

impl Split<View> for OneNumber {
    ghost left = { kept_of };

    ghost right = { handed };
}

impl Join<View> for OneNumber {
    ghost both = { joined };

    ghost spent = { spent };
}
