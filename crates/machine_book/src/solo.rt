//! The desk of a script that is alone in its round.
ghost use Rattle.std.specs.Prelude.{◌≡◌, ◌≤◌, ℕ, [], Some, IsTrue, length, drop};
ghost use Rattle.std.specs.Borrow.{GName, ftrue};
ghost use Rattle.machine_shown.specs.Own.{own, Ready, IsLone};
ghost use Rattle.machine_desk.specs.Histories.{is_only_of};

use crate::book::Book;
use machine_allows::{knows_is_allowed, lone_never_waits};
use machine_desk::{Desk, Halt, Outlet};
use machine_events::{Event, Reply};
use std::marker::Model;

/// Which borrow of a book a lone desk works on, and the number of entries when the desk was made. It
/// is there for contracts alone.
pub struct Borrowed {
    pub ghost name: { GName },
    pub ghost start: { ℕ },
}

impl Model for Borrowed {
    ghost also_owns = { λ _. ftrue };
}

/// The desk of a script that has no other in its round.
#[derive(Drop)]
pub struct SoloDesk<'a, O: Outlet> {
    book: &'a mut Book<O>,
    number: u32,
    // The number of the book's entries when the desk was made.
    start: usize,
    ghost lone: { IsLone book.now.opening.rounds number },
    ghost within: { start ≤ length book.now.history },
    ghost gained: { IsTrue (is_only_of number (drop start book.now.history)) },
}

impl<'a, O: Outlet> SoloDesk<'a, O> {
    ghost use Rattle.std.specs.Prelude.{◌≡◌, [], Some, length, drop};
    ghost use Rattle.machine_shown.specs.Own.{own, Ready, IsLone};
    ghost use Rattle.machine_desk.specs.Histories.{OnlyOf};

    /// The desk of a script that has made no event and has no other in its round, once every script
    /// of an earlier round has ended.
    pub fn new(book: &'a mut Book<O>, number: u32) -> SoloDesk<'a, O>
        requires ready { Ready book.old.opening.rounds book.old.history number }
        requires fresh { own number book.old.history ≡ [] }
        requires lone { IsLone book.old.opening.rounds number }
        ensures opening { (⟦<SoloDesk<'a, O> as Desk>⟧.sight result).opening ≡ book.old.opening }
        ensures number { (⟦<SoloDesk<'a, O> as Desk>⟧.sight result).number ≡ number }
        ensures place { (⟦<SoloDesk<'a, O> as Desk>⟧.sight result).place
            ≡ record { name = book.entry.ghost_name; start = length book.old.history } }
        ensures telling { (⟦<SoloDesk<'a, O> as Desk>⟧.sight result).telling
            ≡ Some (record { piece = O.piece; out = O.out book.old.outlet }) }
        ensures seen { (⟦<SoloDesk<'a, O> as Desk>⟧.sight result).seen ≡ book.old.history }
        ensures mine { (⟦<SoloDesk<'a, O> as Desk>⟧.sight result).mine ≡ [] }
    {
        let start = book.len();
        SoloDesk {
            book,
            number,
            start,
        }
    }

    /// Each entry that the book gained since the desk was made is of the desk's thread.
    pub fn check_gained(&self)
        ensures { OnlyOf (⟦<SoloDesk<'a, O> as Desk>⟧.sight self.now).number
            (drop (⟦<SoloDesk<'a, O> as Desk>⟧.sight self.now).place.start
            (⟦<SoloDesk<'a, O> as Desk>⟧.sight self.now).seen) }
    {
        let _ = &self.book;
    }
}

impl<O: Outlet> Desk for SoloDesk<'_, O> {
    type Place = Borrowed;

    ghost sight = { λ d. record {
      opening = d.book.now.opening;
      number = d.number;
      place = record { name = d.book.ghost_name; start = d.start };
      seen = d.book.now.history;
      telling = Some (record { piece = O.piece; out = O.out d.book.now.outlet });
      mine = own d.number d.book.now.history;
    } };

    fn call(&mut self, event: Event) -> Result<Reply, Halt> {
        self.book.check_legal();
        knows_is_allowed();
        match self.book.step(self.number, event) {
            Ok(reply) => Ok(reply),
            Err(_) => Err(Halt::NoMemory),
        }
    }

    fn wait(&mut self) -> Result<Reply, Halt> {
        self.book.check_legal();
        lone_never_waits();
        unreachable!()
    }
}
