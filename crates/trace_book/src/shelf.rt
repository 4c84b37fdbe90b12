//! The table with the book, and what a seat does on it.
ghost use Rattle.std.specs.Prelude.{◌≡◌, ◌≢◌, ◌==◌, ℕ, suc, ◌<◌, ◌≤◌, ◌+◌, ◌^◌, vec_len, vec_capacity, ◌++◌, ◌∷◌, [], ◌⊎◌, IfOk, IfErr, IsErr, OnErr, IfSome, IfNone, MatchBool, true, false};
ghost use mathlib.Core.List.{IsPrefix};
ghost use Rattle.machine_events.specs.declared.event.Event.TheVariants as events;
ghost use Rattle.machine_shown.specs.Own.{own, Ready as HasTurn};
ghost use Rattle.machine_shown.specs.Knowing.{Knows};
ghost use Rattle.trace_book.specs.declared.view.Phase.TheVariants.{Idle};
ghost use Rattle.trace_book.specs.Views.{Has, Within, view, first_view, numbers_from, kept_of, longer};
ghost use Rattle.trace_book.specs.Rule.{Written};
ghost use Rattle.trace_book.specs.Told.{new_passes, dealt, SamePlace};
ghost use Rattle.trace_book.specs.Plays.{GotTurn, history_out, refused};
ghost use Rattle.trace_book.specs.Seats.{Ready, HasBook, MayStep, IsLegalWith, GainsEntry, may_wake, wakes_after, GoesOn, DeskGains, SameOwn, SameOf, RoundedToo, Stopped, longer_by, resting, resting_as, speaking, taken_in, seen_by_both};

use crate::bell::{Bell, Wanted, place_of};
use crate::pass::Pass;
use crate::rule::{Fill, GiveBack, Merge, Note, OneNumber, Opened, Take, Turns};
use crate::view::View;
use atomic_table::{Badge, Table};
use base_owners::Boxed;
use base_types::NoMemory;
use machine_allows::knows_is_allowed;
use machine_book::Book;
use machine_desk::{Halt, Outlet};
use machine_events::{Event, Reply};
use std::alloc::Global;
use std::hint::spin_loop;
use std::mem::replace;
use std::sync::Wait;

// A thread's place at the table. It has no bytes.
pub(crate) type Seat<O> = atomic_table::Seat<Option<Boxed<Book<O>>>, View>;

// The word that says whose turn it is, and its values.
const TURN: usize = 0;

const FREE: u64 = 0;

const HELD: u64 = 1;

const STOPPED: u64 = 2;

// So often a thread tries to take the turn before it may sleep. One event holds the turn for about a
// microsecond, and so many tries take a few, while going to sleep and being woken takes ten to fifty.
const TRIES: u32 = 400;

// The word that counts the entries.
const COUNT: usize = 1;

// The slot of the book.
const HOME: usize = 0;

/// A book that the threads of one round share.
#[derive(Drop)]
pub struct Shelf<O: Outlet> {
    pub(crate) table: Table<Option<Boxed<Book<O>>>, View, Opened<O>, Turns, Global>,
    ghost sized: { (table.shared.table_id.words ≡ 2) × (table.shared.table_id.slots ≡ 1) },
}

impl<O: Outlet> Shelf<O> {
    // The turn as it was, which the seat has if it was free.
    fn try_take(&self, seat: &mut Seat<O>, _number: u32) -> u64
        requires { (seat.old.table_id ≡ self.now.table.shared.table_id) × Ready seat.old.me _number }
        ensures table { seat.new.table_id ≡ seat.old.table_id }
        ensures had { result ≡ 0 → GotTurn O.piece O.out seat.old.me seat.new.me }
        ensures going { result ≡ 0 → seat.old.me.0.stopped ≡ false }
        ensures stopped { result ≡ 2 → seat.new.me ≡ refused seat.old.me }
        ensures not { result ≢ 0 → result ≢ 2 → seat.new.me ≡ seat.old.me }
    {
        self.table
            .shared
            .compare_exchange::<Take>(seat, TURN, FREE, HELD)
    }

    // Gives the turn and the book back. Where the turn is left at 2, the seat knows that the shared book is stopped.
    fn give_back(&self, seat: &mut Seat<O>, turn: u64)
        requires table { seat.old.table_id ≡ self.now.table.shared.table_id }
        requires has_book { HasBook O.piece O.out seat.old.me }
        requires turn { (turn ≡ 0) ⊎ (turn ≡ 2) }
        ensures table { seat.new.table_id ≡ seat.old.table_id }
        ensures seat { seat.new.me ≡ resting_as (turn == 2) seat.old.me (history_out seat.old.me.1) }
    {
        self.table.shared.swap::<GiveBack>(seat, TURN, turn);
    }

    // One event on the book, which the seat has. A lock that it gives back is told by the place of its name.
    fn note(
        &self,
        seat: &mut Seat<O>,
        number: u32,
        event: Event,
        given: &mut Option<usize>,
    ) -> Result<Reply, NoMemory>
        requires table { seat.old.table_id ≡ self.now.table.shared.table_id }
        requires has_book { HasBook O.piece O.out seat.old.me }
        requires may { MayStep seat.old.me number event }
        ensures table { seat.new.table_id ≡ seat.old.table_id }
        ensures ok { IfOk result (GainsEntry O.piece O.out seat.old.me seat.new.me number event) }
        ensures err { OnErr result (seat.new.me ≡ seat.old.me) }
    {
        let Some(mut book) = self.table.shared.exchange(seat, HOME, None) else {
            unreachable!()
        };
        book.get().check_legal();
        *given = match book.get().machine().gives(&event) {
            Some(name) => Some(place_of(name)),
            None => None,
        };
        let done = book.get_mut().step(number, event);
        let count = book.get().len() as u64;
        drop(self.table.shared.exchange(seat, HOME, Some(book)));
        let reply = done?;
        self.table.shared.swap::<Note>(seat, COUNT, count);
        Ok(reply)
    }

    // Whether the thread may wake now, and the place of the name that it waits for. The seat has the turn.
    fn may_wake(&self, seat: &mut Seat<O>, number: u32, place: &mut usize) -> bool
        requires table { seat.old.table_id ≡ self.now.table.shared.table_id }
        requires has_book { HasBook O.piece O.out seat.old.me }
        ensures table { seat.new.table_id ≡ seat.old.table_id }
        ensures seat { seat.new.me ≡ seat.old.me }
        ensures may { result ≡ may_wake seat.old.me number }
    {
        let Some(book) = self.table.shared.exchange(seat, HOME, None) else {
            unreachable!()
        };
        let may = book.get().machine().allowed(number, &Event::Wake);
        if let Some(name) = book.get().machine().awaited(number) {
            *place = place_of(name);
        }
        drop(self.table.shared.exchange(seat, HOME, Some(book)));
        may
    }

    // Makes the event, gives the turn back, and rings. At want of memory the shared book is stopped.
    fn make<R: Wait>(
        &self,
        rt: &R,
        bell: &Bell,
        seat: &mut Seat<O>,
        number: u32,
        event: Event,
    ) -> Result<Reply, NoMemory>
        requires table { seat.old.table_id ≡ self.now.table.shared.table_id }
        requires has_book { HasBook O.piece O.out seat.old.me }
        requires may { MayStep seat.old.me number event }
        ensures table { seat.new.table_id ≡ seat.old.table_id }
        ensures seat { IfOk result (λ r. seat.new.me ≡ resting seat.old.me (longer_by seat.old.me number event r)) }
        ensures made { IfOk result (IsLegalWith seat.old.me number event) }
        ensures err { OnErr result (seat.new.me ≡ resting_as true seat.old.me (history_out seat.old.me.1)) }
    {
        let mut given = None;
        match self.note(seat, number, event, &mut given) {
            Ok(reply) => {
                self.give_back(seat, FREE);
                bell.ring(rt, given);
                Ok(reply)
            }
            Err(refused) => {
                self.give_back(seat, STOPPED);
                bell.ring_for_all(rt);
                Err(refused)
            }
        }
    }

    // As `try_take`, which it does again for a while as long as another has the turn.
    fn try_often(&self, seat: &mut Seat<O>, number: u32) -> u64
        requires { (seat.old.table_id ≡ self.now.table.shared.table_id) × Ready seat.old.me number }
        ensures table { seat.new.table_id ≡ seat.old.table_id }
        ensures had { result ≡ 0 → GotTurn O.piece O.out seat.old.me seat.new.me }
        ensures going { result ≡ 0 → seat.old.me.0.stopped ≡ false }
        ensures stopped { result ≡ 2 → seat.new.me ≡ refused seat.old.me }
        ensures not { result ≢ 0 → result ≢ 2 → seat.new.me ≡ seat.old.me }
    {
        for _ in 0..TRIES {
            let turn = self.try_take(seat, number);
            if turn != HELD {
                return turn;
            }
            spin_loop();
        }
        HELD
    }

    // The turn, or false where the shared book is stopped. It sleeps where the turn stays taken.
    fn take_turn<R: Wait>(&self, rt: &R, bell: &Bell, seat: &mut Seat<O>, number: u32) -> bool
        requires { (seat.old.table_id ≡ self.now.table.shared.table_id) × Ready seat.old.me number }
        ensures table { seat.new.table_id ≡ seat.old.table_id }
        ensures had { MatchBool result (GotTurn O.piece O.out seat.old.me seat.new.me)
            (seat.new.me ≡ refused seat.old.me) }
        ensures going { MatchBool result (seat.old.me.0.stopped ≡ false) (Stopped seat.new.me) }
    {
        let turn = self.try_often(seat, number);
        if turn == FREE {
            return true;
        }
        if turn == STOPPED {
            return false;
        }
        bell.enter(Wanted::Turn);
        let had = self.sleep_for_turn(rt, bell, seat, number);
        bell.leave(Wanted::Turn);
        had
    }

    // As `take_turn`, for one who is counted in at the wake-ups. It reads how often they rang before it
    // tries, so a giving back after the tries keeps it from sleeping or wakes it. Once woken it tries
    // often again, since another may have been quicker.
    fn sleep_for_turn<R: Wait>(&self, rt: &R, bell: &Bell, seat: &mut Seat<O>, number: u32) -> bool
        requires { (seat.old.table_id ≡ self.now.table.shared.table_id) × Ready seat.old.me number }
        ensures table { seat.new.table_id ≡ seat.old.table_id }
        ensures had { MatchBool result (GotTurn O.piece O.out seat.old.me seat.new.me)
            (seat.new.me ≡ refused seat.old.me) }
        ensures going { MatchBool result (seat.old.me.0.stopped ≡ false) (Stopped seat.new.me) }
    {
        for _ in rt.forever() {
            let rung = bell.rung(rt, Wanted::Turn);
            let turn = self.try_often(seat, number);
            if turn == FREE {
                return true;
            }
            if turn == STOPPED {
                return false;
            }
            bell.sleep_for_turn(rt, rung);
        }
        unreachable!()
    }

    /// Makes an event that the thread's own pairs show to be allowed. A stopped shared book answers NoMemory.
    pub(crate) fn call<R: Wait>(
        &self,
        rt: &R,
        bell: &Bell,
        seat: &mut Seat<O>,
        number: u32,
        event: Event,
    ) -> Result<Reply, Halt>
        requires table { seat.old.table_id ≡ self.now.table.shared.table_id }
        requires ready { Ready seat.old.me number }
        requires knows { Knows number (own number seat.old.me.0.seen) event }
        requires turn { HasTurn seat.old.me.0.base.opening.rounds seat.old.me.0.seen number }
        ensures table { seat.new.table_id ≡ seat.old.table_id }
        ensures ready { Ready seat.new.me number }
        ensures continues { GoesOn seat.old.table_id number seat.old.me seat.new.me }
        ensures ok { IfOk result (DeskGains seat.old.table_id number seat.old.me seat.new.me event) }
        ensures err { OnErr result (SameOwn number seat.old.me seat.new.me) }
        ensures stopped { OnErr result (Stopped seat.new.me) }
        ensures refuses { Stopped seat.old.me → IsErr result }
    {
        knows_is_allowed();
        if !self.take_turn(rt, bell, seat, number) {
            drop(event);
            return Err(Halt::NoMemory);
        }
        match self.make(rt, bell, seat, number, event) {
            Ok(reply) => Ok(reply),
            Err(_) => Err(Halt::NoMemory),
        }
    }

    /// Makes the Wake once it is allowed. A stopped shared book answers NoMemory.
    pub(crate) fn wait<R: Wait>(
        &self,
        rt: &R,
        bell: &Bell,
        seat: &mut Seat<O>,
        number: u32,
    ) -> Result<Reply, Halt>
        requires table { seat.old.table_id ≡ self.now.table.shared.table_id }
        requires ready { Ready seat.old.me number }
        ensures table { seat.new.table_id ≡ seat.old.table_id }
        ensures ready { Ready seat.new.me number }
        ensures continues { GoesOn seat.old.table_id number seat.old.me seat.new.me }
        ensures ok { IfOk result (DeskGains seat.old.table_id number seat.old.me seat.new.me events.Wake) }
        ensures err { OnErr result (SameOwn number seat.old.me seat.new.me) }
        ensures stopped { OnErr result (Stopped seat.new.me) }
    {
        bell.enter(Wanted::Lock);
        let mut place = 0;
        for _ in rt.forever() {
            let rung = bell.rung(rt, Wanted::Lock);
            if let Some(done) = self.try_wake(rt, bell, seat, number, &mut place) {
                bell.leave(Wanted::Lock);
                return done;
            }
            bell.sleep_for_lock(rt, place, rung);
        }
        unreachable!()
    }

    // Makes the Wake if it is allowed. None where it is not, and then the place of the name that the thread waits for.
    fn try_wake<R: Wait>(
        &self,
        rt: &R,
        bell: &Bell,
        seat: &mut Seat<O>,
        number: u32,
        place: &mut usize,
    ) -> Option<Result<Reply, Halt>>
        requires table { seat.old.table_id ≡ self.now.table.shared.table_id }
        requires ready { Ready seat.old.me number }
        ensures table { seat.new.table_id ≡ seat.old.table_id }
        ensures ready { Ready seat.new.me number }
        ensures continues { GoesOn seat.old.table_id number seat.old.me seat.new.me }
        ensures ok { IfSome result (λ r. IfOk r (DeskGains seat.old.table_id number
            seat.old.me seat.new.me events.Wake)) }
        ensures err { IfSome result (λ done. OnErr done (SameOwn number seat.old.me seat.new.me)) }
        ensures stopped { IfSome result (λ done. OnErr done (Stopped seat.new.me)) }
        ensures none { IfNone result (SameOwn number seat.old.me seat.new.me) }
        ensures asleep { IfNone result (wakes_after seat.new.me number ≡ false) }
    {
        if !self.take_turn(rt, bell, seat, number) {
            return Some(Err(Halt::NoMemory));
        }
        if !self.may_wake(seat, number, place) {
            self.give_back(seat, FREE);
            bell.ring(rt, None);
            return None;
        }
        match self.make(rt, bell, seat, number, Event::Wake) {
            Ok(reply) => Some(Ok(reply)),
            Err(_) => Some(Err(Halt::NoMemory)),
        }
    }

    /// Stops the shared book. It takes no memory.
    pub(crate) fn stop<R: Wait>(&self, rt: &R, bell: &Bell, seat: &mut Seat<O>, number: u32)
        requires table { seat.old.table_id ≡ self.now.table.shared.table_id }
        requires ready { Ready seat.old.me number }
        ensures table { seat.new.table_id ≡ seat.old.table_id }
        ensures ready { Ready seat.new.me number }
        ensures continues { GoesOn seat.old.table_id number seat.old.me seat.new.me }
        ensures mine { SameOwn number seat.old.me seat.new.me }
        ensures stopped { Stopped seat.new.me }
    {
        if self.take_turn(rt, bell, seat, number) {
            self.give_back(seat, STOPPED);
            bell.ring_for_all(rt);
        }
    }

    // Puts the book into the empty slot, and gives the turn back.
    fn fill(&self, seat: &mut Seat<O>, book: Boxed<Book<O>>, from: u32, n: u32)
        requires table { seat.old.table_id ≡ self.now.table.shared.table_id }
        requires new { seat.old.me ≡ (first_view O.out (book, from, n), []) }
        ensures table { seat.new.table_id ≡ seat.old.table_id }
        ensures seat { seat.new.me ≡ resting seat.old.me book.history }
    {
        self.table.shared.swap::<Fill>(seat, TURN, HELD);
        drop(self.table.shared.exchange(seat, HOME, Some(book)));
        self.give_back(seat, FREE);
    }

    // The first number of the seat, in a seat of its own.
    fn split(&self, seat: &mut Seat<O>, _number: u32) -> Seat<O>
        requires table { seat.old.table_id ≡ self.now.table.shared.table_id }
        requires seat { (n : ℕ) × (seat.old.me ≡ speaking seat.old.me (numbers_from _number (suc n))) }
        ensures table { (seat.new.table_id ≡ seat.old.table_id) × (result.table_id ≡ seat.old.table_id) }
        ensures seat { seat.new.me ≡ (kept_of seat.old.me.0, []) }
        ensures new { result.me ≡ speaking seat.old.me (_number ∷ []) }
    {
        self.table.shared.split_seat::<OneNumber>(seat)
    }

    // Takes in the numbers and the beginning of another seat.
    pub(crate) fn merge(&self, into: &mut Seat<O>, other: Seat<O>, _number: u32, _other: u32)
        requires table { into.old.table_id ≡ self.now.table.shared.table_id }
        requires others { other.table_id ≡ self.now.table.shared.table_id }
        requires ready { Ready into.old.me _number × Ready other.me _other }
        ensures table { into.new.table_id ≡ into.old.table_id }
        ensures seat { into.new.me ≡ taken_in into.old.me other.me }
        ensures begins { IsPrefix into.old.me.0.seen other.me.0.seen ⊎ IsPrefix other.me.0.seen into.old.me.0.seen }
        ensures into { SameOf into.old.me.0.numbers (seen_by_both into.old.me other.me) into.old.me.0.seen }
        ensures other { SameOf other.me.0.numbers (seen_by_both into.old.me other.me) other.me.0.seen }
        ensures round { RoundedToo into.old.me.0.base into.old.me.0.seen (seen_by_both into.old.me other.me) }
    {
        self.table.shared.join_seat::<OneNumber>(into, other);
        self.table.shared.load::<Merge>(into, TURN);
    }

    // The book, which is at home if the seat speaks for all numbers of the round.
    pub(crate) fn close_with(self, seat: Seat<O>, _number: u32) -> Book<O>
        requires table { seat.table_id ≡ self.table.shared.table_id }
        requires ready { Ready seat.me _number }
        requires all { (i : ℕ) → Within seat.me.0.base i → Has i seat.me.0.numbers }
        ensures { Written O.piece O.out seat.me.0.base seat.me.0.seen result }
    {
        let Shelf { table } = self;
        let mut closed = table.close_with(seat);
        let slot = closed.take(HOME);
        closed.free();
        let Some(book) = slot else { unreachable!() };
        book.into_inner()
    }

    // Passes for all numbers of the round, of the seat that speaks for them.
    fn deal(&self, mut seat: Seat<O>, from: u32, n: u32, passes: &mut Vec<Pass>)
        requires table { seat.table_id ≡ self.now.table.shared.table_id }
        requires some { 1 ≤ n }
        requires fits { from + n ≤ 2 ^ 32 }
        requires round { (seat.me.0.base.from ≡ from) × (seat.me.0.base.size ≡ n) }
        requires seat { seat.me ≡ (view seat.me.0.base (numbers_from from n) seat.me.0.base.first Idle, []) }
        requires room { (passes.old.items ≡ []) × (n ≤ vec_capacity passes.old) }
        ensures { passes.new.items ≡ new_passes self.now.table.shared.table_id seat.me.0.base from n }
    {
        let last = n - 1;
        for i in 0..last {
            let other = self.split(&mut seat, from + i);
            add(
                passes,
                Pass {
                    badge: other.into_badge(),
                    number: from + i,
                },
            );
        }
        add(
            passes,
            Pass {
                badge: seat.into_badge(),
                number: from + last,
            },
        );
    }

    /// A shared book for the round of n scripts from this number on, and a pass for each number.
    pub fn open(
        alloc: Global,
        book: Book<O>,
        from: u32,
        n: u32,
    ) -> Result<(Shelf<O>, Vec<Pass>), Unopened<O>>
        requires some { 1 ≤ n }
        requires fits { from + n ≤ 2 ^ 32 }
        ensures ok { IfOk result (λ r. r.1.items ≡ dealt O.out r.0.table.shared.table_id (book, from, n)) }
        ensures err { IfErr result (λ u. u.book ≡ book) }
    {
        let Ok(mut passes) = Vec::with_capacity(alloc, n as usize) else {
            return Err(Unopened { book });
        };
        let book = match Boxed::hold(alloc, book) {
            Ok(book) => book,
            Err(book) => return Err(Unopened { book }),
        };
        let count = book.get().len() as u64;
        let about = (book, from, n);
        let made = Table::vacant(alloc, &[HELD, count], 1, &about);
        let (book, _, _) = about;
        let Ok((table, mut seat)) = made else {
            return Err(Unopened {
                book: book.into_inner(),
            });
        };
        let shelf = Shelf { table };
        shelf.fill(&mut seat, book, from, n);
        shelf.deal(seat, from, n, &mut passes);
        Ok((shelf, passes))
    }

    /// The book, where all other passes were gathered into this one. It takes no memory.
    pub fn close(self, pass: Pass) -> Book<O>
        requires table { pass.table ≡ self.table.shared.table_id }
        requires all { (i : ℕ) → Within pass.base i → Has i pass.numbers }
        ensures { Written O.piece O.out pass.base pass.seen result }
    {
        let Pass { badge, number } = pass;
        self.close_with(badge.into_seat(), number)
    }
}

/// Takes in another pass of the shared book, with its numbers. It takes no memory.
pub fn gather<O: Outlet>(shelf: &Shelf<O>, into: &mut Pass, other: Pass)
    requires { (into.old.table ≡ shelf.now.table.shared.table_id) × (other.table ≡ shelf.now.table.shared.table_id) }
    ensures same { SamePlace into.old into.new }
    ensures numbers { into.new.numbers ≡ into.old.numbers ++ other.numbers }
    ensures seen { into.new.seen ≡ longer into.old.seen other.seen }
    ensures begins { IsPrefix into.old.seen other.seen ⊎ IsPrefix other.seen into.old.seen }
    ensures into_calls { SameOf into.old.numbers into.new.seen into.old.seen }
    ensures other_calls { SameOf other.numbers into.new.seen other.seen }
{
    let Pass { badge, number } = other;
    let mine = replace(&mut into.badge, Badge::blank());
    let mut seat = mine.into_seat();
    shelf.merge(&mut seat, badge.into_seat(), into.number, number);
    into.badge = seat.into_badge();
}

// There is room for it.
fn add(passes: &mut Vec<Pass>, pass: Pass)
    requires { vec_len passes.old < vec_capacity passes.old }
    ensures items { passes.new.items ≡ passes.old.items ++ pass ∷ [] }
    ensures len { vec_len passes.new ≡ vec_len passes.old + 1 }
    ensures room { vec_capacity passes.old ≤ vec_capacity passes.new }
{
    if passes.push(pass).is_err() {
        unreachable!()
    }
}

/// There was no memory. The book comes back as it was.
#[derive(Drop)]
pub struct Unopened<O: Outlet> {
    pub book: Book<O>,
}
