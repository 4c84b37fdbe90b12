//! A machine with the history of its events.
ghost use Rattle.std.specs.Prelude.{◌≡◌, ◌++◌, ◌∷◌, [], length, OnErr, IfOk};
ghost use Rattle.machine_events.specs.Fitting.{Fits};
ghost use Rattle.machine_spec.specs.Legal.{Allowed, IsLegal, replay};
ghost use Rattle.machine_laws.specs.Begun.{Begun, first};
ghost use Rattle.machine_book.specs.Bound.{opened, CanOpen};
ghost use Rattle.machine_desk.specs.Outgo.{Kept};

use crate::answered::answered;
use crate::opening::Opening;
use base_types::{NoMemory, Seq};
use import_machine::Machine;
use machine_desk::Outlet;
use machine_events::{Entry, Event, Reply};
use std::marker::Model;

/// A machine, what it was opened with, the history of its events, and the outlet that each entry of
/// the history goes to.
#[derive(Drop)]
pub struct Book<O: Outlet> {
    opening: Opening,
    machine: Machine,
    history: Vec<Entry>,
    outlet: O,
}

impl<O: Outlet> Model for Book<O> {
    ghost use Rattle.std.specs.Prelude.{◌≡◌};
    ghost use Rattle.machine_spec.specs.Legal.{IsLegal, replay};
    ghost use Rattle.machine_book.specs.Bound.{BoundTo, opened, CanOpen};
    ghost use Rattle.std.specs.Coded.{codes};
    ghost use Rattle.machine_spec.specs.contracts.state.State as state;
    ghost use Rattle.machine_events.specs.contracts.event.Entry as entry;

    ghost Value = { BoundTo O };

    ghost coded = { Prim.hlevel (codes, state.the_row.coded, entry.the_row.coded, O.code) };

    ghost view = { λ b. record { opening = opened b.opening; history = b.history.items; outlet = b.outlet } };

    ghost invariant = { λ b. (b.machine ≡ replay (opened b.opening) b.history.items)
        × IsLegal (opened b.opening) b.history.items × CanOpen b.opening };
}

impl<O: Outlet> Book<O> {
    /// A book with an empty history. The machine is the one that the opening makes.
    pub fn new(opening: Opening, machine: Machine, outlet: O) -> Book<O>
        requires machine { machine ≡ opened opening }
        requires can_open { CanOpen opening }
        ensures { result ≡ record { opening = opened opening; history = []; outlet = outlet } }
    {
        let alloc = opening.scripts.alloc();
        Book {
            opening,
            machine,
            history: Vec::new(alloc),
            outlet,
        }
    }

    /// The machine, whose state is the replay of the history.
    pub fn machine(&self) -> &Machine
        ensures { result.now ≡ replay self.now.opening self.now.history }
    {
        &self.machine
    }

    /// The number of entries of the history. It takes no memory.
    pub fn len(&self) -> usize
        ensures { result ≡ length self.now.history }
    {
        self.history.len()
    }

    /// The history is legal, from the state in which a machine begins.
    pub fn check_legal(&self)
        ensures legal { IsLegal self.now.opening self.now.history }
        ensures begun { (b : Begun) × (first b ≡ self.now.opening) }
    {
        let _ = &self.history;
    }

    /// Makes an event of a thread, which is allowed, writes it down, and puts it out. An `Err`
    /// changes nothing, and puts nothing out.
    pub fn step(&mut self, thread: u32, event: Event) -> Result<Reply, NoMemory>
        requires { Allowed (replay self.old.opening self.old.history) thread event }
        ensures opening { self.new.opening ≡ self.old.opening }
        ensures entry { IfOk result (λ reply. self.new.history ≡ self.old.history
            ++ record { thread = thread; event = event; reply = reply } ∷ []) }
        ensures put { IfOk result (λ reply. Kept O.piece (O.out self.old.outlet) (O.out self.new.outlet)
            (record { thread = thread; event = event; reply = reply } ∷ [])) }
        ensures fits { IfOk result (Fits event) }
        ensures legal { IfOk result (λ reply. IsLegal self.new.opening self.new.history) }
        ensures err { OnErr result (self.new ≡ self.old) }
    {
        match self.history.reserve(1) {
            Ok(()) => {}
            Err(no_room) => {
                drop(event);
                return Err(no_room.into());
            }
        }
        let answer = match self.machine.reply(thread, &event) {
            Ok(answer) => answer,
            Err(no_memory) => {
                drop(event);
                return Err(no_memory);
            }
        };
        let reply = match answered(&mut self.machine, thread, &event, &answer) {
            Ok(reply) => reply,
            Err(no_memory) => {
                drop(event);
                drop(answer);
                return Err(no_memory);
            }
        };
        let entry = Entry {
            thread,
            event,
            reply: answer,
        };
        self.outlet.put(&entry);
        self.history.push_reserved(entry);
        Ok(reply)
    }

    /// The history and the outlet.
    pub fn end(self) -> (Seq<Entry>, O)
        ensures history { result.0 ≡ self.history }
        ensures outlet { result.1 ≡ self.outlet }
        ensures legal { IsLegal self.opening result.0 }
    {
        (Seq::from_vec(self.history), self.outlet)
    }
}
