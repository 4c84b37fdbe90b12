//! A thread's desk at a shared book.
ghost use Rattle.std.specs.Prelude.{◌≡◌, IfOk, IsErr, OnErr, true};
ghost use Rattle.machine_desk.specs.Sight.{IsReady, Continues, Gains};
ghost use Rattle.machine_shown.specs.Knowing.{Knows, Waits};
ghost use Rattle.machine_events.specs.declared.event.Event.TheVariants as events;
ghost use Rattle.trace_book.specs.Told.{sight_of};

use crate::bell::Bell;
use crate::pass::Pass;
use crate::place::Place;
use crate::shelf::{Seat, Shelf};
use machine_desk::{Desk, Halt, Outlet};
use machine_events::{Event, Reply};
use std::marker::Model;
use std::sync::Wait;

/// A thread's desk at a shared book. Contracts see it as the pass that it was made of.
#[derive(Drop)]
pub struct SharedDesk<'a, R: Wait, O: Outlet> {
    rt: &'a R,
    shelf: &'a Shelf<O>,
    bell: &'a Bell,
    seat: Seat<O>,
    number: u32,
}

impl<'a, R: Wait, O: Outlet> Model for SharedDesk<'a, R, O> {
    ghost use Rattle.std.specs.Prelude.{◌≡◌};
    ghost use Rattle.std.specs.Coded.{codes};
    ghost use Rattle.atomic_table.specs.Seated.{table_id_coded};
    ghost use Rattle.machine_events.specs.contracts.event.Entry as entry;
    ghost use Rattle.trace_book.specs.contracts.view.Base as base;
    ghost use Rattle.trace_book.specs.Told.{Told, told};
    ghost use Rattle.trace_book.specs.Seats.{Ready};

    ghost Value = { Told };

    ghost coded = { Prim.hlevel (codes, table_id_coded, base.the_row.coded, entry.the_row.coded) };

    ghost view = { λ d. told d.seat.table_id d.number d.seat.me.0 };

    ghost invariant = { λ d. (d.seat.table_id ≡ d.shelf.now.table.shared.table_id) × Ready d.seat.me d.number };
}

impl<'a, R: Wait, O: Outlet> SharedDesk<'a, R, O> {
    /// The desk of a pass of the shared book.
    pub fn new(rt: &'a R, shelf: &'a Shelf<O>, pass: Pass, bell: &'a Bell) -> SharedDesk<'a, R, O>
        requires { pass.table ≡ shelf.now.table.shared.table_id }
        ensures { result ≡ pass }
    {
        let Pass { badge, number } = pass;
        SharedDesk {
            rt,
            shelf,
            bell,
            seat: badge.into_seat(),
            number,
        }
    }

    /// The pass, with what was seen at the desk.
    pub fn end(self) -> Pass
        ensures { result ≡ self.entry }
    {
        let SharedDesk {
            rt: _,
            shelf: _,
            bell: _,
            seat,
            number,
        } = self;
        Pass {
            badge: seat.into_badge(),
            number,
        }
    }

    /// Stops the shared book. It takes no memory.
    pub fn stop(self) -> Pass
        ensures table { result.table ≡ self.entry.table }
        ensures continues { Continues (sight_of self.entry) (sight_of result) }
        ensures mine { (sight_of result).mine ≡ (sight_of self.entry).mine }
        ensures stopped { result.stopped ≡ true }
    {
        let SharedDesk {
            rt,
            shelf,
            bell,
            mut seat,
            number,
        } = self;
        shelf.stop(rt, bell, &mut seat, number);
        Pass {
            badge: seat.into_badge(),
            number,
        }
    }
}

impl<R: Wait, O: Outlet> Desk for SharedDesk<'_, R, O> {
    type Place = Place;

    ghost sight = { sight_of };

    fn call(&mut self, event: Event) -> Result<Reply, Halt>
        requires knows { Knows (sight_of self.old).number (sight_of self.old).mine event }
        requires ready { IsReady (sight_of self.old) }
        ensures continues { Continues (sight_of self.old) (sight_of self.new) }
        ensures ok { IfOk result (λ reply. Gains (sight_of self.old) (sight_of self.new) event reply) }
        ensures halt { OnErr result ((sight_of self.new).mine ≡ (sight_of self.old).mine) }
        ensures stopped { OnErr result (self.new.stopped ≡ true) }
        ensures refuses { self.old.stopped ≡ true → IsErr result }
    {
        self.shelf
            .call(self.rt, self.bell, &mut self.seat, self.number, event)
    }

    fn wait(&mut self) -> Result<Reply, Halt>
        requires waits { Waits (sight_of self.old).number (sight_of self.old).mine }
        requires ready { IsReady (sight_of self.old) }
        ensures continues { Continues (sight_of self.old) (sight_of self.new) }
        ensures ok { IfOk result (λ reply. Gains (sight_of self.old) (sight_of self.new) events.Wake reply) }
        ensures halt { OnErr result ((sight_of self.new).mine ≡ (sight_of self.old).mine) }
        ensures stopped { OnErr result (self.new.stopped ≡ true) }
    {
        self.shelf
            .wait(self.rt, self.bell, &mut self.seat, self.number)
    }
}
