//! The worker of a thread.
ghost use Rattle.std.specs.Prelude.{◌≡◌, [], IfSome, OnErr, Some, true};
ghost use Rattle.machine_desk.specs.Sight.{IsReady, Continues};
ghost use Rattle.trace_book.specs.Told.{sight_of, mine_of};
ghost use Rattle.drive_round.specs.Ran.{RanOver};
ghost use Rattle.drive_round.specs.Workers.{facts, IsNew, Works};

use crate::gate::{Gate, Gated};
use crate::program::Program;
use base_types::NoMemory;
use drive_account::Ending;
use machine_desk::Outlet;
use std::alloc::Global;
use std::sync::Wait;
use trace_book::{Bell, Pass, SharedDesk, Shelf};
use tree_files::Tree;

/// What all workers of a round share.
#[derive(Drop)]
pub(crate) struct Room<'a, R: Wait, O: Outlet, G: Gate> {
    pub(crate) alloc: Global,
    pub(crate) rt: &'a R,
    pub(crate) shelf: &'a Shelf<O>,
    pub(crate) bell: &'a Bell,
    pub(crate) gate: &'a G,
    pub(crate) fuel: u64,
}

impl<R: Wait, O: Outlet, G: Gate> Room<'_, R, O, G> {
    /// Runs a program at the desk of a pass. At want of memory the shared book is stopped, so that
    /// nobody waits for this thread.
    fn run<T: Tree, P: Program>(
        &self,
        pass: Pass,
        program: &P,
        tree: &mut T,
        script: u32,
    ) -> (Pass, Result<Ending, NoMemory>)
        requires table { pass.table ≡ self.now.shelf.now.table.shared.table_id }
        requires number { pass.number ≡ script }
        requires ready { IsReady (sight_of pass) }
        requires first { mine_of pass ≡ [] }
        ensures continues { Continues (sight_of pass) (sight_of result.0) }
        ensures stopped { OnErr result.1 (result.0.stopped ≡ true) }
        ensures files { T.files tree.new ≡ T.files tree.old }
        ensures ran { RanOver T.files T.faults T.lists tree.old tree.new script
            (P.run program.now script) self.now.fuel (mine_of result.0) result.1 }
    {
        let mut desk = Gated {
            desk: SharedDesk::new(self.rt, self.shelf, pass, self.bell),
            gate: self.gate,
            script,
            made: 0,
        };
        let ran = program.run(self.alloc, &mut desk, tree, script, self.fuel);
        let Gated {
            desk,
            gate: _,
            script: _,
            made: _,
        } = desk;
        match ran {
            Ok(ending) => (desk.end(), Ok(ending)),
            Err(refused) => (desk.stop(), Err(refused)),
        }
    }
}

/// A program with its pass and its tree, and what came of it so far.
#[derive(Drop)]
pub(crate) struct Worker<T: Tree, P: Program> {
    pub(crate) script: u32,
    pub(crate) pass: Option<Pass>,
    pub(crate) program: P,
    pub(crate) tree: T,
    pub(crate) ran: Result<Ending, NoMemory>,
}

impl<T: Tree, P: Program> Worker<T, P> {
    /// Runs its program.
    pub(crate) fn work<R: Wait, O: Outlet, G: Gate>(&mut self, room: &Room<'_, R, O, G>)
        requires { IsNew room.now.shelf.now.table.shared.table_id (facts P.run T.files T.faults T.lists self.old) }
        ensures { Works room.now.fuel (facts P.run T.files T.faults T.lists) self.old self.new }
    {
        let Some(pass) = self.pass.take() else {
            unreachable!()
        };
        let (pass, ran) = room.run(pass, &self.program, &mut self.tree, self.script);
        self.pass = Some(pass);
        self.ran = ran;
    }
}
