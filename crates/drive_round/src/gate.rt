//! What is called before each event of a thread.
ghost use Rattle.std.specs.Prelude.{◌≡◌, IfOk, OnErr};
ghost use Rattle.machine_shown.specs.Knowing.{Knows, Waits};
ghost use Rattle.machine_events.specs.declared.event.Event.TheVariants as events;
ghost use Rattle.machine_desk.specs.Sight.{Sight, IsReady, Continues, Gains};

use machine_desk::{Desk, Halt};
use machine_events::{Event, Reply};

/// Where programs run in threads of their own, it is called before each event of one, with the number
/// of events that it has made. It may hold a thread until another has come so far.
pub trait Gate {
    fn before(&self, script: u32, event: u64);
}

/// A gate that holds nobody.
pub struct OpenGate;

impl Gate for OpenGate {
    fn before(&self, _script: u32, _event: u64) {}
}

/// A desk whose events pass a gate.
#[derive(Drop)]
pub(crate) struct Gated<'a, D: Desk + Drop, G: Gate> {
    pub(crate) desk: D,
    pub(crate) gate: &'a G,
    pub(crate) script: u32,
    pub(crate) made: u64,
}

impl<D: Desk + Drop, G: Gate> Gated<'_, D, G> {
    /// Passes the gate for one event more.
    fn pass(&mut self)
        ensures { self.new.desk ≡ self.old.desk }
    {
        self.gate.before(self.script, self.made);
        self.made = self.made.saturating_add(1);
    }
}

impl<D: Desk + Drop, G: Gate> Desk for Gated<'_, D, G> {
    type Place = D::Place;

    ghost sight = { λ d. D.sight d.desk };

    fn call(&mut self, event: Event) -> Result<Reply, Halt> {
        self.pass();
        self.desk.call(event)
    }

    fn wait(&mut self) -> Result<Reply, Halt> {
        self.pass();
        self.desk.wait()
    }
}
