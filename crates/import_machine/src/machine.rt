//! The machine, and what holds in every state of it.
ghost use Rattle.std.specs.Prelude.{◌≡◌, ◌≤◌, ℕ, length, IfOk, OnOk, OnErr, IsTrue, List};
ghost use Rattle.std.specs.FinMap as map;
ghost use Rattle.std.specs.Option.{option_copied};
ghost use Rattle.std.specs.List.{sum};
ghost use Rattle.machine_events.specs.Fitting.{Fits};
ghost use Rattle.machine_spec.specs.Step.{step};
ghost use Rattle.machine_spec.specs.Allowed.{allowed, scripts};
ghost use Rattle.machine_spec.specs.Gives.{gives};
ghost use Rattle.machine_spec.specs.Opening.{opening};
ghost use Rattle.machine_laws.specs.Begun.{HaveScripts};
ghost use Rattle.machine_laws.specs.Sound.{IsSound};

use crate::counted::step_counted;
use crate::{allowed, open, scripts};
use base_types::{NoMemory, Seq, Texts};
use machine_events::{Event, Reply};
use machine_spec::State;
use machine_step::{gives, reply};
use spec_core::{Dotted, NameMap};
use std::marker::Model;

/// The import machine. Contracts see its state. One call of `step` is one atomic step.
///
/// Beside the state it keeps how many loads of each name are open, so that no event's test looks through
/// the loads.
pub struct Machine {
    state: State,
    counts: NameMap<u64>,
}

impl Model for Machine {
    ghost use Rattle.machine_spec.specs.declared.state.State.{State as S};
    ghost use Rattle.machine_spec.specs.contracts.state.State.{the_row};
    ghost use Rattle.machine_laws.specs.Sound.{IsSound};
    ghost use Rattle.import_machine.specs.Counts.{AreCounted};

    ghost Value = { S };

    ghost coded = { the_row.coded };

    ghost view = { λ a. a.state };

    ghost invariant = { λ a. IsSound a.state × AreCounted a.state a.counts };
}

impl Machine {
    /// The machine before the first event: 1 to 16 scripts with their texts, the search path, and the
    /// sizes of the rounds, each at least 1, in which the scripts run, one after another.
    pub fn new(
        scripts: &Texts,
        texts: &Seq<Seq<u8>>,
        path: &Texts,
        rounds: &[u32],
    ) -> Result<Machine, NoMemory>
        requires some { 1 ≤ length scripts.now }
        requires few { length scripts.now ≤ 16 }
        requires texts { length texts.now ≡ length scripts.now }
        requires each { HaveScripts rounds.now }
        requires rounds { sum rounds.now ≡ length scripts.now }
        ensures { IfOk result (λ it. it ≡ opening scripts.now texts.now path.now rounds.now) }
    {
        Ok(Machine {
            state: open(scripts, texts, path, rounds)?,
            counts: NameMap::new(path.alloc()),
        })
    }

    /// One event of one thread, which is allowed. An `Err` changes nothing.
    pub fn step(&mut self, thread: u32, event: Event) -> Result<Reply, NoMemory>
        requires { IsTrue (allowed self.old thread event) }
        ensures reply { IfOk result (λ reply. reply ≡ (step self.old thread event).0) }
        ensures fits { IfOk result (Fits event) }
        ensures ok { OnOk result (self.new ≡ (step self.old thread event).1) }
        ensures err { OnErr result (self.new ≡ self.old) }
    {
        step_counted(&mut self.state, &mut self.counts, thread, event)
    }

    /// What `step` would answer to the event. It changes nothing.
    pub fn reply(&self, thread: u32, event: &Event) -> Result<Reply, NoMemory>
        ensures { IfOk result (λ reply. reply ≡ (step self.now thread event.now).0) }
    {
        reply(&self.state, thread, event)
    }

    /// Whether the thread may make the event. It takes no memory.
    pub fn allowed(&self, thread: u32, event: &Event) -> bool
        ensures { result ≡ allowed self.now thread event.now }
    {
        allowed(&self.state, &self.counts, thread, event)
    }

    /// The name whose lock's count the event lowers: of Finish, Release, AddLazy, and a ReloadEnd with
    /// a load. It takes no memory.
    pub fn gives<'a>(&'a self, event: &'a Event) -> Option<&'a Dotted>
        ensures { option_copied result ≡ gives self.now event.now }
    {
        gives(&self.state, event)
    }

    /// The name of the lock that the thread waits for. It takes no memory.
    pub fn awaited(&self, thread: u32) -> Option<&Dotted>
        ensures { option_copied result ≡ map.get self.now.locks.waits thread }
    {
        self.state.locks.awaited(thread)
    }

    /// The number of scripts. It takes no memory.
    pub fn scripts(&self) -> u32
        ensures { result ≡ scripts self.now }
    {
        scripts(&self.state)
    }

    /// What holds in every state.
    pub fn is_sound(&self)
        ensures { IsSound self.now }
    {
        let _ = &self.state;
    }
}

impl Drop for Machine {
    fn drop(self) {
        let Machine { state, counts } = self;
        drop(state);
        drop(counts);
    }
}
