//! A port that gives the replies of a recorded list.
ghost use Rattle.std.specs.Prelude.{◌≡◌, ℕ, ◌+◌, [], Some, take, slice_get, IfOk, OnErr, IsErrOf};
ghost use Rattle.machine_events.specs.Fitting.{Fits};
ghost use Rattle.drive_account.specs.Replay.{pairs_of, IsOther, Met};

use crate::port::{Halt, Port};
use base_types::{Exact, Same};
use machine_events::{Event, Pair, Reply, fits};

/// A port over a recorded list. So many of its pairs were met, and what it may still become is every
/// port over the same list that has met pairs whose replies fit. It refuses an event that is not the
/// next one of the list, and one whose recorded reply is of no kind that its event can get; then the
/// flag is set.
#[derive(Drop)]
pub struct ReplayPort<'a> {
    pub number: u32,
    pub own: &'a [Pair],
    pub at: usize,
    pub misfit: bool,
}

impl<'a> ReplayPort<'a> {
    /// The port of a script of this number, none of whose pairs was met yet.
    pub fn new(number: u32, own: &'a [Pair]) -> ReplayPort<'a>
        ensures number { result.number ≡ number }
        ensures own { result.own.now ≡ own.now }
        ensures at { result.at ≡ 0 }
        ensures mine { pairs_of (take result.at result.own.now) ≡ [] }
        ensures met { Met result.own.now result.at }
    {
        ReplayPort {
            number,
            own,
            at: 0,
            misfit: false,
        }
    }
}

impl ReplayPort<'_> {
    fn next(&mut self, event: &Event) -> Result<Reply, Halt>
        ensures ok { IfOk result (λ reply. (self.new.at ≡ self.old.at + 1)
            × (slice_get self.old.own.now self.old.at ≡ Some (record { event = event.now; reply = reply }))
            × Fits event.now reply) }
        ensures err { OnErr result (self.new.at ≡ self.old.at) }
        ensures refused { IsErrOf result Halt.Refused → IsOther self.new.misfit
            (slice_get self.old.own.now self.old.at) event.now }
        ensures own { self.new.own.now ≡ self.old.own.now }
        ensures number { self.new.number ≡ self.old.number }
    {
        self.misfit = false;
        let pair = match self.own.get(self.at) {
            None => return Err(Halt::Refused),
            Some(pair) => pair,
        };
        if !pair.event.is_same(event) {
            return Err(Halt::Refused);
        }
        if !fits(event, &pair.reply) {
            self.misfit = true;
            return Err(Halt::Refused);
        }
        match pair.reply.copy() {
            Ok(reply) => {
                self.at += 1;
                Ok(reply)
            }
            Err(_) => Err(Halt::NoMemory),
        }
    }
}

impl Port for ReplayPort<'_> {
    ghost view = { λ d. record {
      number = d.number;
      mine = pairs_of (take d.at d.own.now);
      ready = Unit {0};
      later = λ c. (c.own.now ≡ d.own.now) × (Met d.own.now d.at → Met c.own.now c.at);
      refuses = λ event. IsOther d.misfit (slice_get d.own.now d.at) event;
    } };

    fn call(&mut self, event: Event) -> Result<Reply, Halt> {
        let reply = self.next(&event);
        drop(event);
        reply
    }

    fn wait(&mut self) -> Result<Reply, Halt> {
        self.next(&Event::Wake)
    }
}
