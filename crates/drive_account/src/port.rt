//! The port of a script.
ghost use Rattle.std.specs.Prelude.{◌≡◌, IfOk, OnErr, IsErrOf};
ghost use Rattle.machine_shown.specs.Knowing.{Knows, Waits};
ghost use Rattle.machine_events.specs.declared.event.Event.TheVariants as events;
ghost use Rattle.drive_account.specs.View.{View, Stays, Gains};

use machine_events::{Event, Reply};
use thiserror::Error;

/// Why an event of a port did not happen: memory was wanting, or the port does not take this event.
#[derive(Clone, Copy, Debug, PartialEq, Eq, Error)]
pub enum Halt {
    #[error("out of memory")]
    NoMemory,
    #[error("the event is not taken here")]
    Refused,
}

/// Where one script makes its events. The evaluator is written against it, so that it stands beside
/// the machine and not above it. After a refusal the script's events are as they were.
pub trait Port {
    // The script's number and events, whether its turn has come, what the port may still become,
    // and which events it does not take.
    ghost view: { Self → View Self };

    /// Makes an event that the script's own pairs show to be allowed, once its turn has come.
    fn call(&mut self, event: Event) -> Result<Reply, Halt>
        requires knows { Knows (view self.old).number (view self.old).mine event }
        requires ready { (view self.old).ready }
        ensures stays { Stays (view self.old) (view self.new) }
        ensures ok { IfOk result (Gains (view self.old) (view self.new) event) }
        ensures err { OnErr result ((view self.new).mine ≡ (view self.old).mine) }
        ensures refused { IsErrOf result Halt.Refused → (view self.new).refuses event };

    /// Waits until the lock that the script waits for is free. It makes the Wake event.
    fn wait(&mut self) -> Result<Reply, Halt>
        requires waits { Waits (view self.old).number (view self.old).mine }
        requires ready { (view self.old).ready }
        ensures stays { Stays (view self.old) (view self.new) }
        ensures ok { IfOk result (Gains (view self.old) (view self.new) events.Wake) }
        ensures err { OnErr result ((view self.new).mine ≡ (view self.old).mine) }
        ensures refused { IsErrOf result Halt.Refused → (view self.new).refuses events.Wake };
}
