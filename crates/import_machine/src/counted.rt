//! A step that keeps the counts.
ghost use Rattle.std.specs.Prelude.{◌≡◌, Err, IfOk, OnOk, OnErr, IsTrue};
ghost use Rattle.machine_spec.specs.Step.{step};
ghost use Rattle.machine_spec.specs.Allowed.{allowed};
ghost use Rattle.machine_laws.specs.Sound.{IsSound};
ghost use Rattle.import_machine.specs.Counts.{AreCounted, ends, begins};

use crate::counts::{begins, ends, lower_at, raise_at, settle};
use base_types::NoMemory;
use machine_events::{Event, Reply};
use machine_spec::State;
use machine_step::step;
use spec_core::{Dotted, NameMap};

// Lets an event go that is not made. It stands apart, since a function pays at its entry for all that it may let go.
fn unmade(event: Event, error: NoMemory) -> Result<Reply, NoMemory>
    ensures { result ≡ Err error }
{
    drop(event);
    Err(error)
}

// The step of an event that may open a load of the one name, and ends one of the other.
fn step_named(
    state: &mut State,
    counts: &mut NameMap<u64>,
    thread: u32,
    event: Event,
    begun: &Option<Dotted>,
    ended: &Option<Dotted>,
) -> Result<Reply, NoMemory>
    requires allowed { IsTrue (allowed state.old thread event) }
    requires sound { IsSound state.old }
    requires counted { AreCounted state.old counts.old }
    requires begun { begun.now ≡ begins state.old event }
    requires ended { ended.now ≡ ends state.old event }
    ensures reply { IfOk result (λ reply. reply ≡ (step state.old thread event).0) }
    ensures ok { OnOk result (state.new ≡ (step state.old thread event).1) }
    ensures err { OnErr result (state.new ≡ state.old) }
    ensures counted { AreCounted state.new counts.new }
{
    match raise_at(counts, begun) {
        Ok(()) => {}
        Err(e) => return unmade(event, e),
    }
    match step(state, thread, event) {
        Ok(reply) => {
            settle(counts, begun, ended, &reply);
            Ok(reply)
        }
        Err(e) => {
            lower_at(counts, begun);
            Err(e)
        }
    }
}

/// One event of one thread, which is allowed. An `Err` changes nothing.
pub(crate) fn step_counted(
    state: &mut State,
    counts: &mut NameMap<u64>,
    thread: u32,
    event: Event,
) -> Result<Reply, NoMemory>
    requires allowed { IsTrue (allowed state.old thread event) }
    requires sound { IsSound state.old }
    requires counted { AreCounted state.old counts.old }
    ensures reply { IfOk result (λ reply. reply ≡ (step state.old thread event).0) }
    ensures ok { OnOk result (state.new ≡ (step state.old thread event).1) }
    ensures err { OnErr result (state.new ≡ state.old) }
    ensures counted { AreCounted state.new counts.new }
{
    let begun = match begins(state, &event) {
        Ok(begun) => begun,
        Err(e) => return unmade(event, e),
    };
    let ended = match ends(state, &event) {
        Ok(ended) => ended,
        Err(e) => return unmade(event, e),
    };
    step_named(state, counts, thread, event, &begun, &ended)
}
