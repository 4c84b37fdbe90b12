//! How a script ends: what it holds is given up, and its End event is made.
ghost use Rattle.std.specs.Prelude.{◌≡◌, ◌≤◌, ◌∷◌, ◌++◌, [], IfOk, OnOk, OnErr, IsErrOf};
ghost use Rattle.machine_events.specs.declared.event.Event.TheVariants as ev;
ghost use Rattle.machine_events.specs.declared.event.Outcome.TheVariants as outcomes;
ghost use Rattle.machine_events.specs.declared.event.Reply.TheVariants.{Done};
ghost use Rattle.machine_shown.specs.Shown.{shown};
ghost use Rattle.machine_shown.specs.Knowing.{IsShown};
ghost use Rattle.meaning_runs.specs.Lists.{lists_in};
ghost use Rattle.meaning_runs.specs.Runs.{gives};
ghost use Rattle.drive_account.specs.View.{View, Stays};
ghost use Rattle.drive_account.specs.Holds.{holding_of, held_in};
ghost use Rattle.meaning_script.specs.Meaning as meant;
ghost use Rattle.drive_account.specs.Ending.{outcome, IsRead, Idle, Gave, GaveAll, RefusedGiving, RefusedLast};

use crate::{Halt, Held, Hold, Port};
use base_types::{Exact, NoMemory};
use machine_events::{Event, Outcome};
use meaning_state::{Flow, Leave};
use py_value::Raised;

/// How a script ended.
#[derive(Drop)]
pub enum Ending {
    /// Its body came to its end.
    Normal,
    /// This error left its body.
    Raised(Raised),
    /// Its budget was spent.
    Fuel,
    /// A call of the tree failed.
    Read,
}

/// How one thing that is held is given up.
fn event_of(hold: Hold) -> Event
    ensures { result ≡ gives (holding_of hold) }
{
    match hold {
        Hold::Taken(name) => Event::Release(name),
        Hold::Loading(load) => Event::Finish { load, good: false },
        Hold::Reloading { mid, load } => Event::ReloadEnd { mid, load },
    }
}

/// Gives up all that is held, the innermost first. Nothing is paid, and no reply is looked at.
pub fn give_up<P: Port>(port: &mut P, held: &mut Held) -> Result<(), Halt>
    requires idle { Idle (P.view port.old) held.old }
    ensures stays { Stays (P.view port.old) (P.view port.new) }
    ensures gave { Gave (P.view port.old).number (P.view port.old).mine (P.view port.new).mine }
    ensures grows { lists_in (P.view port.old).mine ≤ lists_in (P.view port.new).mine }
    ensures idle { OnOk result (Idle (P.view port.new) held.new) }
    ensures free { OnOk result (held_in held.new ≡ []) }
    ensures refused { IsErrOf result Halt.Refused → RefusedGiving (P.view port.new) (P.view port.old).number
        (P.view port.old).mine }
{
    while let Some(hold) = held.pop() {
        match port.call(event_of(hold)) {
            Ok(reply) => drop(reply),
            Err(halt) => return Err(halt),
        }
    }
    Ok(())
}

/// Makes the End event.
fn end<P: Port>(port: &mut P, how: Outcome, spent: u64) -> Result<(), Halt>
    requires ready { (P.view port.old).ready }
    requires knows { IsShown (shown (P.view port.old).number (P.view port.old).mine) (ev.End how spent) }
    ensures stays { Stays (P.view port.old) (P.view port.new) }
    ensures ends { OnOk result ((P.view port.new).mine ≡ (P.view port.old).mine ++ (ev.End how spent, Done) ∷ []) }
    ensures grows { OnOk result (lists_in (P.view port.old).mine ≤ lists_in (P.view port.new).mine) }
    ensures err { OnErr result ((P.view port.new).mine ≡ (P.view port.old).mine) }
    ensures refused { IsErrOf result Halt.Refused → (P.view port.new).refuses (ev.End how spent) }
{
    let event = Event::End {
        outcome: how,
        spent,
    };
    match port.call(event) {
        Ok(reply) => {
            drop(reply);
            Ok(())
        }
        Err(halt) => Err(halt),
    }
}

/// How a script ended whose work is done, and the outcome that its End event tells.
fn ending_of(flow: Flow) -> Result<(Ending, Outcome), NoMemory>
    ensures outcome { IfOk result (λ both. both.1 ≡ meant.outcome_of flow) }
    ensures same { IfOk result (λ both. outcome both.0 ≡ both.1) }
    ensures read { IfOk result (λ both. IsRead both.0 → ⊥) }
{
    match flow {
        Flow::Left(Leave::Raised(error)) => {
            let copy = error.copy()?;
            Ok((Ending::Raised(copy), Outcome::Raised(error)))
        }
        other => {
            drop(other);
            Ok((Ending::Normal, Outcome::Normal))
        }
    }
}

/// A script whose work is done makes its End event.
pub fn came<P: Port>(port: &mut P, flow: Flow, fuel: u64) -> Result<Ending, Halt>
    requires ready { (P.view port.old).ready }
    requires knows { IsShown (shown (P.view port.old).number (P.view port.old).mine)
        (ev.End (meant.outcome_of flow) fuel) }
    ensures stays { Stays (P.view port.old) (P.view port.new) }
    ensures ends { IfOk result (λ ending. (outcome ending ≡ meant.outcome_of flow)
        × ((P.view port.new).mine ≡ (P.view port.old).mine ++ (ev.End (meant.outcome_of flow) fuel, Done) ∷ [])) }
    ensures read { IfOk result (λ ending. IsRead ending → ⊥) }
    ensures grows { OnOk result (lists_in (P.view port.old).mine ≤ lists_in (P.view port.new).mine) }
    ensures err { OnErr result ((P.view port.new).mine ≡ (P.view port.old).mine) }
    ensures refused { IsErrOf result Halt.Refused → (P.view port.new).refuses (ev.End (meant.outcome_of flow) fuel) }
{
    let (ending, how) = match ending_of(flow) {
        Ok(both) => both,
        Err(_) => return Err(Halt::NoMemory),
    };
    match end(port, how, fuel) {
        Ok(()) => Ok(ending),
        Err(halt) => {
            drop(ending);
            Err(halt)
        }
    }
}

/// A script that is spent, or that could not read, gives up what it holds and makes its End event.
fn broke<P: Port>(port: &mut P, held: &mut Held, how: Outcome, spent: u64) -> Result<(), Halt>
    requires idle { Idle (P.view port.old) held.old }
    ensures stays { Stays (P.view port.old) (P.view port.new) }
    ensures ends { OnOk result (GaveAll (P.view port.old).number (P.view port.old).mine
        (P.view port.new).mine how spent) }
    ensures grows { OnOk result (lists_in (P.view port.old).mine ≤ lists_in (P.view port.new).mine) }
    ensures part { OnErr result (Gave (P.view port.old).number (P.view port.old).mine (P.view port.new).mine) }
    ensures refused { IsErrOf result Halt.Refused → RefusedLast (P.view port.new) (P.view port.old).number
        (P.view port.old).mine how spent }
{
    match give_up(port, held) {
        Ok(()) => match end(port, how, spent) {
            Ok(()) => Ok(()),
            Err(halt) => Err(halt),
        },
        Err(halt) => {
            drop(how);
            Err(halt)
        }
    }
}

/// A script that is spent gives up what it holds and makes its End event.
pub fn spent<P: Port>(port: &mut P, held: &mut Held, fuel: u64) -> Result<Ending, Halt>
    requires idle { Idle (P.view port.old) held.old }
    ensures stays { Stays (P.view port.old) (P.view port.new) }
    ensures ends { IfOk result (λ ending. (outcome ending ≡ outcomes.Fuel)
        × GaveAll (P.view port.old).number (P.view port.old).mine (P.view port.new).mine outcomes.Fuel fuel) }
    ensures read { IfOk result (λ ending. IsRead ending → ⊥) }
    ensures grows { OnOk result (lists_in (P.view port.old).mine ≤ lists_in (P.view port.new).mine) }
    ensures part { OnErr result (Gave (P.view port.old).number (P.view port.old).mine (P.view port.new).mine) }
    ensures refused { IsErrOf result Halt.Refused → RefusedLast (P.view port.new) (P.view port.old).number
        (P.view port.old).mine outcomes.Fuel fuel }
{
    match broke(port, held, Outcome::Fuel, fuel) {
        Ok(()) => Ok(Ending::Fuel),
        Err(halt) => Err(halt),
    }
}

/// A script for which a call of the tree failed gives up what it holds and makes its End event. So
/// much was paid before the payment for that call.
pub fn unread<P: Port>(port: &mut P, held: &mut Held, paid: u64) -> Result<Ending, Halt>
    requires idle { Idle (P.view port.old) held.old }
    ensures stays { Stays (P.view port.old) (P.view port.new) }
    ensures ends { IfOk result (λ ending. (outcome ending ≡ outcomes.Read)
        × GaveAll (P.view port.old).number (P.view port.old).mine (P.view port.new).mine outcomes.Read paid) }
    ensures grows { OnOk result (lists_in (P.view port.old).mine ≤ lists_in (P.view port.new).mine) }
    ensures part { OnErr result (Gave (P.view port.old).number (P.view port.old).mine (P.view port.new).mine) }
    ensures refused { IsErrOf result Halt.Refused → RefusedLast (P.view port.new) (P.view port.old).number
        (P.view port.old).mine outcomes.Read paid }
{
    match broke(port, held, Outcome::Read, paid) {
        Ok(()) => Ok(Ending::Read),
        Err(halt) => Err(halt),
    }
}
