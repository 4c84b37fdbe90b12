//! Turns that make an event.
ghost use Rattle.std.specs.Prelude.{◌≡◌, false};
ghost use Rattle.meaning_script.specs.Names.{is_local_name};
ghost use Rattle.py_frames.specs.declared.want.Want.TheVariants as wants;
ghost use Rattle.drive_account.specs.View.{View};
ghost use Rattle.drive_straight.specs.Remains.{due};
ghost use Rattle.drive_straight.specs.declared.next.Next.TheVariants as nexts;
ghost use Rattle.py_run.specs.Turns.{Stood, made, remains};
ghost use Rattle.py_run.specs.Events.{MakesEvent};

use crate::turns::Turn;
use crate::working::{follow, lead_on};
use base_types::{Exact, Text};
use drive_account::{Halt, Port, change_of};
use drive_straight::Execution;
use machine_events::{Event, Reply};
use py_frames::{Item, OnReply, Want};
use py_value::{ModRef, Value};
use std::alloc::Global;

/// An event is made, for a unit, and its reply comes. None where the unit is not there.
fn make<P: Port>(
    port: &mut P,
    execution: &mut Execution,
    event: Event,
    on: &OnReply,
) -> Result<Option<Reply>, Halt>
    requires stood { Stood (P.view port.old) execution.old.held (remains execution.old (wants.Call event on.now)) }
    ensures { MakesEvent (P.view port.old) (P.view port.new) execution.old.budget
        (remains execution.old (wants.Call event on.now)) execution.new (made on.now) result }
{
    let _on = on;
    let change = match change_of(&event) {
        Ok(change) => change,
        Err(_) => {
            drop(event);
            return Err(Halt::NoMemory);
        }
    };
    if !execution.budget.pay(false, 1) {
        drop(event);
        return Ok(None);
    }
    execution.budget.read = None;
    match port.call(event) {
        Ok(reply) => match execution.held.change(change, &reply) {
            Ok(()) => Ok(Some(reply)),
            Err(_) => {
                drop(reply);
                Err(Halt::NoMemory)
            }
        },
        Err(halt) => Err(halt),
    }
}

/// An event is made, for a unit, and then all is done that can be in place.
pub fn call<P: Port>(
    alloc: Global,
    port: &mut P,
    execution: &mut Execution,
    event: Event,
    on: OnReply,
) -> Result<Turn, Halt>
    requires stood { Stood (P.view port.old) execution.old.held (remains execution.old (wants.Call event on)) }
    ensures { MakesEvent (P.view port.old) (P.view port.new) execution.old.budget
        (remains execution.old (wants.Call event on)) execution.new (λ turn. turn) result }
{
    let made = match make(port, execution, event, &on) {
        Ok(made) => made,
        Err(halt) => {
            drop(on);
            return Err(halt);
        }
    };
    match made {
        Some(reply) => follow(alloc, execution, on, reply),
        None => {
            drop(on);
            Ok(Turn::Out)
        }
    }
}

/// A variable of the module is read.
pub fn read<P: Port>(
    alloc: Global,
    port: &mut P,
    execution: &mut Execution,
    name: Text,
) -> Result<Turn, Halt>
    requires stood { Stood (P.view port.old) execution.old.held (due (nexts.ReadGlobal name) execution.old) }
    ensures { MakesEvent (P.view port.old) (P.view port.new) execution.old.budget
        (due (nexts.ReadGlobal name) execution.old) execution.new (λ turn. turn) result }
{
    let copied = match name.copy() {
        Ok(copied) => copied,
        Err(_) => return Err(Halt::NoMemory),
    };
    let event = Event::GetVar {
        mid: execution.thread.state.scope.mid,
        name: copied,
        raw: true,
    };
    call(alloc, port, execution, event, OnReply::Global(name))
}

/// An attribute of a module is read.
pub fn read_member<P: Port>(
    alloc: Global,
    port: &mut P,
    execution: &mut Execution,
    module: ModRef,
    name: Text,
) -> Result<Turn, Halt>
    requires stood { Stood (P.view port.old) execution.old.held (due (nexts.Member «module» name)
        execution.old) }
    ensures { MakesEvent (P.view port.old) (P.view port.new) execution.old.budget
        (due (nexts.Member «module» name) execution.old) execution.new (λ turn. turn) result }
{
    let copied = match name.copy() {
        Ok(copied) => copied,
        Err(_) => return Err(Halt::NoMemory),
    };
    let event = Event::GetVar {
        mid: module.mid(),
        name: copied,
        raw: false,
    };
    let is_raw = false;
    let on = OnReply::Member {
        module,
        name,
        is_raw,
    };
    call(alloc, port, execution, event, on)
}

/// A variable of the module is bound to a value.
pub fn bind<P: Port>(
    alloc: Global,
    port: &mut P,
    execution: &mut Execution,
    name: Text,
    value: Value,
) -> Result<Turn, Halt>
    requires global { is_local_name execution.old.thread.state name ≡ false }
    requires stood { Stood (P.view port.old) execution.old.held (due (nexts.Store name value) execution.old) }
    ensures { MakesEvent (P.view port.old) (P.view port.new) execution.old.budget
        (due (nexts.Store name value) execution.old) execution.new (λ turn. turn) result }
{
    let event = Event::SetVar {
        raw: true,
        mid: execution.thread.state.scope.mid,
        name,
        value,
    };
    call(alloc, port, execution, event, OnReply::Stored)
}

/// The script waits for a lock.
pub fn wait<P: Port>(
    alloc: Global,
    port: &mut P,
    execution: &mut Execution,
    item: Item,
) -> Result<Turn, Halt>
    requires stood { Stood (P.view port.old) execution.old.held (remains execution.old (wants.Wait item)) }
    ensures { MakesEvent (P.view port.old) (P.view port.new) execution.old.budget
        (remains execution.old (wants.Wait item)) execution.new (λ turn. turn) result }
{
    execution.budget.read = None;
    match port.wait() {
        Ok(reply) => {
            drop(reply);
            lead_on(alloc, execution, Want::Then(item))
        }
        Err(halt) => {
            drop(item);
            Err(halt)
        }
    }
}
