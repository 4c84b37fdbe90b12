//! What the first use of a lazy module wants next.
ghost use Rattle.std.specs.Prelude.{◌≡◌, ◌<◌, IfOk, OnErr};
ghost use Rattle.machine_events.specs.declared.event.Event.TheVariants as ev;
ghost use Rattle.machine_events.specs.declared.event.Reply.TheVariants as replies;
ghost use Rattle.meaning_runs.specs.Runs.{Makes};
ghost use Rattle.find_load.specs.Means.{wants};
ghost use Rattle.find_load.specs.declared.words.In.TheVariants as ins;
ghost use Rattle.meaning_state.specs.declared.fault.Fault.TheVariants as faults;
ghost use Rattle.meaning_script.specs.Pieces.{fails, passes};
ghost use Rattle.meaning_script.specs.Lazy.{rouses};
ghost use Rattle.run_module.specs.Rouse.{RouseGoes, means};
ghost use Rattle.run_module.specs.Rousing.{again, does_at, goes_on_by};
ghost use Rattle.run_module.specs.declared.rouser.RouseStage.TheVariants as stages;

use crate::rouser::{RouseStage, Rouser};
use base_types::{Exact, NoMemory, Seq};
use find_load::{In, Want, most};
use machine_events::{Event, Reply};
use meaning_state::{Fault, Flow, Leave, raised};
use py_value::Value;
use std::mem;

/// This is wanted, and what it comes to is waited for at a stage. No other function lets go of the
/// stage before it: where a stage is dropped, the proof goes through all that any stage can hold.
fn wait_for(p: &mut Rouser, stage: RouseStage, want: Want) -> Want
    ensures goes { RouseGoes (λ inside. wants inside want (goes_on_by p.old stage inside)) p.new result }
{
    let before = mem::replace(&mut p.stage, stage);
    drop(before);
    want
}

/// Memory was wanting: nothing is waited for any more, so that no input fits.
fn close(p: &mut Rouser) -> NoMemory
    ensures { p.new.stage ≡ stages.Over }
{
    let before = mem::replace(&mut p.stage, RouseStage::Over);
    drop(before);
    NoMemory
}

/// An error is raised.
fn fail(p: &mut Rouser, fault: Fault) -> Result<Want, NoMemory>
    ensures goes { IfOk result (RouseGoes (λ inside. fails fault) p.new) }
{
    let error = raised(p.module.name().alloc(), fault)?;
    Ok(Want::End(Flow::Left(Leave::Raised(error))))
}

/// The input is none that the stage waits for.
fn misfit(p: &mut Rouser, input: In) -> Result<Want, NoMemory>
    ensures goes { IfOk result (RouseGoes (λ inside. fails faults.NotInProfile) p.new) }
{
    drop(input);
    fail(p, Fault::NotInProfile)
}

/// The reply is none that the event can have.
fn misfit_reply(p: &mut Rouser, reply: Reply) -> Result<Want, NoMemory>
    ensures goes { IfOk result (RouseGoes (λ inside. fails faults.NotInProfile) p.new) }
{
    drop(reply);
    fail(p, Fault::NotInProfile)
}

/// Waiting for the lock would close a cycle.
fn deadlock(p: &mut Rouser) -> Result<Want, NoMemory>
    ensures goes { IfOk result (RouseGoes (λ inside. fails (faults.Deadlock p.old.module.name)) p.new) }
{
    let name = p.module.name().copy()?;
    fail(p, Fault::Deadlock(name))
}

/// No turn is left: more is to be paid than any budget has.
fn overspend(p: &mut Rouser) -> Want
    ensures goes { RouseGoes (λ inside. rouses inside.body 0 p.old.module) p.new result }
{
    let payment = Want::Pay {
        of_tree: false,
        units: most(),
    };
    wait_for(p, RouseStage::Begins, payment)
}

/// A turn is taken: the machine is asked for the module.
fn look(p: &mut Rouser) -> Want
    requires { 0 < p.old.turns }
    ensures goes { RouseGoes (again p.old) p.new result }
{
    p.turns -= 1;
    let look = Want::Call(Event::Rouse(p.module.mid()));
    wait_for(p, RouseStage::Asked, look)
}

/// The next turn.
fn ask(p: &mut Rouser) -> Want
    ensures goes { RouseGoes (again p.old) p.new result }
{
    if p.turns == 0 {
        return overspend(p);
    }
    look(p)
}

/// The module is loaded, or its body is running.
fn pass(p: &mut Rouser) -> Want
    ensures goes { RouseGoes (λ inside. passes) p.new result }
{
    let _ = p;
    Want::End(Flow::Went(Value::Nothing))
}

/// The lock is waited for, and then the next turn is taken.
fn wait(p: &mut Rouser) -> Want
    ensures goes { RouseGoes (λ inside s k. Makes ev.Wake (λ _. again p.old inside s k)) p.new result }
{
    wait_for(p, RouseStage::Waits, Want::Wait)
}

/// The body of the module runs.
fn run_body(p: &mut Rouser, load: u32, text: Seq<u8>) -> Result<Want, NoMemory>
    ensures goes { IfOk result (RouseGoes (does_at p.old stages.Asked (ins.Replied (replies.Yours load text))) p.new) }
{
    let body = Want::Body {
        mid: p.module.mid(),
        load,
        name: p.module.name().copy()?,
        text,
    };
    Ok(wait_for(p, RouseStage::Running(load), body))
}

/// What the machine answers.
fn asked(p: &mut Rouser, reply: Reply) -> Result<Want, NoMemory>
    ensures goes { IfOk result (RouseGoes (does_at p.old stages.Asked (ins.Replied reply)) p.new) }
{
    match reply {
        Reply::Ready => Ok(pass(p)),
        Reply::Cycle(_) => Ok(pass(p)),
        Reply::Wait(_) => Ok(wait(p)),
        Reply::Deadlock => deadlock(p),
        Reply::Yours(load, text) => run_body(p, load, text),
        other => misfit_reply(p, other),
    }
}

/// The body ended, and with it its load.
fn ended(p: &mut Rouser, load: u32, flow: Flow) -> Want
    ensures goes { RouseGoes (does_at p.old (stages.Running load) (ins.Ended flow)) p.new result }
{
    match flow {
        Flow::Went(value) => {
            drop(value);
            let finish = Want::Call(Event::Finish { load, good: true });
            wait_for(p, RouseStage::Finished, finish)
        }
        Flow::Left(leave) => {
            let finish = Want::Call(Event::Finish { load, good: false });
            wait_for(p, RouseStage::Left(Flow::Left(leave)), finish)
        }
    }
}

/// The first use begins.
fn begin(p: &mut Rouser, input: In) -> Result<Want, NoMemory>
    ensures goes { IfOk result (RouseGoes (does_at p.old stages.Begins input) p.new) }
{
    match input {
        In::Start => Ok(ask(p)),
        other => misfit(p, other),
    }
}

/// The machine was asked for the module.
fn after_ask(p: &mut Rouser, input: In) -> Result<Want, NoMemory>
    ensures goes { IfOk result (RouseGoes (does_at p.old stages.Asked input) p.new) }
{
    match input {
        In::Replied(reply) => asked(p, reply),
        other => misfit(p, other),
    }
}

/// The lock that was waited for is free.
fn after_wait(p: &mut Rouser, input: In) -> Result<Want, NoMemory>
    ensures goes { IfOk result (RouseGoes (does_at p.old stages.Waits input) p.new) }
{
    match input {
        In::Woken => Ok(ask(p)),
        other => misfit(p, other),
    }
}

/// The body has ended.
fn after_body(p: &mut Rouser, load: u32, input: In) -> Result<Want, NoMemory>
    ensures goes { IfOk result (RouseGoes (does_at p.old (stages.Running load) input) p.new) }
{
    match input {
        In::Ended(flow) => Ok(ended(p, load, flow)),
        other => misfit(p, other),
    }
}

/// The load ended well.
fn after_finish(p: &mut Rouser, input: In) -> Result<Want, NoMemory>
    ensures goes { IfOk result (RouseGoes (does_at p.old stages.Finished input) p.new) }
{
    match input {
        In::Replied(reply) => {
            drop(reply);
            Ok(pass(p))
        }
        other => misfit(p, other),
    }
}

/// The load ended for a leave.
fn after_leave(p: &mut Rouser, flow: Flow, input: In) -> Result<Want, NoMemory>
    ensures goes { IfOk result (RouseGoes (does_at p.old (stages.Left flow) input) p.new) }
{
    match input {
        In::Replied(reply) => {
            drop(reply);
            Ok(Want::End(flow))
        }
        other => {
            drop(flow);
            misfit(p, other)
        }
    }
}

/// What the first use of a module wants next, by its stage.
fn step(p: &mut Rouser, input: In) -> Result<Want, NoMemory>
    ensures goes { IfOk result (RouseGoes (λ inside. means inside p.old input) p.new) }
{
    match mem::replace(&mut p.stage, RouseStage::Over) {
        RouseStage::Begins => begin(p, input),
        RouseStage::Asked => after_ask(p, input),
        RouseStage::Waits => after_wait(p, input),
        RouseStage::Running(load) => after_body(p, load, input),
        RouseStage::Finished => after_finish(p, input),
        RouseStage::Left(flow) => after_leave(p, flow, input),
        RouseStage::Over => misfit(p, input),
    }
}

/// What the first use of a module wants next, by what it is fed. An input that its stage does not wait
/// for raises ProfileError. Where memory is wanting it is over: no input fits any more.
pub fn next(p: &mut Rouser, input: In) -> Result<Want, NoMemory>
    ensures goes { IfOk result (RouseGoes (λ inside. means inside p.old input) p.new) }
    ensures over { OnErr result (p.new.stage ≡ stages.Over) }
{
    match step(p, input) {
        Ok(want) => Ok(want),
        Err(_) => Err(close(p)),
    }
}
