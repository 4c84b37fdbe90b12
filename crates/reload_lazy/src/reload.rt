//! What a reload wants next.
ghost use Rattle.std.specs.Prelude.{◌≡◌, IfOk, OnErr};
ghost use Rattle.reload_lazy.specs.Reload.{ReloadGoes, does, means};
ghost use Rattle.reload_lazy.specs.Reloading.{does_at};
ghost use Rattle.reload_lazy.specs.declared.reloader.Awaited.TheVariants as await;
ghost use Rattle.reload_lazy.specs.declared.reloader.ReloadStage.TheVariants as stages;

use crate::begins::{begin_came, begun, roused, start};
use crate::ends::{end, ended};
use crate::finds::{discover, opened};
use crate::locates::{on_entry, on_parent_path, on_search_path};
use crate::raises::{fail, misfit, stop};
use crate::reloader::{Awaited, Finding, ReloadStage, Reloader};
use crate::takes::{take, took};
use crate::waits::close;
use base_types::NoMemory;
use find_load::{In, Want};
use meaning_state::{Fault, Flow};
use py_value::{Items, ModRef, Value};
use spec_core::{Dotted, Spec};

/// The reload begins.
fn begin(p: &mut Reloader, input: In) -> Result<Want, NoMemory>
    ensures goes { IfOk result (ReloadGoes (λ inside. does inside p.old.turns p.old.module stages.Begins input) p.new) }
{
    match input {
        In::Start => start(p),
        other => misfit(p, other),
    }
}

/// The reply to ReloadBegin.
fn after_ask(p: &mut Reloader, name: Dotted, input: In) -> Result<Want, NoMemory>
    ensures goes { IfOk result (ReloadGoes (does_at p.old name await.Asked input) p.new) }
{
    match input {
        In::Replied(reply) => begin_came(p, name, reply),
        other => misfit(p, other),
    }
}

/// The first use of the lazy module has ended.
fn after_rouse(p: &mut Reloader, name: Dotted, input: In) -> Result<Want, NoMemory>
    ensures goes { IfOk result (ReloadGoes (does_at p.old name await.Roused input) p.new) }
{
    match input {
        In::Ended(flow) => Ok(roused(p, name, flow)),
        other => misfit(p, other),
    }
}

/// The reply to ReloadBegin of a lazy module that was loaded.
fn after_raw_ask(p: &mut Reloader, name: Dotted, input: In) -> Result<Want, NoMemory>
    ensures goes { IfOk result (ReloadGoes (does_at p.old name await.AskedRaw input) p.new) }
{
    match input {
        In::Replied(reply) => begun(p, name, reply),
        other => misfit(p, other),
    }
}

/// The search path was read.
fn after_search_path(
    p: &mut Reloader,
    name: Dotted,
    epoch: u64,
    input: In,
) -> Result<Want, NoMemory>
    ensures goes { IfOk result (ReloadGoes (does_at p.old name (await.SearchPath epoch) input) p.new) }
{
    match input {
        In::Replied(reply) => on_search_path(p, name, epoch, reply),
        other => misfit(p, other),
    }
}

/// The entry of the parent was read.
fn after_entry(
    p: &mut Reloader,
    name: Dotted,
    epoch: u64,
    parent: Dotted,
    input: In,
) -> Result<Want, NoMemory>
    ensures goes { IfOk result (ReloadGoes (does_at p.old name (await.ParentEntry epoch parent) input) p.new) }
{
    match input {
        In::Replied(reply) => on_entry(p, name, epoch, parent, reply),
        other => misfit(p, other),
    }
}

/// The path of the parent was read.
fn after_parent_path(
    p: &mut Reloader,
    name: Dotted,
    epoch: u64,
    parent: ModRef,
    input: In,
) -> Result<Want, NoMemory>
    ensures goes { IfOk result (ReloadGoes (does_at p.old name (await.ParentPath epoch parent) input) p.new) }
{
    match input {
        In::Ended(flow) => on_parent_path(p, name, epoch, parent, flow),
        other => misfit(p, other),
    }
}

/// The search came to its end.
fn after_search(
    p: &mut Reloader,
    name: Dotted,
    epoch: u64,
    path: Items,
    input: In,
) -> Result<Want, NoMemory>
    ensures goes { IfOk result (ReloadGoes (does_at p.old name (await.Searched epoch path) input) p.new) }
{
    match input {
        In::Found(answer) => discover(p, name, epoch, path, answer),
        other => misfit(p, other),
    }
}

/// The file was opened.
fn after_file(
    p: &mut Reloader,
    name: Dotted,
    epoch: u64,
    spec: Spec,
    input: In,
) -> Result<Want, NoMemory>
    ensures goes { IfOk result (ReloadGoes (does_at p.old name (await.File epoch spec) input) p.new) }
{
    match input {
        In::Opened(text) => opened(p, name, epoch, spec, text),
        other => {
            drop(spec);
            misfit(p, other)
        }
    }
}

/// The lock was asked for.
fn after_take(
    p: &mut Reloader,
    name: Dotted,
    epoch: u64,
    finding: Finding,
    input: In,
) -> Result<Want, NoMemory>
    ensures goes { IfOk result (ReloadGoes (does_at p.old name (await.Took epoch finding) input) p.new) }
{
    match input {
        In::Replied(reply) => took(p, name, epoch, finding, reply),
        other => {
            drop(finding);
            misfit(p, other)
        }
    }
}

/// The lock that was waited for is free.
fn after_wait(
    p: &mut Reloader,
    name: Dotted,
    epoch: u64,
    finding: Finding,
    input: In,
) -> Result<Want, NoMemory>
    ensures goes { IfOk result (ReloadGoes (does_at p.old name (await.Waits epoch finding) input) p.new) }
{
    match input {
        In::Woken => take(p, name, epoch, finding),
        other => {
            drop(finding);
            misfit(p, other)
        }
    }
}

/// More was paid than any budget has, since no turn was left.
fn after_payment(p: &mut Reloader, name: Dotted, input: In) -> Result<Want, NoMemory>
    ensures goes { IfOk result (ReloadGoes (does_at p.old name await.Spent input) p.new) }
{
    match input {
        In::Paid => Ok(stop(p, name, Fault::NotInProfile)),
        other => misfit(p, other),
    }
}

/// The body has ended.
fn after_body(p: &mut Reloader, name: Dotted, load: u32, input: In) -> Result<Want, NoMemory>
    ensures goes { IfOk result (ReloadGoes (does_at p.old name (await.Running load) input) p.new) }
{
    match input {
        In::Ended(flow) => Ok(end(p, name, load, flow)),
        other => misfit(p, other),
    }
}

/// The state of the namespace is kept.
fn after_keep(p: &mut Reloader, name: Dotted, load: u32, input: In) -> Result<Want, NoMemory>
    ensures goes { IfOk result (ReloadGoes (does_at p.old name (await.SpaceKept load) input) p.new) }
{
    match input {
        In::Replied(reply) => {
            drop(reply);
            Ok(end(p, name, load, Flow::Went(Value::Nothing)))
        }
        other => misfit(p, other),
    }
}

/// The reload is ended, after its body ended so.
fn after_end(p: &mut Reloader, name: Dotted, flow: Flow, input: In) -> Result<Want, NoMemory>
    ensures goes { IfOk result (ReloadGoes (does_at p.old name (await.Ended flow) input) p.new) }
{
    match input {
        In::Replied(reply) => ended(p, name, flow, reply),
        other => {
            drop(flow);
            misfit(p, other)
        }
    }
}

/// The reload was ended, and an error is raised.
fn after_stop(p: &mut Reloader, name: Dotted, fault: Fault, input: In) -> Result<Want, NoMemory>
    ensures goes { IfOk result (ReloadGoes (does_at p.old name (await.Stopped fault) input) p.new) }
{
    drop(name);
    match input {
        In::Replied(reply) => {
            drop(reply);
            fail(p, fault)
        }
        other => {
            drop(fault);
            misfit(p, other)
        }
    }
}

/// The reload was ended, and the leave goes on.
fn after_leave(p: &mut Reloader, name: Dotted, flow: Flow, input: In) -> Result<Want, NoMemory>
    ensures goes { IfOk result (ReloadGoes (does_at p.old name (await.Left flow) input) p.new) }
{
    drop(name);
    match input {
        In::Replied(reply) => {
            drop(reply);
            Ok(Want::End(flow))
        }
        other => {
            drop(flow);
            misfit(p, other)
        }
    }
}

/// The reload goes on by what it is fed.
fn go_on(p: &mut Reloader, name: Dotted, awaited: Awaited, input: In) -> Result<Want, NoMemory>
    ensures goes { IfOk result (ReloadGoes (does_at p.old name awaited input) p.new) }
{
    match awaited {
        Awaited::Asked => after_ask(p, name, input),
        Awaited::Roused => after_rouse(p, name, input),
        Awaited::AskedRaw => after_raw_ask(p, name, input),
        Awaited::SearchPath(epoch) => after_search_path(p, name, epoch, input),
        Awaited::ParentEntry { epoch, parent } => after_entry(p, name, epoch, parent, input),
        Awaited::ParentPath { epoch, parent } => after_parent_path(p, name, epoch, parent, input),
        Awaited::Searched { epoch, path } => after_search(p, name, epoch, path, input),
        Awaited::File { epoch, spec } => after_file(p, name, epoch, spec, input),
        Awaited::Took { epoch, finding } => after_take(p, name, epoch, finding, input),
        Awaited::Waits { epoch, finding } => after_wait(p, name, epoch, finding, input),
        Awaited::Spent => after_payment(p, name, input),
        Awaited::Running(load) => after_body(p, name, load, input),
        Awaited::SpaceKept(load) => after_keep(p, name, load, input),
        Awaited::Ended(flow) => after_end(p, name, flow, input),
        Awaited::Stopped(fault) => after_stop(p, name, fault, input),
        Awaited::Left(flow) => after_leave(p, name, flow, input),
    }
}

/// What a reload wants next, by its stage.
fn step(p: &mut Reloader, input: In) -> Result<Want, NoMemory>
    ensures goes { IfOk result (ReloadGoes (λ inside. means inside p.old input) p.new) }
{
    match std::mem::replace(&mut p.stage, ReloadStage::Over) {
        ReloadStage::Begins => begin(p, input),
        ReloadStage::Awaits(name, awaited) => go_on(p, name, awaited, input),
        ReloadStage::Over => misfit(p, input),
    }
}

/// What a reload wants next, by what it is fed. An input that its stage does not wait for raises ProfileError. Where memory is wanting it is over: no input fits any more.
pub fn next(p: &mut Reloader, input: In) -> Result<Want, NoMemory>
    ensures goes { IfOk result (ReloadGoes (λ inside. means inside p.old input) p.new) }
    ensures over { OnErr result (p.new.stage ≡ stages.Over) }
{
    match step(p, input) {
        Ok(want) => Ok(want),
        Err(_) => Err(close(p)),
    }
}
