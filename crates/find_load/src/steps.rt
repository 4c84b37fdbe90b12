//! What an import wants next.
ghost use Rattle.std.specs.Prelude.{◌≡◌, IfOk, OnErr};
ghost use Rattle.find_load.specs.Means.{Goes, means};
ghost use Rattle.find_load.specs.UnderWay.{does_at};
ghost use Rattle.find_load.specs.declared.import.Stage.TheVariants as stages;
ghost use Rattle.find_load.specs.declared.words.In.TheVariants as ins;

use crate::import::{Importer, Stage};
use crate::loads::{added, added_lazy, discover, ended, finish, finished, namespace_added, opened};
use crate::locates::{on_entry, on_parent_path, on_search_path};
use crate::looks::{ask, asked, take, taken};
use crate::raises::{fail, misfit};
use crate::waits::close;
use crate::words::{In, Want};
use base_types::{NoMemory, Seq, Texts};
use meaning_state::{Fault, Flow};
use py_value::Items;
use spec_core::{Dotted, Spec};

/// The import begins.
fn begin(p: &mut Importer, is_parent: bool, input: In) -> Result<Want, NoMemory>
    ensures goes { IfOk result (Goes (does_at p.old (stages.Begins is_parent) input) p.new) }
{
    match input {
        In::Start => ask(p, is_parent),
        other => misfit(p, other),
    }
}

/// The reply to a look into the cache.
fn after_ask(p: &mut Importer, is_parent: bool, input: In) -> Result<Want, NoMemory>
    ensures goes { IfOk result (Goes (does_at p.old (stages.Asked is_parent) input) p.new) }
{
    match input {
        In::Replied(reply) => asked(p, is_parent, reply),
        other => misfit(p, other),
    }
}

/// How the import of the parent ended. Its module is not needed: the cache has it.
fn parent_ended(p: &mut Importer, flow: Flow) -> Result<Want, NoMemory>
    ensures goes { IfOk result (Goes (does_at p.old stages.Parent (ins.Ended flow)) p.new) }
{
    match flow {
        Flow::Went(value) => {
            drop(value);
            take(p)
        }
        Flow::Left(leave) => Ok(Want::End(Flow::Left(leave))),
    }
}

/// The import of the parent has ended.
fn after_parent(p: &mut Importer, input: In) -> Result<Want, NoMemory>
    ensures goes { IfOk result (Goes (does_at p.old stages.Parent input) p.new) }
{
    match input {
        In::Ended(flow) => parent_ended(p, flow),
        other => misfit(p, other),
    }
}

/// The reply to a look into the cache with the lock.
fn after_take(p: &mut Importer, input: In) -> Result<Want, NoMemory>
    ensures goes { IfOk result (Goes (does_at p.old stages.Taken input) p.new) }
{
    match input {
        In::Replied(reply) => taken(p, reply),
        other => misfit(p, other),
    }
}

/// The lock that the import waited for is free.
fn after_wait(p: &mut Importer, input: In) -> Result<Want, NoMemory>
    ensures goes { IfOk result (Goes (does_at p.old stages.Waits input) p.new) }
{
    match input {
        In::Woken => ask(p, false),
        other => misfit(p, other),
    }
}

/// The search path was read.
fn after_search_path(p: &mut Importer, epoch: u64, input: In) -> Result<Want, NoMemory>
    ensures goes { IfOk result (Goes (does_at p.old (stages.SearchPath epoch) input) p.new) }
{
    match input {
        In::Replied(reply) => on_search_path(p, epoch, reply),
        other => misfit(p, other),
    }
}

/// The entry of the parent was read.
fn after_entry(p: &mut Importer, epoch: u64, parent: Dotted, input: In) -> Result<Want, NoMemory>
    ensures goes { IfOk result (Goes (does_at p.old (stages.ParentEntry epoch parent) input) p.new) }
{
    match input {
        In::Replied(reply) => on_entry(p, epoch, parent, reply),
        other => misfit(p, other),
    }
}

/// The path of the parent's module was read.
fn after_parent_path(
    p: &mut Importer,
    epoch: u64,
    parent: Dotted,
    input: In,
) -> Result<Want, NoMemory>
    ensures goes { IfOk result (Goes (does_at p.old (stages.ParentPath epoch parent) input) p.new) }
{
    match input {
        In::Ended(flow) => on_parent_path(p, epoch, parent, flow),
        other => misfit(p, other),
    }
}

/// The search came to its end.
fn after_search(p: &mut Importer, epoch: u64, path: Items, input: In) -> Result<Want, NoMemory>
    ensures goes { IfOk result (Goes (does_at p.old (stages.Searched epoch path) input) p.new) }
{
    match input {
        In::Found(answer) => discover(p, epoch, path, answer),
        other => misfit(p, other),
    }
}

/// The file was opened.
fn after_file(p: &mut Importer, spec: Spec, input: In) -> Result<Want, NoMemory>
    ensures goes { IfOk result (Goes (does_at p.old (stages.File spec) input) p.new) }
{
    match input {
        In::Opened(text) => opened(p, spec, text),
        other => misfit(p, other),
    }
}

/// The reply to the making of a module.
fn after_add(p: &mut Importer, text: Seq<u8>, input: In) -> Result<Want, NoMemory>
    ensures goes { IfOk result (Goes (does_at p.old (stages.Added text) input) p.new) }
{
    match input {
        In::Replied(reply) => added(p, text, reply),
        other => misfit(p, other),
    }
}

/// The reply to the making of a lazy module.
fn after_add_lazy(p: &mut Importer, input: In) -> Result<Want, NoMemory>
    ensures goes { IfOk result (Goes (does_at p.old stages.AddedLazy input) p.new) }
{
    match input {
        In::Replied(reply) => added_lazy(p, reply),
        other => misfit(p, other),
    }
}

/// The body has ended.
fn after_body(p: &mut Importer, load: u32, input: In) -> Result<Want, NoMemory>
    ensures goes { IfOk result (Goes (does_at p.old (stages.Running load) input) p.new) }
{
    match input {
        In::Ended(flow) => Ok(ended(p, load, flow)),
        other => misfit(p, other),
    }
}

/// The reply to the making of a namespace.
fn after_add_namespace(
    p: &mut Importer,
    epoch: u64,
    path: Items,
    portions: Texts,
    input: In,
) -> Result<Want, NoMemory>
    ensures goes { IfOk result (Goes (does_at p.old (stages.NamespaceAdded epoch path portions) input) p.new) }
{
    match input {
        In::Replied(reply) => namespace_added(p, epoch, path, portions, reply),
        other => misfit(p, other),
    }
}

/// The state of the namespace is kept.
fn after_keep(p: &mut Importer, load: u32, input: In) -> Result<Want, NoMemory>
    ensures goes { IfOk result (Goes (does_at p.old (stages.NamespaceKept load) input) p.new) }
{
    match input {
        In::Replied(reply) => {
            drop(reply);
            Ok(finish(p, load))
        }
        other => misfit(p, other),
    }
}

/// The reply to the end of a load.
fn after_finish(p: &mut Importer, input: In) -> Result<Want, NoMemory>
    ensures goes { IfOk result (Goes (does_at p.old stages.Finished input) p.new) }
{
    match input {
        In::Replied(reply) => finished(p, reply),
        other => misfit(p, other),
    }
}

/// The lock was given back.
fn after_release(p: &mut Importer, fault: Fault, input: In) -> Result<Want, NoMemory>
    ensures goes { IfOk result (Goes (does_at p.old (stages.Released fault) input) p.new) }
{
    match input {
        In::Replied(reply) => {
            drop(reply);
            fail(p, fault)
        }
        other => {
            drop(fault);
            misfit(p, other)
        }
    }
}

/// The lock or the load was given back for a leave.
fn after_leave(p: &mut Importer, flow: Flow, input: In) -> Result<Want, NoMemory>
    ensures goes { IfOk result (Goes (does_at p.old (stages.Left flow) input) p.new) }
{
    match input {
        In::Replied(reply) => {
            drop(reply);
            Ok(Want::End(flow))
        }
        other => {
            drop(flow);
            misfit(p, other)
        }
    }
}

/// What an import wants next, by its stage.
fn step(p: &mut Importer, input: In) -> Result<Want, NoMemory>
    ensures goes { IfOk result (Goes (λ inside. means inside p.old input) p.new) }
{
    match std::mem::replace(&mut p.stage, Stage::Over) {
        Stage::Begins(is_parent) => begin(p, is_parent, input),
        Stage::Asked(is_parent) => after_ask(p, is_parent, input),
        Stage::Parent => after_parent(p, input),
        Stage::Taken => after_take(p, input),
        Stage::Waits => after_wait(p, input),
        Stage::SearchPath(epoch) => after_search_path(p, epoch, input),
        Stage::ParentEntry { epoch, parent } => after_entry(p, epoch, parent, input),
        Stage::ParentPath { epoch, parent } => after_parent_path(p, epoch, parent, input),
        Stage::Searched { epoch, path } => after_search(p, epoch, path, input),
        Stage::File(spec) => after_file(p, spec, input),
        Stage::Added(text) => after_add(p, text, input),
        Stage::AddedLazy => after_add_lazy(p, input),
        Stage::Running(load) => after_body(p, load, input),
        Stage::NamespaceAdded {
            epoch,
            path,
            portions,
        } => after_add_namespace(p, epoch, path, portions, input),
        Stage::NamespaceKept(load) => after_keep(p, load, input),
        Stage::Finished => after_finish(p, input),
        Stage::Released(fault) => after_release(p, fault, input),
        Stage::Left(flow) => after_leave(p, flow, input),
        Stage::Over => misfit(p, input),
    }
}

/// What an import wants next, by what it is fed. An input that its stage does not wait for raises ProfileError. Where memory is wanting it is over: no input fits any more.
pub fn next(p: &mut Importer, input: In) -> Result<Want, NoMemory>
    ensures goes { IfOk result (Goes (λ inside. means inside p.old input) p.new) }
    ensures over { OnErr result (p.new.stage ≡ stages.Over) }
{
    match step(p, input) {
        Ok(want) => Ok(want),
        Err(_) => Err(close(p)),
    }
}
