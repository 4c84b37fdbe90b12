//! What the start of a module wants next.
ghost use Rattle.std.specs.Prelude.{◌≡◌, IfOk, OnErr};
ghost use Rattle.find_load.specs.declared.words.In.TheVariants as ins;
ghost use Rattle.run_module.specs.Means.{Goes, means};
ghost use Rattle.run_module.specs.UnderWay.{does_at};
ghost use Rattle.run_module.specs.declared.start.Stage.TheVariants as stages;

use crate::finds::{discover, opened, run_body};
use crate::locates::{begin, locate, on_entry, on_parent_path, on_search_path};
use crate::raises::misfit;
use crate::start::{ModuleStart, Stage};
use crate::waits::close;
use base_types::{NoMemory, Seq};
use find_load::{In, Want};
use meaning_state::Flow;
use spec_core::{Dotted, Spec};

/// It begins.
fn after_start(p: &mut ModuleStart, input: In) -> Result<Want, NoMemory>
    ensures goes { IfOk result (Goes (does_at p.old stages.Begins input) p.new) }
{
    match input {
        In::Start => begin(p),
        other => misfit(p, other),
    }
}

/// How the import of the parent ended. Its module is not needed: the cache has it.
fn parent_ended(p: &mut ModuleStart, flow: Flow) -> Result<Want, NoMemory>
    ensures goes { IfOk result (Goes (does_at p.old stages.Parent (ins.Ended flow)) p.new) }
{
    match flow {
        Flow::Went(value) => {
            drop(value);
            locate(p)
        }
        Flow::Left(leave) => Ok(Want::End(Flow::Left(leave))),
    }
}

/// The import of the parent has ended.
fn after_parent(p: &mut ModuleStart, input: In) -> Result<Want, NoMemory>
    ensures goes { IfOk result (Goes (does_at p.old stages.Parent input) p.new) }
{
    match input {
        In::Ended(flow) => parent_ended(p, flow),
        other => misfit(p, other),
    }
}

/// The search path was read.
fn after_search_path(p: &mut ModuleStart, input: In) -> Result<Want, NoMemory>
    ensures goes { IfOk result (Goes (does_at p.old stages.SearchPath input) p.new) }
{
    match input {
        In::Replied(reply) => on_search_path(p, reply),
        other => misfit(p, other),
    }
}

/// The entry of the parent was read.
fn after_entry(p: &mut ModuleStart, parent: Dotted, input: In) -> Result<Want, NoMemory>
    ensures goes { IfOk result (Goes (does_at p.old (stages.ParentEntry parent) input) p.new) }
{
    match input {
        In::Replied(reply) => on_entry(p, parent, reply),
        other => misfit(p, other),
    }
}

/// The path of the parent's module was read.
fn after_parent_path(p: &mut ModuleStart, parent: Dotted, input: In) -> Result<Want, NoMemory>
    ensures goes { IfOk result (Goes (does_at p.old (stages.ParentPath parent) input) p.new) }
{
    match input {
        In::Ended(flow) => on_parent_path(p, parent, flow),
        other => misfit(p, other),
    }
}

/// The search came to its end.
fn after_search(p: &mut ModuleStart, input: In) -> Result<Want, NoMemory>
    ensures goes { IfOk result (Goes (does_at p.old stages.Searched input) p.new) }
{
    match input {
        In::Found(answer) => discover(p, answer),
        other => misfit(p, other),
    }
}

/// The file was opened.
fn after_file(p: &mut ModuleStart, spec: Spec, input: In) -> Result<Want, NoMemory>
    ensures goes { IfOk result (Goes (does_at p.old (stages.File spec) input) p.new) }
{
    match input {
        In::Opened(text) => opened(p, spec, text),
        other => {
            drop(spec);
            misfit(p, other)
        }
    }
}

/// The thread's own module has the file and its text.
fn after_main(p: &mut ModuleStart, text: Seq<u8>, input: In) -> Result<Want, NoMemory>
    ensures goes { IfOk result (Goes (does_at p.old (stages.Main text) input) p.new) }
{
    match input {
        In::Replied(reply) => {
            drop(reply);
            run_body(p, text)
        }
        other => misfit(p, other),
    }
}

/// The body has ended, and with it the program.
fn after_body(p: &mut ModuleStart, input: In) -> Result<Want, NoMemory>
    ensures goes { IfOk result (Goes (does_at p.old stages.Running input) p.new) }
{
    match input {
        In::Ended(flow) => Ok(Want::End(flow)),
        other => misfit(p, other),
    }
}

/// What the start of a module wants next, by its stage.
fn step(p: &mut ModuleStart, input: In) -> Result<Want, NoMemory>
    ensures goes { IfOk result (Goes (λ inside. means inside p.old input) p.new) }
{
    match std::mem::replace(&mut p.stage, Stage::Over) {
        Stage::Begins => after_start(p, input),
        Stage::Parent => after_parent(p, input),
        Stage::SearchPath => after_search_path(p, input),
        Stage::ParentEntry(parent) => after_entry(p, parent, input),
        Stage::ParentPath(parent) => after_parent_path(p, parent, input),
        Stage::Searched => after_search(p, input),
        Stage::File(spec) => after_file(p, spec, input),
        Stage::Main(text) => after_main(p, text, input),
        Stage::Running => after_body(p, input),
        Stage::Over => misfit(p, input),
    }
}

/// What the start of a module wants next, by what it is fed. An input that its stage does not wait for
/// raises ProfileError. Where memory is wanting it is over: no input fits any more.
pub fn next(p: &mut ModuleStart, input: In) -> Result<Want, NoMemory>
    ensures goes { IfOk result (Goes (λ inside. means inside p.old input) p.new) }
    ensures over { OnErr result (p.new.stage ≡ stages.Over) }
{
    match step(p, input) {
        Ok(want) => Ok(want),
        Err(_) => Err(close(p)),
    }
}
