//! What the reading of a path wants next.
ghost use Rattle.std.specs.Prelude.{◌≡◌, IfOk, OnErr};
ghost use Rattle.spec_core.specs.Names.{parent_of};
ghost use Rattle.machine_events.specs.declared.event.Reply.TheVariants as replies;
ghost use Rattle.find_load.specs.declared.words.In.TheVariants as ins;
ghost use Rattle.meaning_state.specs.declared.fault.Fault.TheVariants as faults;
ghost use Rattle.meaning_state.specs.declared.flow.Flow.TheVariants as flows;
ghost use Rattle.meaning_script.specs.Pieces.{fails};
ghost use Rattle.meaning_script.specs.Paths as spec;
ghost use Rattle.meaning_script.specs.Paths.{has_path, has_none, has_portions};
ghost use Rattle.step_package_path.specs.Means.{Goes, means, reads_raw, space};
ghost use Rattle.step_package_path.specs.UnderWay.{below_entry, below_name, below_path, does_at, searched_below};
ghost use Rattle.step_package_path.specs.declared.reader.Stage.TheVariants as stages;

use crate::reader::{Namespace, PathReader, Stage};
use base_types::{Exact, NoMemory, Seq, Text, Texts};
use find_load::{In, Want, most, parent_of};
use machine_events::{Event, Reply, Slot};
use meaning_state::{Fault, Flow, Leave, raised};
use namespace_path::{fresh, recomputed};
use path_finder::Found;
use py_value::{Items, NsState, Value};
use spec_core::Dotted;

/// An error is raised.
fn fail(p: &mut PathReader, fault: Fault) -> Result<Want, NoMemory>
    ensures goes { IfOk result (Goes (λ inside. fails fault) p.new) }
{
    let error = raised(p.module.name().alloc(), fault)?;
    Ok(Want::End(Flow::Left(Leave::Raised(error))))
}

/// The input is none that the stage waits for.
fn misfit(p: &mut PathReader, input: In) -> Result<Want, NoMemory>
    ensures goes { IfOk result (Goes (λ inside. fails faults.NotInProfile) p.new) }
{
    drop(input);
    fail(p, Fault::NotInProfile)
}

/// The reply is none that the event can have.
fn misfit_reply(p: &mut PathReader, reply: Reply) -> Result<Want, NoMemory>
    ensures goes { IfOk result (Goes (λ inside. fails faults.NotInProfile) p.new) }
{
    drop(reply);
    fail(p, Fault::NotInProfile)
}

/// The path that these entries are.
fn has_path(p: &mut PathReader, items: Items) -> Want
    ensures goes { Goes (λ inside. has_path items) p.new result }
{
    let _ = p;
    Want::End(Flow::Went(Value::List(items)))
}

/// The module has no path: whether it is initialising stands in its place.
fn has_none(p: &mut PathReader, is_initialising: bool) -> Want
    ensures goes { Goes (λ inside. has_none is_initialising) p.new result }
{
    let _ = p;
    Want::End(Flow::Went(Value::Bool(is_initialising)))
}

/// The texts as values.
fn texts_of(texts: &Texts) -> Result<Items, NoMemory>
    ensures { IfOk result (λ items. items ≡ spec.texts_of texts.now) }
{
    let mut items = Seq::new(texts.alloc());
    for text in texts.as_slice() {
        let kept = text.copy()?;
        items.push(Value::Text(kept))?;
    }
    Ok(items)
}

/// The path of a namespace with this state: its portions.
fn has_portions(p: &mut PathReader, state: &NsState) -> Result<Want, NoMemory>
    ensures goes { IfOk result (Goes (λ inside. has_portions state.now) p.new) }
{
    let items = texts_of(state.portions())?;
    Ok(has_path(p, items))
}

/// The module's `__path__` is read, where another module may stand above.
fn read(p: &mut PathReader) -> Result<Want, NoMemory>
    ensures goes { IfOk result (Goes (does_at p.old stages.Begins ins.Start) p.new) }
{
    if p.turns == 0 {
        p.stage = Stage::Begins;
        return Ok(Want::Pay {
            of_tree: false,
            units: most(),
        });
    }
    let name = Text::from_str(p.module.name().alloc(), "__path__")?;
    p.turns -= 1;
    p.stage = Stage::Read;
    Ok(Want::Call(Event::GetVar {
        mid: p.module.mid(),
        name,
        raw: false,
    }))
}

/// The state of the namespace is read.
fn read_state(p: &mut PathReader) -> Want
    ensures goes { Goes (does_at p.old stages.Replaces ins.Start) p.new result }
{
    p.stage = Stage::StateRead;
    Want::Call(Event::NsGet(p.module.mid()))
}

/// The path that a module's `__path__` is.
fn path_at(p: &mut PathReader, value: Value) -> Result<Want, NoMemory>
    ensures goes { IfOk result (Goes (does_at p.old stages.ReadRaw (ins.Replied (replies.Value value))) p.new) }
{
    match value {
        Value::List(items) => Ok(has_path(p, items)),
        Value::Tuple(items) => Ok(has_path(p, items)),
        Value::NsPath => Ok(read_state(p)),
        other => {
            drop(other);
            fail(p, Fault::NotInProfile)
        }
    }
}

/// What the read of a module's `__path__` leads to.
fn path_read(p: &mut PathReader, reply: Reply) -> Result<Want, NoMemory>
    ensures goes { IfOk result (Goes (does_at p.old stages.ReadRaw (ins.Replied reply)) p.new) }
{
    match reply {
        Reply::Value(value) => path_at(p, value),
        Reply::Unset(is_initialising) => Ok(has_none(p, is_initialising)),
        other => misfit_reply(p, other),
    }
}

/// The module is lazy, and is loaded first.
#[tactic(auto, using(crate::proofs::Roused::rouses))]
fn rouse(p: &mut PathReader) -> Result<Want, NoMemory>
    ensures goes { IfOk result (Goes (does_at p.old stages.Read (ins.Replied replies.Sleeping)) p.new) }
{
    let module = p.module.copy()?;
    p.stage = Stage::Roused;
    Ok(Want::Rouse(module))
}

/// What the read of a module's `__path__` leads to where the module may be lazy.
fn path_came(p: &mut PathReader, reply: Reply) -> Result<Want, NoMemory>
    ensures goes { IfOk result (Goes (does_at p.old stages.Read (ins.Replied reply)) p.new) }
{
    match reply {
        Reply::Sleeping => rouse(p),
        other => path_read(p, other),
    }
}

/// The `__path__` of the lazy module is read once that is loaded.
fn read_raw(p: &mut PathReader) -> Result<Want, NoMemory>
    ensures goes { IfOk result (Goes (λ inside. reads_raw inside p.old.turns p.old.module) p.new) }
{
    let name = Text::from_str(p.module.name().alloc(), "__path__")?;
    p.stage = Stage::ReadRaw;
    Ok(Want::Call(Event::GetVar {
        mid: p.module.mid(),
        name,
        raw: true,
    }))
}

/// The first use of the lazy module has ended.
fn roused(p: &mut PathReader, flow: Flow) -> Result<Want, NoMemory>
    ensures goes { IfOk result (Goes (does_at p.old stages.Roused (ins.Ended flow)) p.new) }
{
    match flow {
        Flow::Went(_) => read_raw(p),
        Flow::Left(leave) => Ok(Want::End(Flow::Left(leave))),
    }
}

/// The state of a namespace is kept, and then its portions are the path.
fn keep(p: &mut PathReader, state: NsState) -> Result<Want, NoMemory>
    ensures goes { IfOk result (Goes (λ inside. spec.keeps_state (space p.old.module) state) p.new) }
{
    let kept = state.copy()?;
    let mid = p.module.mid();
    p.stage = Stage::Kept(kept);
    Ok(Want::Call(Event::NsSet { mid, state }))
}

/// The portions are searched again, on this parent path.
fn compute_again(p: &mut PathReader, namespace: Namespace, above: Items) -> Result<Want, NoMemory>
    ensures goes { IfOk result (Goes (searched_below p.old namespace above) p.new) }
{
    let path = above.copy()?;
    let Namespace { name, state, epoch } = namespace;
    p.stage = Stage::Searched { state, epoch, path };
    Ok(Want::Find { name, path: above })
}

/// The path of a namespace below this parent path.
fn below(p: &mut PathReader, namespace: Namespace, above: Items) -> Result<Want, NoMemory>
    ensures goes { IfOk result (Goes (below_path p.old namespace above) p.new) }
{
    if fresh(&namespace.state, &above, namespace.epoch) {
        has_portions(p, &namespace.state)
    } else {
        compute_again(p, namespace, above)
    }
}

/// The path of a namespace below what the path of the module above is.
fn below_value(p: &mut PathReader, namespace: Namespace, value: Value) -> Result<Want, NoMemory>
    ensures goes { IfOk result (Goes (does_at p.old (stages.Above namespace) (ins.Ended (flows.Went value))) p.new) }
{
    match value {
        Value::List(above) => below(p, namespace, above),
        other => {
            drop(other);
            has_portions(p, &namespace.state)
        }
    }
}

/// The path of a namespace without a dot in its name.
fn below_top(p: &mut PathReader, namespace: Namespace, reply: Reply) -> Result<Want, NoMemory>
    ensures goes { IfOk result (Goes (does_at p.old (stages.AtTop namespace) (ins.Replied reply)) p.new) }
{
    match reply {
        Reply::Path(above) => below(p, namespace, above),
        other => {
            drop(namespace);
            misfit_reply(p, other)
        }
    }
}

/// The path of a namespace whose parent has this entry.
#[tactic(auto, using(crate::proofs::Above::above))]
fn below_slot(p: &mut PathReader, namespace: Namespace, slot: Slot) -> Result<Want, NoMemory>
    ensures goes { IfOk result (Goes (below_entry p.old namespace slot) p.new) }
{
    match slot {
        Slot::Module(module) => {
            let turns = p.turns;
            p.stage = Stage::Above(namespace);
            Ok(Want::Path { module, turns })
        }
        Slot::Halted => has_portions(p, &namespace.state),
        Slot::Absent => has_portions(p, &namespace.state),
    }
}

/// What the read of the parent's entry leads to.
fn below_entry(p: &mut PathReader, namespace: Namespace, reply: Reply) -> Result<Want, NoMemory>
    ensures goes { IfOk result (Goes (does_at p.old (stages.AtEntry namespace) (ins.Replied reply)) p.new) }
{
    match reply {
        Reply::Slot(slot) => below_slot(p, namespace, slot),
        other => {
            drop(namespace);
            misfit_reply(p, other)
        }
    }
}

/// What stands above the namespace is read: the search path, or the entry of its parent.
fn below_parent(p: &mut PathReader, namespace: Namespace) -> Result<Want, NoMemory>
    ensures goes { IfOk result (Goes (below_name p.old namespace (parent_of namespace.name)) p.new) }
{
    match parent_of(&namespace.name)? {
        None => {
            p.stage = Stage::AtTop(namespace);
            Ok(Want::Call(Event::PathGet))
        }
        Some(parent) => {
            p.stage = Stage::AtEntry(namespace);
            Ok(Want::Call(Event::TabGet(parent)))
        }
    }
}

/// What the state of the namespace leads to.
fn with_state(p: &mut PathReader, state: NsState, epoch: u64) -> Result<Want, NoMemory>
    ensures goes { IfOk result (Goes (does_at p.old stages.StateRead (ins.Replied (replies.Ns state epoch))) p.new) }
{
    match Dotted::read(p.module.name())? {
        None => {
            drop(state);
            fail(p, Fault::NotInProfile)
        }
        Some(name) => below_parent(p, Namespace { name, state, epoch }),
    }
}

/// What the read of the namespace's state leads to.
fn has_state(p: &mut PathReader, reply: Reply) -> Result<Want, NoMemory>
    ensures goes { IfOk result (Goes (does_at p.old stages.StateRead (ins.Replied reply)) p.new) }
{
    match reply {
        Reply::Ns(state, epoch) => with_state(p, state, epoch),
        other => misfit_reply(p, other),
    }
}

/// What a search makes of the state.
fn searched(
    p: &mut PathReader,
    state: NsState,
    epoch: u64,
    path: Items,
    answer: Option<Found>,
) -> Result<Want, NoMemory>
    ensures goes { IfOk result (Goes (does_at p.old (stages.Searched state epoch path) (ins.Found answer)) p.new) }
{
    let state = recomputed(&state, &path, epoch, &answer)?;
    keep(p, state)
}

/// The path of the module above has ended.
fn above(p: &mut PathReader, namespace: Namespace, flow: Flow) -> Result<Want, NoMemory>
    ensures goes { IfOk result (Goes (does_at p.old (stages.Above namespace) (ins.Ended flow)) p.new) }
{
    match flow {
        Flow::Went(value) => below_value(p, namespace, value),
        Flow::Left(leave) => {
            drop(namespace);
            Ok(Want::End(Flow::Left(leave)))
        }
    }
}

/// The reading begins.
fn begin(p: &mut PathReader, input: In) -> Result<Want, NoMemory>
    ensures goes { IfOk result (Goes (does_at p.old stages.Begins input) p.new) }
{
    match input {
        In::Start => read(p),
        other => misfit(p, other),
    }
}

/// The module's `__path__` was read.
fn after_read(p: &mut PathReader, input: In) -> Result<Want, NoMemory>
    ensures goes { IfOk result (Goes (does_at p.old stages.Read input) p.new) }
{
    match input {
        In::Replied(reply) => path_came(p, reply),
        other => misfit(p, other),
    }
}

/// The lazy module is loaded.
fn after_rouse(p: &mut PathReader, input: In) -> Result<Want, NoMemory>
    ensures goes { IfOk result (Goes (does_at p.old stages.Roused input) p.new) }
{
    match input {
        In::Ended(flow) => roused(p, flow),
        other => misfit(p, other),
    }
}

/// The `__path__` of the lazy module was read.
fn after_raw_read(p: &mut PathReader, input: In) -> Result<Want, NoMemory>
    ensures goes { IfOk result (Goes (does_at p.old stages.ReadRaw input) p.new) }
{
    match input {
        In::Replied(reply) => path_read(p, reply),
        other => misfit(p, other),
    }
}

/// The reading begins where the path is known to be that of a namespace.
fn replace(p: &mut PathReader, input: In) -> Result<Want, NoMemory>
    ensures goes { IfOk result (Goes (does_at p.old stages.Replaces input) p.new) }
{
    match input {
        In::Start => Ok(read_state(p)),
        other => misfit(p, other),
    }
}

/// The state of the namespace was read.
fn after_state(p: &mut PathReader, input: In) -> Result<Want, NoMemory>
    ensures goes { IfOk result (Goes (does_at p.old stages.StateRead input) p.new) }
{
    match input {
        In::Replied(reply) => has_state(p, reply),
        other => misfit(p, other),
    }
}

/// The search path was read.
fn after_path(p: &mut PathReader, namespace: Namespace, input: In) -> Result<Want, NoMemory>
    ensures goes { IfOk result (Goes (does_at p.old (stages.AtTop namespace) input) p.new) }
{
    match input {
        In::Replied(reply) => below_top(p, namespace, reply),
        other => {
            drop(namespace);
            misfit(p, other)
        }
    }
}

/// The entry of the parent was read.
fn after_entry(p: &mut PathReader, namespace: Namespace, input: In) -> Result<Want, NoMemory>
    ensures goes { IfOk result (Goes (does_at p.old (stages.AtEntry namespace) input) p.new) }
{
    match input {
        In::Replied(reply) => below_entry(p, namespace, reply),
        other => {
            drop(namespace);
            misfit(p, other)
        }
    }
}

/// The path of the module above was read.
fn after_above(p: &mut PathReader, namespace: Namespace, input: In) -> Result<Want, NoMemory>
    ensures goes { IfOk result (Goes (does_at p.old (stages.Above namespace) input) p.new) }
{
    match input {
        In::Ended(flow) => above(p, namespace, flow),
        other => {
            drop(namespace);
            misfit(p, other)
        }
    }
}

/// The search has ended.
fn after_search(
    p: &mut PathReader,
    state: NsState,
    epoch: u64,
    path: Items,
    input: In,
) -> Result<Want, NoMemory>
    ensures goes { IfOk result (Goes (does_at p.old (stages.Searched state epoch path) input) p.new) }
{
    match input {
        In::Found(answer) => searched(p, state, epoch, path, answer),
        other => {
            drop(state);
            drop(path);
            misfit(p, other)
        }
    }
}

/// The state of the namespace is kept.
fn after_keep(p: &mut PathReader, state: NsState, input: In) -> Result<Want, NoMemory>
    ensures goes { IfOk result (Goes (does_at p.old (stages.Kept state) input) p.new) }
{
    match input {
        In::Replied(reply) => {
            drop(reply);
            has_portions(p, &state)
        }
        other => {
            drop(state);
            misfit(p, other)
        }
    }
}

/// What the reading of a path wants next, by its stage.
fn step(p: &mut PathReader, input: In) -> Result<Want, NoMemory>
    ensures goes { IfOk result (Goes (λ inside. means inside p.old input) p.new) }
{
    let stage = std::mem::replace(&mut p.stage, Stage::Over);
    match stage {
        Stage::Begins => begin(p, input),
        Stage::Read => after_read(p, input),
        Stage::Roused => after_rouse(p, input),
        Stage::ReadRaw => after_raw_read(p, input),
        Stage::Replaces => replace(p, input),
        Stage::StateRead => after_state(p, input),
        Stage::AtTop(namespace) => after_path(p, namespace, input),
        Stage::AtEntry(namespace) => after_entry(p, namespace, input),
        Stage::Above(namespace) => after_above(p, namespace, input),
        Stage::Searched { state, epoch, path } => after_search(p, state, epoch, path, input),
        Stage::Kept(state) => after_keep(p, state, input),
        Stage::Over => misfit(p, input),
    }
}

/// Memory was wanting: nothing is waited for any more, so that no input fits.
fn close(p: &mut PathReader) -> NoMemory
    ensures { p.new.stage ≡ stages.Over }
{
    let before = std::mem::replace(&mut p.stage, Stage::Over);
    drop(before);
    NoMemory
}

/// What the reading of a path wants next, by what it is fed. An input that its stage does not wait for
/// raises ProfileError. Where memory is wanting it is over: no input fits any more.
pub fn next(p: &mut PathReader, input: In) -> Result<Want, NoMemory>
    ensures goes { IfOk result (Goes (λ inside. means inside p.old input) p.new) }
    ensures over { OnErr result (p.new.stage ≡ stages.Over) }
{
    match step(p, input) {
        Ok(want) => Ok(want),
        Err(_) => Err(close(p)),
    }
}
