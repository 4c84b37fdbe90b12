//! What was found is made a module, and its body runs.
ghost use Rattle.std.specs.Prelude.{IfOk};
ghost use Rattle.meaning_script.specs.Imports.{adds, adds_lazy, adds_namespace, has_text, loads, makes, namespace_made, reads_file};
ghost use Rattle.machine_events.specs.declared.event.Reply.TheVariants as replies;
ghost use Rattle.find_load.specs.Means.{Goes};
ghost use Rattle.find_load.specs.UnderWay.{again, does_at, within};
ghost use Rattle.find_load.specs.declared.import.Stage.TheVariants as stages;
ghost use Rattle.find_load.specs.declared.words.In.TheVariants as ins;

use crate::import::{Importer, Stage};
use crate::looks::{answer, ask};
use crate::raises::{
    give_back, give_back_misfit, give_back_not_found, lost, lost_parent, misfit_reply,
};
use crate::waits::wait_for;
use crate::words::Want;
use base_types::{Exact, NoMemory, Seq, Texts, TreePath};
use machine_events::{Event, Reply};
use meaning_state::{Fault, Flow};
use path_finder::{Found, path_of};
use py_value::{Items, NsState};
use spec_core::{Spec, SpecKind};

/// The file of the spec is to be read. A text that is no tree path names no file.
fn read_file(p: &mut Importer, spec: Spec, file: Option<TreePath>) -> Result<Want, NoMemory>
    ensures goes { IfOk result (Goes (λ inside. reads_file (within p.old inside)
        (again p.old inside) p.old.name spec file) p.new) }
{
    match file {
        Some(file) => {
            let file = Want::File(file);
            Ok(wait_for(p, Stage::File(spec), file))
        }
        None => give_back_not_found(p),
    }
}

/// A spec was found.
fn load(p: &mut Importer, found: Spec) -> Result<Want, NoMemory>
    ensures goes { IfOk result (Goes (λ inside. loads (within p.old inside)
        (again p.old inside) p.old.name found found.kind) p.new) }
{
    let file = match found.kind() {
        SpecKind::Source { file } => path_of(file)?,
        SpecKind::Package { file, .. } => path_of(file)?,
        _ => {
            drop(found);
            return give_back(p, Fault::NotInProfile);
        }
    };
    read_file(p, found, file)
}

/// A namespace is made of the portions that were found.
fn add_namespace(
    p: &mut Importer,
    epoch: u64,
    path: Items,
    portions: Texts,
) -> Result<Want, NoMemory>
    ensures goes { IfOk result (Goes (λ inside. adds_namespace
        (again p.old inside) p.old.name epoch path portions) p.new) }
{
    let name = p.name.copy()?;
    let text = Seq::new(name.alloc());
    let kind = SpecKind::Namespace {
        path: portions.copy()?,
    };
    let spec = Spec::of(name, kind)?;
    let stage = Stage::NamespaceAdded {
        epoch,
        path,
        portions,
    };
    Ok(wait_for(p, stage, Want::Call(Event::Add { spec, text })))
}

/// What the search came to, on this path.
pub(crate) fn discover(
    p: &mut Importer,
    epoch: u64,
    path: Items,
    answer: Option<Found>,
) -> Result<Want, NoMemory>
    ensures goes { IfOk result (Goes (does_at p.old (stages.Searched epoch path) (ins.Found answer)) p.new) }
{
    match answer {
        None => give_back_not_found(p),
        Some(Found::Spec(found)) => load(p, found),
        Some(Found::Portions(portions)) => add_namespace(p, epoch, path, portions),
    }
}

/// The module of a file is made.
fn add(p: &mut Importer, spec: Spec, text: Seq<u8>) -> Result<Want, NoMemory>
    ensures goes { IfOk result (Goes (λ inside. adds (within p.old inside)
        (again p.old inside) p.old.name spec text) p.new) }
{
    let stage = Stage::Added(text.copy()?);
    Ok(wait_for(p, stage, Want::Call(Event::Add { spec, text })))
}

/// A lazy module of a file is made: the machine alone keeps its text.
fn add_lazy(p: &mut Importer, spec: Spec, text: Seq<u8>) -> Want
    ensures goes { Goes (λ inside. adds_lazy p.old.name spec text) p.new result }
{
    let add = Want::Call(Event::AddLazy { spec, text });
    wait_for(p, Stage::AddedLazy, add)
}

/// The module of a file is made, whose body runs now, or at its first use.
fn make(p: &mut Importer, spec: Spec, text: Seq<u8>) -> Result<Want, NoMemory>
    ensures goes { IfOk result (Goes (λ inside. makes (within p.old inside)
        (again p.old inside) p.old.name spec text) p.new) }
{
    if p.is_lazy {
        return Ok(add_lazy(p, spec, text));
    }
    add(p, spec, text)
}

/// The text of a file was read, if it is not too long for a source.
fn has_text(p: &mut Importer, spec: Spec, text: Option<Seq<u8>>) -> Result<Want, NoMemory>
    ensures goes { IfOk result (Goes (λ inside. has_text (within p.old inside)
        (again p.old inside) p.old.name spec text) p.new) }
{
    match text {
        Some(text) => make(p, spec, text),
        None => give_back(p, Fault::TooLong),
    }
}

/// The file was opened, if one stands there.
pub(crate) fn opened(
    p: &mut Importer,
    spec: Spec,
    text: Option<Option<Seq<u8>>>,
) -> Result<Want, NoMemory>
    ensures goes { IfOk result (Goes (does_at p.old (stages.File spec) (ins.Opened text)) p.new) }
{
    match text {
        Some(text) => has_text(p, spec, text),
        None => give_back_not_found(p),
    }
}

/// The body of the module runs.
fn run_body(p: &mut Importer, mid: u32, load: u32, text: Seq<u8>) -> Result<Want, NoMemory>
    ensures goes { IfOk result (Goes (does_at p.old (stages.Added text) (ins.Replied (replies.Load load mid))) p.new) }
{
    let body = Want::Body {
        mid,
        load,
        name: p.name.owned()?,
        text,
    };
    Ok(wait_for(p, Stage::Running(load), body))
}

/// The module was made: its body runs.
pub(crate) fn added(p: &mut Importer, text: Seq<u8>, reply: Reply) -> Result<Want, NoMemory>
    ensures goes { IfOk result (Goes (does_at p.old (stages.Added text) (ins.Replied reply)) p.new) }
{
    match reply {
        Reply::Load(load, mid) => run_body(p, mid, load, text),
        other => give_back_misfit(p, other),
    }
}

/// The lazy module was made, and is the answer.
pub(crate) fn added_lazy(p: &mut Importer, reply: Reply) -> Result<Want, NoMemory>
    ensures goes { IfOk result (Goes (does_at p.old stages.AddedLazy (ins.Replied reply)) p.new) }
{
    match reply {
        Reply::Module(module) => Ok(answer(p, module)),
        other => misfit_reply(p, other),
    }
}

/// The namespace was made: the path that it was found on is kept.
pub(crate) fn namespace_added(
    p: &mut Importer,
    epoch: u64,
    path: Items,
    portions: Texts,
    reply: Reply,
) -> Result<Want, NoMemory>
    ensures goes { IfOk result (Goes (does_at p.old (stages.NamespaceAdded epoch path portions)
        (ins.Replied reply)) p.new) }
{
    match reply {
        Reply::Load(load, mid) => {
            let state = NsState::of(path, epoch, portions)?;
            let keep = Want::Call(Event::NsSet { mid, state });
            Ok(wait_for(p, Stage::NamespaceKept(load), keep))
        }
        other => give_back_misfit(p, other),
    }
}

/// The load ends well. A namespace's does without a body.
pub(crate) fn finish(p: &mut Importer, load: u32) -> Want
    ensures goes { Goes (λ inside. namespace_made (again p.old inside) p.old.name load) p.new result }
{
    let finish = Want::Call(Event::Finish { load, good: true });
    wait_for(p, Stage::Finished, finish)
}

/// The body of the module ended.
pub(crate) fn ended(p: &mut Importer, load: u32, flow: Flow) -> Want
    ensures goes { Goes (does_at p.old (stages.Running load) (ins.Ended flow)) p.new result }
{
    match flow {
        Flow::Went(value) => {
            drop(value);
            finish(p, load)
        }
        Flow::Left(leave) => {
            let finish = Want::Call(Event::Finish { load, good: false });
            wait_for(p, Stage::Left(Flow::Left(leave)), finish)
        }
    }
}

/// After a good body the entry is looked up again, unless it or its parent's is lost.
pub(crate) fn finished(p: &mut Importer, reply: Reply) -> Result<Want, NoMemory>
    ensures goes { IfOk result (Goes (does_at p.old stages.Finished (ins.Replied reply)) p.new) }
{
    match reply {
        Reply::Kept(_) => ask(p, false),
        Reply::Lost => lost(p),
        Reply::LostParent => lost_parent(p),
        other => misfit_reply(p, other),
    }
}
