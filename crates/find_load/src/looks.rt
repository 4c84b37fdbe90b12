//! The looks into the cache, with the parent's import between them.
ghost use Rattle.std.specs.Prelude.{◌<◌, IfOk};
ghost use Rattle.machine_events.specs.declared.event.Event.TheVariants as ev;
ghost use Rattle.meaning_runs.specs.Runs.{Makes};
ghost use Rattle.meaning_script.specs.Imports.{answers, asks, halts, met, misses, takes};
ghost use Rattle.find_load.specs.Means.{Goes};
ghost use Rattle.find_load.specs.UnderWay.{again, does_at, within};
ghost use Rattle.find_load.specs.declared.import.Stage.TheVariants as stages;
ghost use Rattle.find_load.specs.declared.words.In.TheVariants as ins;

use crate::import::{Importer, Stage, most};
use crate::locates::locate;
use crate::raises::{deadlock, halted, misfit_reply, parent_of};
use crate::waits::wait_for;
use crate::words::Want;
use base_types::{Exact, NoMemory};
use machine_events::{Event, Reply};
use meaning_state::Flow;
use py_value::{ModRef, Value};

/// No turn is left: more is to be paid than any budget has.
fn overspend(p: &mut Importer, is_parent: bool) -> Want
    ensures goes { Goes (λ inside. asks (within p.old inside) 0 is_parent p.old.name) p.new result }
{
    let payment = Want::Pay {
        of_tree: false,
        units: most(),
    };
    wait_for(p, Stage::Begins(is_parent), payment)
}

/// A turn is taken: a look into the cache.
fn look(p: &mut Importer, is_parent: bool) -> Result<Want, NoMemory>
    requires { 0 < p.old.turns }
    ensures goes { IfOk result (Goes (λ inside. asks (within p.old inside) p.old.turns is_parent p.old.name) p.new) }
{
    let look = Want::Call(Event::Ask(p.name.copy()?));
    p.turns -= 1;
    Ok(wait_for(p, Stage::Asked(is_parent), look))
}

/// The next turn; whether it is the first of a parent.
pub(crate) fn ask(p: &mut Importer, is_parent: bool) -> Result<Want, NoMemory>
    ensures goes { IfOk result (Goes (λ inside. asks (within p.old inside) p.old.turns is_parent p.old.name) p.new) }
{
    if p.turns == 0 {
        return Ok(overspend(p, is_parent));
    }
    look(p, is_parent)
}

/// The import is answered by the module that the cache has.
pub(crate) fn answer(p: &mut Importer, module: ModRef) -> Want
    ensures goes { Goes (λ inside. answers «module») p.new result }
{
    Want::End(Flow::Went(Value::Module(module)))
}

/// The lock is waited for, and then the next turn is taken.
fn wait(p: &mut Importer) -> Want
    ensures goes { Goes (λ inside s k. Makes ev.Wake (λ _. again p.old inside s k)) p.new result }
{
    wait_for(p, Stage::Waits, Want::Wait)
}

/// What any look into the cache leads to where the name is in it or is locked.
fn meet(p: &mut Importer, reply: Reply) -> Result<Want, NoMemory>
    ensures goes { IfOk result (Goes (λ inside. met (again p.old inside) p.old.name reply) p.new) }
{
    match reply {
        Reply::Module(module) => Ok(answer(p, module)),
        Reply::Cycle(module) => Ok(answer(p, module)),
        Reply::Halted => halted(p),
        Reply::Deadlock => deadlock(p),
        Reply::Wait(_) => Ok(wait(p)),
        other => misfit_reply(p, other),
    }
}

/// The entry is `None`: the import of a parent tells nothing of that.
fn halt(p: &mut Importer, is_parent: bool) -> Result<Want, NoMemory>
    ensures goes { IfOk result (Goes (λ inside. halts is_parent p.old.name) p.new) }
{
    if is_parent {
        return Ok(Want::End(Flow::Went(Value::Nothing)));
    }
    halted(p)
}

/// The lock is asked for.
pub(crate) fn take(p: &mut Importer) -> Result<Want, NoMemory>
    ensures goes { IfOk result (Goes (λ inside. takes (within p.old inside) (again p.old inside) p.old.name) p.new) }
{
    let take = Want::Call(Event::Take(p.name.copy()?));
    Ok(wait_for(p, Stage::Taken, take))
}

/// The name is not in the cache: its parent is imported, before its own lock is asked for.
fn miss(p: &mut Importer) -> Result<Want, NoMemory>
    ensures goes { IfOk result (Goes (λ inside. misses (within p.old inside) (again p.old inside) p.old.name) p.new) }
{
    match parent_of(&p.name)? {
        Some(parent) => Ok(wait_for(p, Stage::Parent, Want::Import(parent))),
        None => take(p),
    }
}

/// What a look into the cache leads to.
pub(crate) fn asked(p: &mut Importer, is_parent: bool, reply: Reply) -> Result<Want, NoMemory>
    ensures goes { IfOk result (Goes (does_at p.old (stages.Asked is_parent) (ins.Replied reply)) p.new) }
{
    match reply {
        Reply::Missing => miss(p),
        Reply::Halted => halt(p, is_parent),
        other => meet(p, other),
    }
}

/// What a look into the cache with the lock leads to.
pub(crate) fn taken(p: &mut Importer, reply: Reply) -> Result<Want, NoMemory>
    ensures goes { IfOk result (Goes (does_at p.old stages.Taken (ins.Replied reply)) p.new) }
{
    match reply {
        Reply::Mine(epoch) => locate(p, epoch),
        other => meet(p, other),
    }
}
