//! What Add and Finish would be answered.
ghost use Rattle.std.specs.Prelude.{◌≡◌, ℕ, IfOk, length};
ghost use Rattle.spec_core.specs.Names.{parent_of};
ghost use Rattle.machine_spec.specs.Bodies.{bind_parent, good_entry, finish};
ghost use Rattle.std.specs.FinMap as maps;
ghost use Rattle.machine_events.specs.declared.event.Reply.TheVariants as replies;

use crate::bodies::entry_copy;
use base_types::NoMemory;
use machine_events::{Reply, Slot};
use machine_spec::State;
use module_table::LoadKind;
use spec_core::Dotted;

/// The numbers of the next load and the next object.
pub fn add_reply(machine: &State) -> Result<Reply, NoMemory>
    ensures { IfOk result (λ reply. reply ≡ replies.Load (length machine.now.table.loads)
        (length machine.now.table.objects)) }
{
    let Ok(load) = u32::try_from(machine.table.loads()) else {
        return Err(NoMemory);
    };
    let Ok(mid) = u32::try_from(machine.table.objects()) else {
        return Err(NoMemory);
    };
    Ok(Reply::Load(load, mid))
}

fn bind_reply(machine: &State, name: &Dotted, entry: Slot) -> Result<Reply, NoMemory>
    ensures { IfOk result (λ reply. reply ≡ (bind_parent machine.now name.now entry (parent_of name.now)).0) }
{
    let Some(parent) = name.parent() else {
        return Ok(Reply::Kept(entry));
    };
    let parent = parent.own()?;
    match machine.table.entry(&parent) {
        None => Ok(Reply::LostParent),
        Some(_) => Ok(Reply::Kept(entry)),
    }
}

fn good_reply(machine: &State, kind: LoadKind, name: &Dotted) -> Result<Reply, NoMemory>
    ensures { IfOk result (λ reply. reply ≡ (good_entry machine.now kind name.now
        (maps.get machine.now.table.cache name.now)).0) }
{
    let entry = entry_copy(machine, name)?;
    match kind {
        LoadKind::Plain => match entry {
            None => Ok(Reply::Lost),
            Some(slot) => bind_reply(machine, name, slot),
        },
        _ => match entry {
            None => Ok(Reply::Kept(Slot::Absent)),
            Some(slot) => Ok(Reply::Kept(slot)),
        },
    }
}

/// What Finish would be answered.
pub fn finish_reply(machine: &State, load: u32, good: bool) -> Result<Reply, NoMemory>
    ensures { (thread : ℕ) → IfOk result (λ reply. reply ≡ (finish machine.now thread load good).0) }
{
    let Some(body) = machine.table.find_load(load) else {
        return Ok(Reply::Done);
    };
    let Some(object) = machine.table.object(body.mid) else {
        return Ok(Reply::Done);
    };
    if good {
        return good_reply(machine, body.kind, object.spec.name());
    }
    Ok(Reply::Kept(Slot::Absent))
}
