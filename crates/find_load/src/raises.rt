//! How an import ends by an error, with what it holds given back.
ghost use Rattle.std.specs.Prelude.{◌≡◌, IfOk};
ghost use Rattle.meaning_state.specs.declared.flow.Flow.TheVariants as flows;
ghost use Rattle.meaning_state.specs.declared.fault.Fault.TheVariants as faults;
ghost use Rattle.spec_core.specs.Names.{parent_of};
ghost use Rattle.meaning_script.specs.Pieces.{fails};
ghost use Rattle.meaning_script.specs.Imports as spec;
ghost use Rattle.meaning_script.specs.Imports.{gives_back, gives_back_and};
ghost use Rattle.find_load.specs.Means.{Goes};

use crate::import::{Importer, Stage};
use crate::waits::wait_for;
use crate::words::{In, Want};
use base_types::{Exact, NoMemory};
use machine_events::{Event, Reply};
use meaning_state::{Fault, Flow, Leave, raised};
use spec_core::Dotted;

/// An error is raised.
pub(crate) fn fail(p: &mut Importer, fault: Fault) -> Result<Want, NoMemory>
    ensures goes { IfOk result (Goes (λ inside. fails fault) p.new) }
{
    let error = raised(p.name.alloc(), fault)?;
    Ok(Want::End(Flow::Left(Leave::Raised(error))))
}

/// The input is none that the stage waits for.
pub(crate) fn misfit(p: &mut Importer, input: In) -> Result<Want, NoMemory>
    ensures goes { IfOk result (Goes (λ inside. fails faults.NotInProfile) p.new) }
{
    drop(input);
    fail(p, Fault::NotInProfile)
}

/// The reply is none that the event can have.
pub(crate) fn misfit_reply(p: &mut Importer, reply: Reply) -> Result<Want, NoMemory>
    ensures goes { IfOk result (Goes (λ inside. fails faults.NotInProfile) p.new) }
{
    drop(reply);
    fail(p, Fault::NotInProfile)
}

/// The entry of the name in the cache is `None`.
pub(crate) fn halted(p: &mut Importer) -> Result<Want, NoMemory>
    ensures goes { IfOk result (Goes (λ inside. fails (faults.Halted p.old.name)) p.new) }
{
    let name = p.name.owned()?;
    fail(p, Fault::Halted(name))
}

/// Waiting for the lock would close a cycle.
pub(crate) fn deadlock(p: &mut Importer) -> Result<Want, NoMemory>
    ensures goes { IfOk result (Goes (λ inside. fails (faults.Deadlock p.old.name)) p.new) }
{
    let name = p.name.owned()?;
    fail(p, Fault::Deadlock(name))
}

/// The entry of the name was dropped while its body ran.
pub(crate) fn lost(p: &mut Importer) -> Result<Want, NoMemory>
    ensures goes { IfOk result (Goes (λ inside. fails (faults.Lost p.old.name)) p.new) }
{
    let name = p.name.owned()?;
    fail(p, Fault::Lost(name))
}

/// The parent of a name, if it has one.
pub fn parent_of(name: &Dotted) -> Result<Option<Dotted>, NoMemory>
    ensures { IfOk result (λ it. it ≡ parent_of name.now) }
{
    match name.parent() {
        Some(parent) => {
            let own = parent.own()?;
            Ok(Some(own))
        }
        None => Ok(None),
    }
}

/// The entry of the name's parent was dropped while its body ran.
pub(crate) fn lost_parent(p: &mut Importer) -> Result<Want, NoMemory>
    ensures goes { IfOk result (Goes (λ inside. spec.lost_parent p.old.name (parent_of p.old.name)) p.new) }
{
    match parent_of(&p.name)? {
        Some(parent) => {
            let name = parent.owned()?;
            fail(p, Fault::Lost(name))
        }
        None => fail(p, Fault::NotInProfile),
    }
}

/// The lock is given back, and then an error is raised.
pub(crate) fn give_back(p: &mut Importer, fault: Fault) -> Result<Want, NoMemory>
    ensures goes { IfOk result (Goes (λ inside. gives_back p.old.name fault) p.new) }
{
    let release = Want::Call(Event::Release(p.name.copy()?));
    Ok(wait_for(p, Stage::Released(fault), release))
}

/// The lock is given back, since the reply is none that the event can have.
pub(crate) fn give_back_misfit(p: &mut Importer, reply: Reply) -> Result<Want, NoMemory>
    ensures goes { IfOk result (Goes (λ inside. gives_back p.old.name faults.NotInProfile) p.new) }
{
    drop(reply);
    give_back(p, Fault::NotInProfile)
}

/// The lock is given back, since no module was found.
pub(crate) fn give_back_not_found(p: &mut Importer) -> Result<Want, NoMemory>
    ensures goes { IfOk result (Goes (λ inside. gives_back p.old.name (faults.NotFound p.old.name)) p.new) }
{
    let name = p.name.owned()?;
    give_back(p, Fault::NotFound(name))
}

/// The lock is given back, since the parent is no package.
pub(crate) fn give_back_not_package(p: &mut Importer, parent: Dotted) -> Result<Want, NoMemory>
    ensures goes { IfOk result (Goes (λ inside. gives_back p.old.name (faults.NotPackage p.old.name parent)) p.new) }
{
    let name = p.name.owned()?;
    let parent = parent.owned()?;
    give_back(p, Fault::NotPackage { name, parent })
}

/// The lock is given back, since the entry of the parent is gone.
pub(crate) fn give_back_lost(p: &mut Importer, parent: Dotted) -> Result<Want, NoMemory>
    ensures goes { IfOk result (Goes (λ inside. gives_back p.old.name (faults.Lost parent)) p.new) }
{
    let parent = parent.owned()?;
    give_back(p, Fault::Lost(parent))
}

/// The lock is given back, and then the leave goes on.
pub(crate) fn give_back_and(p: &mut Importer, leave: Leave) -> Result<Want, NoMemory>
    ensures goes { IfOk result (Goes (λ inside. gives_back_and p.old.name (flows.Left leave)) p.new) }
{
    let release = Want::Call(Event::Release(p.name.copy()?));
    Ok(wait_for(p, Stage::Left(Flow::Left(leave)), release))
}
