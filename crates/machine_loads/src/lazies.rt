//! AddLazy and Rouse.
ghost use Rattle.std.specs.Prelude.{◌≡◌, IfOk, OnOk, OnErr, None, IsTrue, slice_get};
ghost use Rattle.module_lock.specs.Table.{is_free};
ghost use Rattle.machine_spec.specs.Lazies.{add_lazy, open_lazy, rouse_lazy, rouse};
ghost use Rattle.std.specs.FinMap as maps;

use crate::wait_or;
use base_types::{Exact, NoMemory, Seq};
use machine_events::{Reply, module_of};
use machine_spec::State;
use module_table::{LoadKind, LoadStage, Phase};
use spec_core::{Dotted, Spec};

/// AddLazy: a module is made whose body runs at the first use. An `Err` changes nothing.
pub fn add_lazy(
    machine: &mut State,
    thread: u32,
    spec: Spec,
    text: Seq<u8>,
) -> Result<Reply, NoMemory>
    ensures reply { IfOk result (λ reply. reply ≡ (add_lazy machine.old thread spec text).0) }
    ensures ok { OnOk result (machine.new ≡ (add_lazy machine.old thread spec text).1) }
    ensures err { OnErr result (machine.new ≡ machine.old) }
{
    let Ok(mid) = u32::try_from(machine.table.objects()) else {
        return Err(NoMemory);
    };
    let module = module_of(&spec, mid)?;
    let name = spec.name().copy()?;
    let _numbers = machine.table.add_unit(
        spec,
        Phase::Lazy,
        LoadKind::Lazy,
        thread,
        text,
        LoadStage::Resting,
    )?;
    machine.locks.give(thread, &name);
    Ok(Reply::Module(module))
}

// The resting load is the thread's, and its module is initialising.
fn open_lazy(
    machine: &mut State,
    thread: u32,
    mid: u32,
    name: Dotted,
    load: u32,
) -> Result<Reply, NoMemory>
    requires waits { maps.get machine.old.locks.waits thread ≡ None }
    requires free { IsTrue (is_free machine.old.locks thread name) }
    ensures reply { IfOk result (λ reply. reply ≡ (open_lazy machine.old thread mid name load
        (slice_get machine.old.table.loads load)).0) }
    ensures ok { OnOk result (machine.new ≡ (open_lazy machine.old thread mid name load
        (slice_get machine.old.table.loads load)).1) }
    ensures err { OnErr result (machine.new ≡ machine.old) }
{
    let Some(body) = machine.table.find_load(load) else {
        return Ok(Reply::Ready);
    };
    let text = body.text.copy()?;
    machine.locks.take_free(thread, name)?;
    machine.table.open_load(load, thread);
    machine.table.set_phase(mid, Phase::Initialising);
    Ok(Reply::Yours(load, text))
}

fn rouse_lazy(
    machine: &mut State,
    thread: u32,
    mid: u32,
    name: Dotted,
    load: Option<u32>,
) -> Result<Reply, NoMemory>
    requires { maps.get machine.old.locks.waits thread ≡ None }
    ensures reply { IfOk result (λ reply. reply ≡ (rouse_lazy machine.old thread mid name load).0) }
    ensures ok { OnOk result (machine.new ≡ (rouse_lazy machine.old thread mid name load).1) }
    ensures err { OnErr result (machine.new ≡ machine.old) }
{
    let Some(load) = load else {
        return Ok(Reply::Ready);
    };
    if !machine.locks.is_free(thread, &name) {
        return wait_or(&mut machine.locks, thread, name, Reply::Deadlock);
    }
    open_lazy(machine, thread, mid, name, load)
}

/// Rouse: a lazy module is to run its body. An `Err` changes nothing.
pub fn rouse(machine: &mut State, thread: u32, mid: u32) -> Result<Reply, NoMemory>
    requires { maps.get machine.old.locks.waits thread ≡ None }
    ensures reply { IfOk result (λ reply. reply ≡ (rouse machine.old thread mid).0) }
    ensures ok { OnOk result (machine.new ≡ (rouse machine.old thread mid).1) }
    ensures err { OnErr result (machine.new ≡ machine.old) }
{
    let Some(object) = machine.table.object(mid) else {
        return Ok(Reply::Ready);
    };
    match object.phase {
        Phase::Ready => Ok(Reply::Ready),
        Phase::Initialising => {
            if machine.locks.owns(thread, object.spec.name()) {
                return Ok(Reply::Ready);
            }
            let own = object.spec.name().copy()?;
            let module = module_of(&object.spec, mid)?;
            wait_or(&mut machine.locks, thread, own, Reply::Cycle(module))
        }
        Phase::Lazy => {
            let load = object.load;
            let name = object.spec.name().copy()?;
            rouse_lazy(machine, thread, mid, name, load)
        }
    }
}
