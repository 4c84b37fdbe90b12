//! Ask, Take and Wake.
ghost use Rattle.std.specs.Prelude.{◌≡◌, IfOk, OnOk, OnErr, None, IsTrue, slice_get};
ghost use Rattle.module_lock.specs.Table.{can_wake};
ghost use Rattle.machine_spec.specs.Waits.{ask, ask_object, take_name, wake};
ghost use Rattle.std.specs.FinMap as maps;

use crate::{take_or, wait_or};
use base_types::{Exact, NoMemory};
use machine_events::{Reply, Slot};
use machine_spec::State;
use module_table::Phase;
use py_value::ModRef;
use spec_core::Dotted;

// A module that is initialising is waited for, unless the thread owns its lock.
fn meet(machine: &mut State, thread: u32, module: ModRef) -> Result<Reply, NoMemory>
    ensures reply { IfOk result (λ reply. reply ≡ (ask_object machine.old thread «module»
        (slice_get machine.old.table.objects «module».mid)).0) }
    ensures ok { OnOk result (machine.new ≡ (ask_object machine.old thread «module»
        (slice_get machine.old.table.objects «module».mid)).1) }
    ensures err { OnErr result (machine.new ≡ machine.old) }
{
    let Some(object) = machine.table.object(module.mid()) else {
        return Ok(Reply::Module(module));
    };
    if object.phase != Phase::Initialising || machine.locks.owns(thread, object.spec.name()) {
        return Ok(Reply::Module(module));
    }
    let own = object.spec.name().copy()?;
    wait_or(&mut machine.locks, thread, own, Reply::Cycle(module))
}

/// Ask: who is answered a module, and who waits. An `Err` changes nothing.
pub fn ask(machine: &mut State, thread: u32, name: Dotted) -> Result<Reply, NoMemory>
    ensures reply { IfOk result (λ reply. reply ≡ (ask machine.old thread name).0) }
    ensures ok { OnOk result (machine.new ≡ (ask machine.old thread name).1) }
    ensures err { OnErr result (machine.new ≡ machine.old) }
{
    match machine.table.entry(&name) {
        Some(Slot::Halted) => Ok(Reply::Halted),
        Some(Slot::Module(module)) => {
            let module = module.copy()?;
            meet(machine, thread, module)
        }
        _ => {
            if machine.locks.is_free(thread, &name) {
                return Ok(Reply::Missing);
            }
            wait_or(&mut machine.locks, thread, name, Reply::Deadlock)
        }
    }
}

/// Take: as Ask, but a name that is missing becomes the thread's to load. An `Err` changes nothing.
pub fn take(machine: &mut State, thread: u32, name: Dotted) -> Result<Reply, NoMemory>
    requires { maps.get machine.old.locks.waits thread ≡ None }
    ensures reply { IfOk result (λ reply. reply ≡ (take_name machine.old thread name).0) }
    ensures ok { OnOk result (machine.new ≡ (take_name machine.old thread name).1) }
    ensures err { OnErr result (machine.new ≡ machine.old) }
{
    match machine.table.entry(&name) {
        Some(Slot::Halted) => Ok(Reply::Halted),
        Some(Slot::Module(module)) => {
            let module = module.copy()?;
            meet(machine, thread, module)
        }
        _ => {
            let mine = Reply::Mine(machine.table.epoch());
            take_or(&mut machine.locks, thread, name, mine)
        }
    }
}

/// Wake: the thread stops waiting for a lock that no other thread owns.
pub fn wake(machine: &mut State, thread: u32) -> Reply
    requires { IsTrue (can_wake machine.old.locks thread) }
    ensures reply { result ≡ (wake machine.old thread).0 }
    ensures after { machine.new ≡ (wake machine.old thread).1 }
{
    machine.locks.wake(thread);
    Reply::Woken
}
