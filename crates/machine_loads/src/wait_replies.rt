//! What Ask and Take would be answered.
ghost use Rattle.std.specs.Prelude.{◌≡◌, IfOk, slice_get};
ghost use Rattle.machine_spec.specs.Waits.{wait_reply, ask, ask_object, take_name};

use crate::wait_reply;
use base_types::{Exact, NoMemory};
use machine_events::{Reply, Slot};
use machine_spec::State;
use module_table::Phase;
use py_value::ModRef;
use spec_core::Dotted;

fn meet_reply(machine: &State, thread: u32, module: ModRef) -> Result<Reply, NoMemory>
    ensures { IfOk result (λ reply. reply ≡ (ask_object machine.now thread «module»
        (slice_get machine.now.table.objects «module».mid)).0) }
{
    let Some(object) = machine.table.object(module.mid()) else {
        return Ok(Reply::Module(module));
    };
    if object.phase != Phase::Initialising || machine.locks.owns(thread, object.spec.name()) {
        return Ok(Reply::Module(module));
    }
    wait_reply(
        &machine.locks,
        thread,
        object.spec.name(),
        Reply::Cycle(module),
    )
}

/// What Ask would be answered.
pub fn ask_reply(machine: &State, thread: u32, name: &Dotted) -> Result<Reply, NoMemory>
    ensures { IfOk result (λ reply. reply ≡ (ask machine.now thread name.now).0) }
{
    match machine.table.entry(name) {
        Some(Slot::Halted) => Ok(Reply::Halted),
        Some(Slot::Module(module)) => {
            let module = module.copy()?;
            meet_reply(machine, thread, module)
        }
        _ => {
            if machine.locks.is_free(thread, name) {
                return Ok(Reply::Missing);
            }
            wait_reply(&machine.locks, thread, name, Reply::Deadlock)
        }
    }
}

/// What Take would be answered.
pub fn take_reply(machine: &State, thread: u32, name: &Dotted) -> Result<Reply, NoMemory>
    ensures { IfOk result (λ reply. reply ≡ (take_name machine.now thread name.now).0) }
{
    match machine.table.entry(name) {
        Some(Slot::Halted) => Ok(Reply::Halted),
        Some(Slot::Module(module)) => {
            let module = module.copy()?;
            meet_reply(machine, thread, module)
        }
        _ => {
            if machine.locks.is_free(thread, name) {
                return Ok(Reply::Mine(machine.table.epoch()));
            }
            wait_reply(&machine.locks, thread, name, Reply::Deadlock)
        }
    }
}
