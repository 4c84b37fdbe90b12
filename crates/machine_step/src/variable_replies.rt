//! What SetVar and DelVar would be answered.
ghost use Rattle.std.specs.Prelude.{◌≡◌, ℕ, List};
ghost use Rattle.py_value.specs.declared.value.Value.{Value};
ghost use Rattle.machine_spec.specs.Variables.{set_var, del_var};

use base_types::Text;
use machine_events::Reply;
use machine_loads::{is_built_in, sleeping};
use machine_spec::State;
use module_table::Phase;

/// What SetVar would be answered.
pub fn set_reply(machine: &State, thread: u32, mid: u32, raw: bool) -> Reply
    ensures { (x : List ℕ) (v : Value) → result ≡ (set_var machine.now thread mid x v raw).0 }
{
    let Some(object) = machine.table.object(mid) else {
        return Reply::Done;
    };
    if is_built_in(object.spec.kind()) {
        return Reply::Fixed;
    }
    if sleeping(machine, thread, raw, object) {
        return Reply::Sleeping;
    }
    Reply::Done
}

/// What DelVar would be answered.
pub fn del_reply(machine: &State, thread: u32, mid: u32, name: &Text, raw: bool) -> Reply
    ensures { result ≡ (del_var machine.now thread mid name.now raw).0 }
{
    let Some(object) = machine.table.object(mid) else {
        return Reply::Done;
    };
    if is_built_in(object.spec.kind()) {
        return Reply::Fixed;
    }
    if sleeping(machine, thread, raw, object) {
        return Reply::Sleeping;
    }
    if object.vars.get(name).is_none() {
        return Reply::Unset(object.phase == Phase::Initialising);
    }
    Reply::Done
}
