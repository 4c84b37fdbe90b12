//! Which modules are asleep for a thread, and which are built in.
ghost use Rattle.std.specs.Prelude.{◌≡◌};
ghost use Rattle.machine_spec.specs.Parts.{is_built_in};
ghost use Rattle.machine_spec.specs.Variables.{asleep, sleeping, runs_elsewhere, load_of};

use machine_spec::State;
use module_table::{LoadKind, LoadStage, Object, Phase};
use spec_core::SpecKind;

// Whether the load is an open lazy one of another thread.
fn runs_elsewhere(machine: &State, thread: u32, load: Option<u32>) -> bool
    ensures { result ≡ runs_elsewhere thread (load_of machine.now load) }
{
    let Some(load) = load else {
        return false;
    };
    match machine.table.find_load(load) {
        None => false,
        Some(load) => {
            load.kind == LoadKind::Lazy && load.stage == LoadStage::Open && load.thread != thread
        }
    }
}

fn asleep(machine: &State, thread: u32, object: &Object) -> bool
    ensures { result ≡ asleep machine.now thread object.now }
{
    match object.phase {
        Phase::Ready => false,
        Phase::Initialising => runs_elsewhere(machine, thread, object.load),
        Phase::Lazy => true,
    }
}

/// Whether a thread that does not look raw finds the module asleep: it is lazy, or it is initialising under
/// an open lazy load of another thread.
pub fn sleeping(machine: &State, thread: u32, raw: bool, object: &Object) -> bool
    ensures { result ≡ sleeping machine.now thread raw object.now }
{
    !raw && asleep(machine, thread, object)
}

/// Whether the module is one of the interpreter itself.
pub fn is_built_in(kind: &SpecKind) -> bool
    ensures { result ≡ is_built_in kind.now }
{
    match kind {
        SpecKind::Builtin => true,
        _ => false,
    }
}
