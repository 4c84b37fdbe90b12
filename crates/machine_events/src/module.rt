//! What a name leads to.
ghost use Rattle.std.specs.Prelude.{◌≡◌, IfOk};
ghost use Rattle.machine_events.specs.Modules.{place_of, module_of};
ghost use Rattle.machine_events.specs.Loads.{is_same_load};

use base_types::{Exact, NoMemory};
use py_value::{ModRef, Place};
use spec_core::{Spec, SpecKind};

/// What the cache has at a name, as `sys.modules` does: nothing, the entry `None`, or a module.
#[derive(Drop)]
pub enum Slot {
    Absent,
    Halted,
    Module(ModRef),
}

const _: () = prove!(size_of::<Slot>() == 16);

fn place_of(kind: &SpecKind) -> Result<Place, NoMemory>
    ensures { IfOk result (λ place. place ≡ place_of kind.now) }
{
    match kind {
        SpecKind::Builtin => Ok(Place::BuiltIn),
        SpecKind::Source { file } => Ok(Place::File(file.copy()?)),
        SpecKind::Package { file, .. } => Ok(Place::File(file.copy()?)),
        SpecKind::Namespace { .. } => Ok(Place::Namespace),
    }
}

/// The module of a spec, under its number.
pub fn module_of(spec: &Spec, mid: u32) -> Result<ModRef, NoMemory>
    ensures { IfOk result (λ m. m ≡ module_of spec.now mid) }
{
    ModRef::of(mid, spec.name().owned()?, place_of(spec.kind())?)
}

/// Whether neither of two loads has begun, or both are the load of the same number.
pub fn is_same_load(left: Option<u32>, right: Option<u32>) -> bool
    ensures { result ≡ is_same_load left right }
{
    match left {
        None => right.is_none(),
        Some(left) => match right {
            None => false,
            Some(right) => left == right,
        },
    }
}
