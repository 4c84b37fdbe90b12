//! The modules that a value names, and the loads of its functions.
ghost use Rattle.std.specs.Prelude.{◌≡◌, Some, map};
ghost use Rattle.std.specs.List.{list_all};
ghost use Rattle.machine_spec.specs.Known.{is_file, is_namespace, is_built_in_there, is_place_of, is_module_of, is_module, names_modules, slot_names_module};

use base_types::Text;
use machine_events::Slot;
use module_table::{Object, Table};
use py_value::{Items, ModRef, Place, Value};
use spec_core::SpecKind;

fn is_file(file: &Text, place: &Place) -> bool
    ensures { result ≡ is_file file.now place.now }
{
    match place {
        Place::File(other) => *file == *other,
        _ => false,
    }
}

fn is_namespace(place: &Place) -> bool
    ensures { result ≡ is_namespace place.now }
{
    match place {
        Place::Namespace => true,
        _ => false,
    }
}

fn is_built_in_there(place: &Place) -> bool
    ensures { result ≡ is_built_in_there place.now }
{
    match place {
        Place::BuiltIn => true,
        _ => false,
    }
}

fn is_place_of(kind: &SpecKind, place: &Place) -> bool
    ensures { result ≡ is_place_of kind.now place.now }
{
    match kind {
        SpecKind::Builtin => is_built_in_there(place),
        SpecKind::Source { file } => is_file(file, place),
        SpecKind::Package { file, .. } => is_file(file, place),
        SpecKind::Namespace { .. } => is_namespace(place),
    }
}

fn is_module_of(module: &ModRef, object: &Object) -> bool
    ensures { result ≡ is_module_of «module».now (Some object.now) }
{
    object.spec.name().text() == module.name().as_str()
        && is_place_of(object.spec.kind(), module.place())
}

/// Whether the module exists, with the name and the place that the spec of its object gives.
fn is_module(table: &Table, module: &ModRef) -> bool
    ensures { result ≡ is_module table.now «module».now }
{
    match table.object(module.mid()) {
        None => false,
        Some(object) => is_module_of(module, object),
    }
}

/// Whether each module in the value is one of the table's, and the load of each function in it exists.
#[cycle(names)]
pub(crate) fn names_modules(table: &Table, value: &Value) -> bool
    ensures { result ≡ names_modules table.now value.now }
{
    match value {
        Value::Module(module) => is_module(table, module),
        Value::Func { load, .. } => (*load as u64) < table.loads(),
        Value::List(items) => all_name_modules(table, items),
        Value::Tuple(items) => all_name_modules(table, items),
        _ => true,
    }
}

/// The same for each of several values.
#[cycle(names)]
pub(crate) fn all_name_modules(table: &Table, items: &Items) -> bool
    ensures { result ≡ list_all (λ b. b) (map (names_modules table.now) items.now) }
{
    let mut all = true;
    for value in items.as_slice() {
        all = all && names_modules(table, value);
    }
    all
}

/// The same for an entry of the cache.
pub(crate) fn slot_names_module(table: &Table, slot: &Slot) -> bool
    ensures { result ≡ slot_names_module table.now slot.now }
{
    match slot {
        Slot::Module(module) => is_module(table, module),
        _ => true,
    }
}
