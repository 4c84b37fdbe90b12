//! The state before the first event.
ghost use Rattle.std.specs.Prelude.{◌≡◌, ◌++◌, replicate, IfOk, OnOk, []};
ghost use Rattle.spec_core.specs.Known.{known_text};
ghost use Rattle.machine_spec.specs.Opening.{script_vars, script_object, script_load, script_objects, script_loads, built_in, sys_module, importlib_module, pyimport_module, with_cached, with_built_ins, round_starts, opening};
ghost use Rattle.module_table.specs.Vars.{with_var};

use base_types::{Exact, NoMemory, Seq, Text, Texts};
use machine_events::{Slot, module_of};
use machine_spec::State;
use module_lock::Locks;
use module_table::{Load, LoadKind, LoadStage, Object, Phase, Table, Vars, text_values};
use py_value::{Native, Value};
use spec_core::{Dotted, KnownName, PathMap, Spec, SpecKind};
use std::alloc::Global;

fn set(alloc: Global, vars: &mut Vars, name: &str, value: Value) -> Result<(), NoMemory>
    ensures { OnOk result (vars.new ≡ with_var vars.old name.now value) }
{
    vars.set(Text::from_str(alloc, name)?, value)
}

fn script_vars(alloc: Global, script: &Text) -> Result<Vars, NoMemory>
    ensures { IfOk result (λ vars. vars ≡ script_vars script.now) }
{
    let mut vars = Vars::new(alloc);
    let name = Value::Text(Text::from_str(alloc, "__main__")?);
    set(alloc, &mut vars, "__name__", name)?;
    set(alloc, &mut vars, "__package__", Value::Nothing)?;
    let file = Value::Text(script.copy()?);
    set(alloc, &mut vars, "__file__", file)?;
    Ok(vars)
}

fn script_object(alloc: Global, number: u32, script: &Text) -> Result<Object, NoMemory>
    ensures { IfOk result (λ object. object ≡ script_object number script.now) }
{
    let vars = script_vars(alloc, script)?;
    let name = Dotted::known(alloc, KnownName::Main)?;
    let file = script.copy()?;
    Ok(Object {
        spec: Spec::of(name, SpecKind::Source { file })?,
        phase: Phase::Ready,
        vars,
        ns: None,
        load: Some(number),
    })
}

fn add_scripts(table: &mut Table, scripts: &Texts) -> Result<(), NoMemory>
    ensures { OnOk result (table.new ≡ record table.old {
      objects = table.old.objects ++ script_objects 0 scripts.now;
    }) }
{
    let alloc = table.alloc();
    let mut number: u32 = 0;
    for script in scripts.as_slice() {
        let object = script_object(alloc, number, script)?;
        let _mid = table.add_object(object)?;
        let Some(next) = number.checked_add(1) else {
            return Err(NoMemory);
        };
        number = next;
    }
    Ok(())
}

fn script_load(number: u32, text: &Seq<u8>) -> Result<Load, NoMemory>
    ensures { IfOk result (λ load. load ≡ script_load number text.now) }
{
    Ok(Load {
        kind: LoadKind::Main,
        thread: number,
        mid: number,
        text: text.copy()?,
        stage: LoadStage::Open,
    })
}

fn add_bodies(table: &mut Table, texts: &Seq<Seq<u8>>) -> Result<(), NoMemory>
    ensures { OnOk result (table.new ≡ record table.old { loads = table.old.loads ++ script_loads 0 texts.now }) }
{
    let mut number: u32 = 0;
    for text in texts.as_slice() {
        let load = script_load(number, text)?;
        let _load = table.add_load(load)?;
        let Some(next) = number.checked_add(1) else {
            return Err(NoMemory);
        };
        number = next;
    }
    Ok(())
}

// A built-in module with the one variable `__name__`.
fn built_in(alloc: Global, name: KnownName) -> Result<Object, NoMemory>
    ensures { IfOk result (λ object. object ≡ built_in (known_text name) []) }
{
    let name = Dotted::known(alloc, name)?;
    let mut vars = Vars::new(alloc);
    let text = Value::Text(name.owned()?);
    set(alloc, &mut vars, "__name__", text)?;
    Ok(Object {
        spec: Spec::of(name, SpecKind::Builtin)?,
        phase: Phase::Ready,
        vars,
        ns: None,
        load: None,
    })
}

fn sys_module(alloc: Global) -> Result<Object, NoMemory>
    ensures { IfOk result (λ object. object ≡ sys_module) }
{
    let mut object = built_in(alloc, KnownName::Sys)?;
    set(alloc, &mut object.vars, "modules", Value::SysModules)?;
    set(alloc, &mut object.vars, "path", Value::SysPath)?;
    Ok(object)
}

fn importlib_module(alloc: Global) -> Result<Object, NoMemory>
    ensures { IfOk result (λ object. object ≡ importlib_module) }
{
    let mut object = built_in(alloc, KnownName::Importlib)?;
    let invalidate = Value::Native(Native::InvalidateCaches);
    set(alloc, &mut object.vars, "invalidate_caches", invalidate)?;
    set(
        alloc,
        &mut object.vars,
        "reload",
        Value::Native(Native::Reload),
    )?;
    Ok(object)
}

fn pyimport_module(alloc: Global) -> Result<Object, NoMemory>
    ensures { IfOk result (λ object. object ≡ pyimport_module) }
{
    let mut object = built_in(alloc, KnownName::Pyimport)?;
    set(alloc, &mut object.vars, "lazy", Value::Native(Native::Lazy))?;
    Ok(object)
}

// Puts a module last, and into the cache.
fn add_cached(table: &mut Table, object: Object) -> Result<(), NoMemory>
    ensures { OnOk result (table.new ≡ with_cached table.old object) }
{
    let Ok(mid) = u32::try_from(table.objects()) else {
        return Err(NoMemory);
    };
    let name = object.spec.name().copy()?;
    let module = module_of(&object.spec, mid)?;
    let _mid = table.add_object(object)?;
    table.set_entry(&name, Slot::Module(module))
}

fn add_built_ins(table: &mut Table) -> Result<(), NoMemory>
    ensures { OnOk result (table.new ≡ with_built_ins table.old) }
{
    let alloc = table.alloc();
    add_cached(table, sys_module(alloc)?)?;
    add_cached(table, importlib_module(alloc)?)?;
    add_cached(table, pyimport_module(alloc)?)
}

// The number of the round's first thread, once for each of its threads.
fn push_round(starts: &mut Seq<u32>, first: u32, size: u32) -> Result<(), NoMemory>
    ensures { OnOk result (starts.new ≡ starts.old ++ replicate size first) }
{
    for _ in 0..size {
        starts.push(first)?;
    }
    Ok(())
}

fn round_starts(alloc: Global, sizes: &[u32]) -> Result<Seq<u32>, NoMemory>
    ensures { IfOk result (λ starts. starts ≡ round_starts 0 sizes.now) }
{
    let mut starts = Seq::new(alloc);
    let mut first: u32 = 0;
    for size in sizes {
        push_round(&mut starts, first, *size)?;
        let Some(next) = first.checked_add(*size) else {
            return Err(NoMemory);
        };
        first = next;
    }
    Ok(starts)
}

/// The state before the first event: the scripts with their texts, the search path, and the sizes
/// of the rounds.
pub fn open(
    scripts: &Texts,
    texts: &Seq<Seq<u8>>,
    path: &Texts,
    rounds: &[u32],
) -> Result<State, NoMemory>
    ensures { IfOk result (λ state. state ≡ opening scripts.now texts.now path.now rounds.now) }
{
    let alloc = path.alloc();
    let mut table = Table::new(text_values(alloc, path)?);
    add_scripts(&mut table, scripts)?;
    add_bodies(&mut table, texts)?;
    add_built_ins(&mut table)?;
    Ok(State {
        table,
        locks: Locks::new(alloc),
        listings: PathMap::new(alloc),
        rounds: round_starts(alloc, rounds)?,
    })
}
