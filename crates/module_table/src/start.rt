ghost use Rattle.std.specs.Prelude.{◌≡◌, IfOk, OnOk, map};
ghost use Rattle.py_value.specs.declared.value.Value.TheVariants as values;
ghost use Rattle.module_table.specs.Tables.{with_file, main_vars};
ghost use Rattle.module_table.specs.Start.{start_vars, start_ns, kind_vars, restarted};

use crate::vars::Vars;
use base_types::{Exact, NoMemory, Seq, Text, Texts};
use py_value::{Items, NsState, Value};
use spec_core::{Spec, SpecKind, package_of};
use std::alloc::Global;

/// The texts as values.
pub fn text_values(alloc: Global, texts: &Texts) -> Result<Items, NoMemory>
    ensures { IfOk result (λ items. items ≡ map (λ text. values.Text text) texts.now) }
{
    let mut items = Seq::new(alloc);
    for text in texts.as_slice() {
        items.push(Value::Text(text.copy()?))?;
    }
    Ok(items)
}

fn kind_vars(alloc: Global, kind: &SpecKind, vars: &mut Vars) -> Result<(), NoMemory>
    ensures { OnOk result (vars.new ≡ kind_vars kind.now vars.old) }
{
    match kind {
        SpecKind::Builtin => {}
        SpecKind::Source { file } => {
            vars.set(
                Text::from_str(alloc, "__file__")?,
                Value::Text(file.copy()?),
            )?;
        }
        SpecKind::Package { file, path } => {
            vars.set(
                Text::from_str(alloc, "__path__")?,
                Value::List(text_values(alloc, path)?),
            )?;
            vars.set(
                Text::from_str(alloc, "__file__")?,
                Value::Text(file.copy()?),
            )?;
        }
        SpecKind::Namespace { .. } => {
            vars.set(Text::from_str(alloc, "__path__")?, Value::NsPath)?;
            vars.set(Text::from_str(alloc, "__file__")?, Value::Nothing)?;
        }
    }
    Ok(())
}

/// Sets the variables of a spec. After an `Err` some of them are set.
pub(crate) fn restart(alloc: Global, spec: &Spec, vars: &mut Vars) -> Result<(), NoMemory>
    ensures { OnOk result (vars.new ≡ restarted spec.now vars.old) }
{
    vars.set(
        Text::from_str(alloc, "__name__")?,
        Value::Text(spec.name().owned()?),
    )?;
    vars.set(
        Text::from_str(alloc, "__package__")?,
        Value::Text(Text::from_str(alloc, package_of(spec))?),
    )?;
    kind_vars(alloc, spec.kind(), vars)
}

/// The variables that a new module has.
pub fn start_vars(alloc: Global, spec: &Spec) -> Result<Vars, NoMemory>
    ensures { IfOk result (λ vars. vars ≡ start_vars spec.now) }
{
    let mut vars = Vars::new(alloc);
    restart(alloc, spec, &mut vars)?;
    Ok(vars)
}

/// What a module's variables are once those of the spec are set on them.
pub(crate) fn restarted_vars(alloc: Global, spec: &Spec, vars: &Vars) -> Result<Vars, NoMemory>
    ensures { IfOk result (λ it. it ≡ restarted spec.now vars.now) }
{
    let mut more = vars.copy()?;
    restart(alloc, spec, &mut more)?;
    Ok(more)
}

fn set_file(alloc: Global, kind: &SpecKind, vars: &mut Vars) -> Result<(), NoMemory>
    ensures { OnOk result (vars.new ≡ with_file kind.now vars.old) }
{
    match kind {
        SpecKind::Source { file } | SpecKind::Package { file, .. } => vars.set(
            Text::from_str(alloc, "__file__")?,
            Value::Text(file.copy()?),
        ),
        _ => Ok(()),
    }
}

/// What a script's variables are once it has the package and the file of the spec.
pub(crate) fn main_vars(alloc: Global, spec: &Spec, vars: &Vars) -> Result<Vars, NoMemory>
    ensures { IfOk result (λ it. it ≡ main_vars spec.now vars.now) }
{
    let mut more = vars.copy()?;
    more.set(
        Text::from_str(alloc, "__package__")?,
        Value::Text(Text::from_str(alloc, package_of(spec))?),
    )?;
    set_file(alloc, spec.kind(), &mut more)?;
    Ok(more)
}

/// The namespace state that a new module has.
pub fn start_ns(alloc: Global, kind: &SpecKind) -> Result<Option<NsState>, NoMemory>
    ensures { IfOk result (λ state. state ≡ start_ns kind.now) }
{
    match kind {
        SpecKind::Namespace { path } => {
            let state = NsState::of(Seq::new(alloc), 0, path.copy()?)?;
            Ok(Some(state))
        }
        _ => Ok(None),
    }
}
