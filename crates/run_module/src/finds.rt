//! What was found of the name is run.
ghost use Rattle.std.specs.Prelude.{◌≡◌, IfOk, None, Some};
ghost use Rattle.spec_core.specs.Names.{joined};
ghost use Rattle.find_load.specs.declared.words.In.TheVariants as ins;
ghost use Rattle.run_module.specs.Programs.{discovers, has_text, loads, main_name, reads_file, runs_kind, runs_main, runs_text};
ghost use Rattle.run_module.specs.Means.{Goes};
ghost use Rattle.run_module.specs.UnderWay.{does_at, missing, packaged};
ghost use Rattle.run_module.specs.declared.start.Stage.TheVariants as stages;

use crate::locates::begin;
use crate::raises::{absent, fail, package_as_main};
use crate::start::{ModuleStart, Stage};
use crate::waits::wait_for;
use base_types::{Exact, NoMemory, Seq, Text, TreePath};
use find_load::Want;
use machine_events::Event;
use meaning_state::Fault;
use path_finder::{Found, path_of};
use spec_core::{Dotted, KnownName, Spec, SpecKind};
use std::mem;

/// The name of the module `__main__` in a package.
fn main_of(home: &Dotted) -> Result<Dotted, NoMemory>
    ensures { IfOk result (λ it. it ≡ joined home.now main_name) }
{
    let main = Dotted::known(home.alloc(), KnownName::Main)?;
    let part = main.owned()?;
    let _dotted = main.text();
    home.child(&part)
}

/// The `__main__` of a package is run: the start goes on with its name.
fn run_main(p: &mut ModuleStart) -> Result<Want, NoMemory>
    ensures goes { IfOk result (Goes (λ inside. runs_main inside p.old.script p.old.name) p.new) }
{
    let main = main_of(&p.name)?;
    let home = mem::replace(&mut p.name, main);
    let before = mem::replace(&mut p.home, Some(home));
    drop(before);
    begin(p)
}

/// A package was found.
fn run_package(p: &mut ModuleStart) -> Result<Want, NoMemory>
    ensures goes { IfOk result (Goes (packaged p.old) p.new) }
{
    if p.home.is_some() || p.name.tail() == "__main__" {
        return package_as_main(p);
    }
    run_main(p)
}

/// The thread's own module is to have the file and its text.
fn make_main(p: &mut ModuleStart, spec: Spec, text: Seq<u8>) -> Result<Want, NoMemory>
    ensures goes { IfOk result (Goes (λ inside. runs_text inside p.old.script spec text) p.new) }
{
    let kept = text.copy()?;
    Ok(wait_for(p, Stage::Main(kept), Want::Call(Event::Main { spec, text })))
}

/// The text of the file was read: that of a module, or of a package, which is not run.
fn run_kind(p: &mut ModuleStart, spec: Spec, text: Seq<u8>) -> Result<Want, NoMemory>
    ensures goes { IfOk result (Goes (λ inside. runs_kind inside p.old.script (packaged p.old inside) spec spec.kind
        text) p.new) }
{
    match spec.kind() {
        SpecKind::Source { .. } => make_main(p, spec, text),
        SpecKind::Package { .. } => {
            drop(spec);
            run_package(p)
        }
        _ => {
            drop(spec);
            fail(p, Fault::NotInProfile)
        }
    }
}

/// The text of a file was read, if it is not too long for a source.
fn has_text(p: &mut ModuleStart, spec: Spec, text: Option<Seq<u8>>) -> Result<Want, NoMemory>
    ensures goes { IfOk result (Goes (λ inside. has_text inside p.old.script (packaged p.old inside) spec text) p.new) }
{
    match text {
        Some(text) => run_kind(p, spec, text),
        None => fail(p, Fault::TooLong),
    }
}

/// The file was opened, if one stands there.
pub(crate) fn opened(
    p: &mut ModuleStart,
    spec: Spec,
    text: Option<Option<Seq<u8>>>,
) -> Result<Want, NoMemory>
    ensures goes { IfOk result (Goes (does_at p.old (stages.File spec) (ins.Opened text)) p.new) }
{
    match text {
        Some(text) => has_text(p, spec, text),
        None => absent(p),
    }
}

/// The file of the spec is to be read. A text that is no tree path names no file.
fn read_file(p: &mut ModuleStart, spec: Spec, file: Option<TreePath>) -> Result<Want, NoMemory>
    ensures goes { IfOk result (Goes (λ inside. reads_file inside p.old.script (missing p.old) (packaged p.old inside)
        spec file) p.new) }
{
    match file {
        Some(file) => Ok(wait_for(p, Stage::File(spec), Want::File(file))),
        None => absent(p),
    }
}

/// A spec was found.
fn load(p: &mut ModuleStart, found: Spec) -> Result<Want, NoMemory>
    ensures goes { IfOk result (Goes (λ inside. loads inside p.old.script (missing p.old) (packaged p.old inside) found
        found.kind) p.new) }
{
    let file = match found.kind() {
        SpecKind::Source { file } => path_of(file)?,
        SpecKind::Package { file, .. } => path_of(file)?,
        _ => {
            drop(found);
            return fail(p, Fault::NotInProfile);
        }
    };
    read_file(p, found, file)
}

/// What the search came to.
pub(crate) fn discover(p: &mut ModuleStart, answer: Option<Found>) -> Result<Want, NoMemory>
    ensures goes { IfOk result (Goes (does_at p.old stages.Searched (ins.Found answer)) p.new) }
{
    match answer {
        None => absent(p),
        Some(Found::Spec(found)) => load(p, found),
        Some(Found::Portions(portions)) => {
            drop(portions);
            run_package(p)
        }
    }
}

/// The body runs in the thread's own module, as that of a script.
pub(crate) fn run_body(p: &mut ModuleStart, text: Seq<u8>) -> Result<Want, NoMemory>
    ensures goes { IfOk result (Goes (λ inside. inside.body p.old.script p.old.script main_name text) p.new) }
{
    let body = Want::Body {
        mid: p.script,
        load: p.script,
        name: Text::from_str(p.name.alloc(), "__main__")?,
        text,
    };
    Ok(wait_for(p, Stage::Running, body))
}
