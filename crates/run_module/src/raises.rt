//! How the start of a module ends by an error.
ghost use Rattle.std.specs.Prelude.{◌≡◌, ◌++◌, IfOk};
ghost use Rattle.py_value.specs.declared.kind.Kind.TheVariants as kinds;
ghost use Rattle.meaning_state.specs.Faults as table;
ghost use Rattle.meaning_state.specs.declared.fault.Fault.TheVariants as faults;
ghost use Rattle.meaning_script.specs.Pieces.{fails};
ghost use Rattle.run_module.specs.Programs.{absent_text, built_in_text, main_text, refuses};
ghost use Rattle.run_module.specs.Means.{Goes};
ghost use Rattle.run_module.specs.UnderWay.{missing};

use crate::start::ModuleStart;
use base_types::{NoMemory, Text};
use find_load::{In, Want};
use machine_events::Reply;
use meaning_state::{Fault, Flow, Leave, raised};
use py_value::{Kind, Raised};
use spec_core::Dotted;
use std::alloc::Global;

/// An error is raised.
pub(crate) fn fail(p: &mut ModuleStart, fault: Fault) -> Result<Want, NoMemory>
    ensures goes { IfOk result (Goes (λ inside. fails fault) p.new) }
{
    let error = raised(p.name.alloc(), fault)?;
    Ok(Want::End(Flow::Left(Leave::Raised(error))))
}

/// The input is none that the stage waits for.
pub(crate) fn misfit(p: &mut ModuleStart, input: In) -> Result<Want, NoMemory>
    ensures goes { IfOk result (Goes (λ inside. fails faults.NotInProfile) p.new) }
{
    drop(input);
    fail(p, Fault::NotInProfile)
}

/// The reply is none that the event can have.
pub(crate) fn misfit_reply(p: &mut ModuleStart, reply: Reply) -> Result<Want, NoMemory>
    ensures goes { IfOk result (Goes (λ inside. fails faults.NotInProfile) p.new) }
{
    drop(reply);
    fail(p, Fault::NotInProfile)
}

/// The name cannot be run, and this is why.
fn refuse(p: &mut ModuleStart, text: Text) -> Result<Want, NoMemory>
    ensures goes { IfOk result (Goes (λ inside. refuses text) p.new) }
{
    let error = Raised::of(Kind::ImportError, text, None)?;
    fail(p, Fault::Given(error))
}

/// The text about a name of which nothing was found, which may be the `__main__` of a package.
fn absent_text(alloc: Global, home: &Option<Dotted>, name: &Dotted) -> Result<Text, NoMemory>
    ensures { IfOk result (λ text. text ≡ absent_text home.now name.now) }
{
    let name = name.text();
    match home {
        None => Text::from_string(format!(in alloc; "No module named {name}")?),
        Some(home) => {
            let home = home.text();
            let text = format!(in alloc;
                "No module named {name}; '{home}' is a package and cannot be directly executed"
            )?;
            Text::from_string(text)
        }
    }
}

/// The text about a module that is in no file.
fn built_in_text(alloc: Global, name: &Dotted) -> Result<Text, NoMemory>
    ensures { IfOk result (λ text. text ≡ built_in_text name.now) }
{
    let name = name.text();
    Text::from_string(format!(in alloc; "No code object available for {name}")?)
}

/// Nothing was found of the name.
pub(crate) fn absent(p: &mut ModuleStart) -> Result<Want, NoMemory>
    ensures goes { IfOk result (Goes (λ inside. missing p.old) p.new) }
{
    let text = absent_text(p.name.alloc(), &p.home, &p.name)?;
    refuse(p, text)
}

/// The module is in no file.
pub(crate) fn built_in(p: &mut ModuleStart) -> Result<Want, NoMemory>
    ensures goes { IfOk result (Goes (λ inside. refuses (built_in_text p.old.name)) p.new) }
{
    let text = built_in_text(p.name.alloc(), &p.name)?;
    refuse(p, text)
}

/// The text about a package that has the name of a program.
fn main_text(alloc: Global) -> Result<Text, NoMemory>
    ensures { IfOk result (λ text. text ≡ main_text) }
{
    Text::from_str(alloc, "Cannot use package as __main__ module")
}

/// A package has the name of a program.
pub(crate) fn package_as_main(p: &mut ModuleStart) -> Result<Want, NoMemory>
    ensures goes { IfOk result (Goes (λ inside. refuses main_text) p.new) }
{
    let text = main_text(p.name.alloc())?;
    refuse(p, text)
}

/// The parent is no package.
pub(crate) fn not_package(p: &mut ModuleStart, parent: Dotted) -> Result<Want, NoMemory>
    ensures goes { IfOk result (Goes (λ inside. fails (faults.NotPackage p.old.name parent)) p.new) }
{
    let name = p.name.owned()?;
    let parent = parent.owned()?;
    fail(p, Fault::NotPackage { name, parent })
}

/// The entry of the parent is gone.
pub(crate) fn lost(p: &mut ModuleStart, parent: Dotted) -> Result<Want, NoMemory>
    ensures goes { IfOk result (Goes (λ inside. fails (faults.Lost parent)) p.new) }
{
    let parent = parent.owned()?;
    fail(p, Fault::Lost(parent))
}
