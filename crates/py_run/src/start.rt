//! How a thread starts, and what it wants first.
ghost use Rattle.std.specs.Prelude.{IfOk};
ghost use Rattle.meaning_script.specs.Meaning.{meaning};
ghost use Rattle.run_module.specs.Programs.{meaning_of_name};
ghost use Rattle.step_calls.specs.Sources.{sources};
ghost use Rattle.py_run.specs.Starts.{started, StartsAs};

use base_owners::Boxed;
use base_types::{NoMemory, Seq, Text};
use find_load::In;
use py_frames::{Item, Procedure, Want};
use run_module::ModuleStart;
use spec_core::Dotted;
use std::alloc::Global;

/// How a thread starts.
#[derive(Drop)]
pub enum Start {
    /// With the text of its script.
    Script(Seq<u8>),
    /// With the name of a module, which it runs as a program.
    Module(Dotted),
}

/// A script is the body of a module of the name `__main__`.
fn start_script(alloc: Global, script: u32, text: Seq<u8>) -> Result<Want, NoMemory>
    ensures { IfOk result (λ want. StartsAs script (meaning sources script text) want) }
{
    match Text::from_str(alloc, "__main__") {
        Ok(name) => Ok(Want::Then(Item::Start {
            mid: script,
            load: script,
            name,
            text,
        })),
        Err(no_memory) => {
            drop(text);
            Err(no_memory)
        }
    }
}

/// A module is run by a procedure, which begins.
fn start_module(alloc: Global, script: u32, name: Dotted) -> Result<Want, NoMemory>
    ensures { IfOk result (λ want. StartsAs script (meaning_of_name sources script name) want) }
{
    let boxed = Boxed::new(alloc, ModuleStart::start(name, script))?;
    Ok(Want::Then(Item::Feed(Procedure::Program(boxed), In::Start)))
}

/// What a thread wants first that starts so.
pub(crate) fn first_want(alloc: Global, script: u32, start: Start) -> Result<Want, NoMemory>
    ensures { IfOk result (λ want. StartsAs script (started script start) want) }
{
    match start {
        Start::Script(text) => start_script(alloc, script, text),
        Start::Module(name) => start_module(alloc, script, name),
    }
}
