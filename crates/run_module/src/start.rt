//! The start of a module as a program (`runpy._run_module_as_main`).
ghost use Rattle.std.specs.Prelude.{◌≡◌, None};
ghost use Rattle.run_module.specs.declared.start.Stage.TheVariants as stages;

use base_types::Seq;
use spec_core::{Dotted, Spec};

/// What the start of a module waits for.
#[derive(Drop)]
pub enum Stage {
    /// Its start.
    Begins,
    /// The end of its parent's import.
    Parent,
    /// The search path.
    SearchPath,
    /// The entry of its parent, which has this name.
    ParentEntry(Dotted),
    /// The path of the module that stands there.
    ParentPath(Dotted),
    /// What is found on the path.
    Searched,
    /// The text of the file that was found.
    File(Spec),
    /// That the thread's own module has the file and this text.
    Main(Seq<u8>),
    /// The end of the body.
    Running,
    /// Nothing any more, since memory was wanting: no input fits.
    Over,
}

/// The start of a module that is under way: the thread that runs it, its home where it is the `__main__` of a
/// package that was named, its name, and what it waits for.
#[derive(Drop)]
pub struct ModuleStart {
    pub script: u32,
    pub home: Option<Dotted>,
    pub name: Dotted,
    pub stage: Stage,
}

impl ModuleStart {
    /// The start of the module of this name in a thread, before its first event.
    pub fn start(name: Dotted, script: u32) -> ModuleStart
        ensures { result ≡ record { script = script; home = None; name = name; stage = stages.Begins } }
    {
        ModuleStart {
            script,
            home: None,
            name,
            stage: Stage::Begins,
        }
    }
}
