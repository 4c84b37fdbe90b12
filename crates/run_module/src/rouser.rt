//! The first use of a lazy module.
ghost use Rattle.std.specs.Prelude.{◌≡◌};
ghost use Rattle.meaning_script.specs.Pieces as pieces;
ghost use Rattle.run_module.specs.declared.rouser.RouseStage.TheVariants as stages;

use find_load::most;
use meaning_state::Flow;
use py_value::ModRef;

/// What the first use of a module waits for.
#[derive(Drop)]
pub enum RouseStage {
    /// Its start.
    Begins,
    /// The reply to Rouse.
    Asked,
    /// The lock of the module's name.
    Waits,
    /// The end of the body of this load.
    Running(u32),
    /// That the load ended well.
    Finished,
    /// That the load ended, and then the leave goes on.
    Left(Flow),
    /// Nothing any more, since memory was wanting: no input fits.
    Over,
}

/// The first use of a module: how many more turns it may take, and what it waits for.
#[derive(Drop)]
pub struct Rouser {
    pub module: ModRef,
    pub turns: u64,
    pub stage: RouseStage,
}

impl Rouser {
    /// The first use of a module, before it is asked for.
    pub fn start(module: ModRef) -> Rouser
        ensures { result ≡ record { «module» = «module»; turns = pieces.most; stage = stages.Begins } }
    {
        Rouser {
            module,
            turns: most(),
            stage: RouseStage::Begins,
        }
    }
}
