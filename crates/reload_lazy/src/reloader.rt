//! The reload of a module (`importlib.reload`).
ghost use Rattle.std.specs.Prelude.{◌≡◌};
ghost use Rattle.meaning_script.specs.Pieces as pieces;
ghost use Rattle.reload_lazy.specs.declared.reloader.ReloadStage.TheVariants as stages;

use base_types::{Seq, Texts};
use find_load::most;
use meaning_state::{Fault, Flow};
use py_value::{Items, ModRef};
use spec_core::{Dotted, Spec};

/// What a reload found: the source of a file, or the portions of a namespace on a path.
#[derive(Drop)]
pub enum Finding {
    Source { spec: Spec, text: Seq<u8> },
    Space { path: Items, portions: Texts },
}

/// What a reload waits for once it has begun.
#[derive(Drop)]
pub enum Awaited {
    /// The reply to ReloadBegin.
    Asked,
    /// The first use of the module, which is lazy.
    Roused,
    /// The reply to ReloadBegin once it is loaded.
    AskedRaw,
    /// The search path, with the epoch of its beginning, as in the next ones.
    SearchPath(u64),
    /// The entry of its parent, which has this name.
    ParentEntry { epoch: u64, parent: Dotted },
    /// The path of this module, which stands there.
    ParentPath { epoch: u64, parent: ModRef },
    /// What is found on this path.
    Searched { epoch: u64, path: Items },
    /// The text of the file that was found.
    File { epoch: u64, spec: Spec },
    /// The lock, for what was found.
    Took { epoch: u64, finding: Finding },
    /// That the lock is free.
    Waits { epoch: u64, finding: Finding },
    /// More than is left of any budget, since no more turns may follow.
    Spent,
    /// The end of the body of this load.
    Running(u32),
    /// That the state of the namespace is kept, which ends this load.
    SpaceKept(u32),
    /// That the reload is ended, after its body ended so.
    Ended(Flow),
    /// That the reload is ended, and then the error is raised.
    Stopped(Fault),
    /// That the reload is ended, and then the leave goes on.
    Left(Flow),
}

/// Where a reload stands.
#[derive(Drop)]
pub enum ReloadStage {
    /// It starts.
    Begins,
    /// It waits, under the dotted name that its module's was read as.
    Awaits(Dotted, Awaited),
    /// Nothing any more, since memory was wanting: no input fits.
    Over,
}

/// A reload that is under way: its module, how often it may still ask for its lock, and where it
/// stands.
#[derive(Drop)]
pub struct Reloader {
    pub module: ModRef,
    pub turns: u64,
    pub stage: ReloadStage,
}

impl Reloader {
    /// The reload of a module, before its first event.
    pub fn start(module: ModRef) -> Reloader
        ensures { result ≡ record { «module» = «module»; turns = pieces.most; stage = stages.Begins } }
    {
        Reloader {
            module,
            turns: most(),
            stage: ReloadStage::Begins,
        }
    }
}
