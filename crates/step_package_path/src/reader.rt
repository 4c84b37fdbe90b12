//! The reading of a module's path (Language Reference 5.4.5).
ghost use Rattle.std.specs.Prelude.{◌≡◌, IfOk};
ghost use Rattle.meaning_script.specs.Pieces as pieces;
ghost use Rattle.step_package_path.specs.declared.reader.Stage.TheVariants as stages;
ghost use Rattle.py_value.specs.declared.value.Place.TheVariants as places;

use base_types::{NoMemory, Text};
use find_load::most;
use py_value::{Items, ModRef, NsState, Place};
use spec_core::Dotted;

/// A namespace whose state was read: its name, its state, and the epoch of the machine.
#[derive(Drop)]
pub struct Namespace {
    pub name: Dotted,
    pub state: NsState,
    pub epoch: u64,
}

/// What the reading of a path waits for.
#[derive(Drop)]
pub enum Stage {
    /// Its start.
    Begins,
    /// The module's `__path__`.
    Read,
    /// The first use of the module, which is lazy.
    Roused,
    /// Its `__path__` once it is loaded.
    ReadRaw,
    /// Its start, where that is known to be the path of a namespace.
    Replaces,
    /// The state of the namespace.
    StateRead,
    /// The search path.
    AtTop(Namespace),
    /// The entry of the parent.
    AtEntry(Namespace),
    /// The path of the module that stands there.
    Above(Namespace),
    /// What is found on this path.
    Searched {
        state: NsState,
        epoch: u64,
        path: Items,
    },
    /// That this state is kept.
    Kept(NsState),
    /// Nothing any more, since memory was wanting: no input fits.
    Over,
}

/// A path that is read: the module's, how many more modules may stand one above the other, and what it
/// waits for.
#[derive(Drop)]
pub struct PathReader {
    pub module: ModRef,
    pub turns: u64,
    pub stage: Stage,
}

impl PathReader {
    /// The path of a module, before its `__path__` is read.
    pub fn start(module: ModRef, turns: u64) -> PathReader
        ensures { result ≡ record { «module» = «module»; turns = turns; stage = stages.Begins } }
    {
        PathReader {
            module,
            turns,
            stage: Stage::Begins,
        }
    }

    /// The path of a namespace, whose `__path__` was read, by the number and the name of its module. An `Err` comes
    /// for want of memory alone.
    pub fn replacing(mid: u32, name: Text) -> Result<PathReader, NoMemory>
        ensures { IfOk result (λ reader. reader ≡ record {
          «module» = record { mid = mid; name = name; place = places.Namespace };
          turns = pieces.most;
          stage = stages.Replaces;
        }) }
    {
        let module = ModRef::of(mid, name, Place::Namespace)?;
        Ok(PathReader {
            module,
            turns: most(),
            stage: Stage::Replaces,
        })
    }
}
