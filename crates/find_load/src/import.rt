//! The import of one name (`importlib._bootstrap._find_and_load`).
ghost use Rattle.std.specs.Prelude.{◌≡◌};
ghost use Rattle.meaning_script.specs.Pieces as pieces;
ghost use Rattle.find_load.specs.declared.import.Stage.TheVariants as stages;

use base_types::{Seq, Texts};
use meaning_state::{Fault, Flow};
use py_value::Items;
use spec_core::{Dotted, Spec};

/// What an import waits for.
#[derive(Drop)]
pub enum Stage {
    /// Its start; whether it is the import of another one's parent.
    Begins(bool),
    /// The reply to a look into the cache; whether that is the first of a parent.
    Asked(bool),
    /// The end of its parent's import.
    Parent,
    /// The reply to a look into the cache with the lock.
    Taken,
    /// The lock.
    Waits,
    /// The search path, with the epoch of its lock, as in the next ones.
    SearchPath(u64),
    /// The entry of its parent, which has this name.
    ParentEntry {
        epoch: u64,
        parent: Dotted,
    },
    /// The path of the module that stands there.
    ParentPath {
        epoch: u64,
        parent: Dotted,
    },
    /// What is found on this path.
    Searched {
        epoch: u64,
        path: Items,
    },
    /// The text of the file that was found.
    File(Spec),
    /// The module, whose body has this text.
    Added(Seq<u8>),
    /// The module that is loaded at its first use.
    AddedLazy,
    /// The end of the body of this load.
    Running(u32),
    /// The namespace that these portions make, found on this path.
    NamespaceAdded {
        epoch: u64,
        path: Items,
        portions: Texts,
    },
    /// That its state is kept, which ends its load.
    NamespaceKept(u32),
    /// The end of the load.
    Finished,
    /// That the lock is given back, and then the error is raised.
    Released(Fault),
    /// That the lock or the load is given back, and then the leave goes on.
    Left(Flow),
    /// Nothing any more, since memory was wanting: no input fits.
    Over,
}

/// An import that is under way: its name, how many more turns it may take, whether the module is to be
/// loaded at its first use only, and what it waits for.
#[derive(Drop)]
pub struct Importer {
    pub name: Dotted,
    pub turns: u64,
    pub is_lazy: bool,
    pub stage: Stage,
}

/// The most turns that an import can take: each pays a unit of a budget of 64 bits.
pub fn most() -> u64
    ensures { result ≡ pieces.most }
{
    u64::MAX
}

impl Importer {
    /// The import of a name, before its first look into the cache; whether the name is the parent of
    /// one that is imported, and whether its module is loaded at its first use only.
    pub fn start(name: Dotted, is_parent: bool, is_lazy: bool) -> Importer
        ensures { result ≡ record {
          name = name;
          turns = pieces.most;
          is_lazy = is_lazy;
          stage = stages.Begins is_parent;
        } }
    {
        Importer {
            name,
            turns: most(),
            is_lazy,
            stage: Stage::Begins(is_parent),
        }
    }
}
