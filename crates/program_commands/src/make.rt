//! From a word to a bundle.
ghost use Rattle.std.specs.Prelude.{◌≡◌, ◌≤◌, ℕ, List, IfOk, IsErrOf};
ghost use Rattle.tree_files.specs.Count.{Rose};
ghost use Rattle.tree_walk.specs.declared.pack.Packing.TheVariants as packing;
ghost use Rattle.program_commands.specs.Making.{IsMadeOf, Makes};

use base_types::{Seq, Text};
use bundle_hook::{BundleError, Packed, write_bundle};
use std::alloc::Global;
use tree_files::{Tree, TreeFault};
use tree_walk::{Packing, pack_folder};

/// What comes of a word whose folder is to be bundled.
#[derive(Drop)]
pub enum Made {
    /// It names no folder at a tree path.
    Missing,
    /// No bundle belongs to the files of the folder, or not all of them are taken.
    Unfit,
    /// The bundle.
    Bytes(Vec<u8>),
}

/// The bundle of files, where one belongs to them.
fn made_of(alloc: Global, files: &Seq<Packed>) -> Result<Made, TreeFault>
    ensures made { IfOk result (IsMadeOf (packing.Files files.now)) }
    ensures wanting { ¬ (IsErrOf result TreeFault.Failed) }
{
    match write_bundle(alloc, files.as_slice()) {
        Ok(bytes) => Ok(Made::Bytes(bytes)),
        Err(BundleError::Unfit) => Ok(Made::Unfit),
        Err(BundleError::NoMemory) => Err(TreeFault::NoMemory),
    }
}

/// What comes of what was packed.
fn made_by(alloc: Global, packing: Packing) -> Result<Made, TreeFault>
    ensures made { IfOk result (IsMadeOf packing) }
    ensures wanting { ¬ (IsErrOf result TreeFault.Failed) }
{
    match packing {
        Packing::Missing => Ok(Made::Missing),
        Packing::TooMuch => Ok(Made::Unfit),
        Packing::Files(files) => made_of(alloc, &files),
    }
}

/// The bundle of the folder that a word names.
///
/// # Errors
///
/// `Failed` only where a call of the tree failed.
pub fn make<T: Tree>(alloc: Global, tree: &mut T, word: &Text) -> Result<Made, TreeFault>
    ensures makes { IfOk result (Makes (T.files tree.old) word.now) }
    ensures failed { IsErrOf result TreeFault.Failed → Rose (T.faults tree.old) (T.faults tree.new) }
    ensures files_stay { T.files tree.new ≡ T.files tree.old }
    ensures faults_grow { T.faults tree.old ≤ T.faults tree.new }
    ensures lists_grow { T.lists tree.old ≤ T.lists tree.new }
{
    let packing = pack_folder(tree, word)?;
    made_by(alloc, packing)
}
