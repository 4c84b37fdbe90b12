//! The files of a folder that a word names.
ghost use Rattle.std.specs.Prelude.{◌≡◌, ◌≤◌, IfOk, IfSome, IsErrOf, OnOk};
ghost use Rattle.std.specs.Option.{ForSome};
ghost use Rattle.tree_files.specs.Count.{Rose};
ghost use Rattle.tree_files.specs.Files.{node_at, IsDirAt, IsTree};
ghost use Rattle.tree_walk.specs.Below.{taken};
ghost use Rattle.tree_walk.specs.Packing.{IsPacking, packing_at, packing_of};

use crate::take::take_files;
use base_types::{Seq, Text, TreePath};
use bundle_hook::Packed;
use tree_files::{Stamp, Tree, TreeFault};

/// What a word names where all files of a folder are wanted.
#[derive(Drop)]
pub enum Packing {
    /// No folder at a tree path.
    Missing,
    /// A folder below which another one lies too deep, or with too many bytes.
    TooMuch,
    /// A folder with these files.
    Files(Seq<Packed>),
}

/// The files of a folder, where all of them are taken.
fn packing_of(files: Option<Seq<Packed>>) -> Packing
    ensures { result ≡ packing_of files }
{
    match files {
        Some(files) => Packing::Files(files),
        None => Packing::TooMuch,
    }
}

/// The files of a folder.
fn pack_dir<T: Tree>(tree: &mut T, dir: &TreePath) -> Result<Packing, TreeFault>
    requires dir { ForSome (T.files tree.old) (λ f. IsDirAt f dir.now) }
    requires tree { ForSome (T.files tree.old) IsTree }
    ensures told { IfSome (T.files tree.old) (λ f. IfOk result (λ it. it ≡ packing_of (taken f dir.now))) }
    ensures failed { IsErrOf result TreeFault.Failed → Rose (T.faults tree.old) (T.faults tree.new) }
    ensures faults_stay { OnOk result (T.faults tree.new ≡ T.faults tree.old) }
    ensures files_stay { T.files tree.new ≡ T.files tree.old }
    ensures faults_grow { T.faults tree.old ≤ T.faults tree.new }
    ensures lists_grow { T.lists tree.old ≤ T.lists tree.new }
{
    let files = take_files(tree, dir)?;
    Ok(packing_of(files))
}

/// What stands at a path, packed where it is a folder.
fn pack_at<T: Tree>(tree: &mut T, dir: &TreePath) -> Result<Packing, TreeFault>
    ensures told { IfSome (T.files tree.old) (λ f. IfOk result
        (λ it. it ≡ packing_at f dir.now (node_at f dir.now))) }
    ensures failed { IsErrOf result TreeFault.Failed → Rose (T.faults tree.old) (T.faults tree.new) }
    ensures faults_stay { OnOk result (T.faults tree.new ≡ T.faults tree.old) }
    ensures files_stay { T.files tree.new ≡ T.files tree.old }
    ensures faults_grow { T.faults tree.old ≤ T.faults tree.new }
    ensures lists_grow { T.lists tree.old ≤ T.lists tree.new }
{
    match tree.stamp(dir)? {
        Stamp::Dir(_) => pack_dir(tree, dir),
        _ => Ok(Packing::Missing),
    }
}

/// All files below the folder that a word names, with their paths below it, in the order of these, part by part by
/// bytes. They are read before this returns. At most 268,435,456 bytes are taken, and no folder that lies more than 64
/// parts below.
///
/// # Errors
///
/// `Failed` only where a call of the tree failed.
pub fn pack_folder<T: Tree>(tree: &mut T, word: &Text) -> Result<Packing, TreeFault>
    ensures told { IfSome (T.files tree.old) (λ f. IfOk result (IsPacking f word.now)) }
    ensures failed { IsErrOf result TreeFault.Failed → Rose (T.faults tree.old) (T.faults tree.new) }
    ensures faults_stay { OnOk result (T.faults tree.new ≡ T.faults tree.old) }
    ensures files_stay { T.files tree.new ≡ T.files tree.old }
    ensures faults_grow { T.faults tree.old ≤ T.faults tree.new }
    ensures lists_grow { T.lists tree.old ≤ T.lists tree.new }
{
    match TreePath::read(word)? {
        Some(dir) => pack_at(tree, &dir),
        None => Ok(Packing::Missing),
    }
}
