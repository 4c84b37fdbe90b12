//! A file that a word names.
ghost use Rattle.std.specs.Prelude.{◌≡◌, ◌≤◌, IfOk, IfSome, IsErrOf, OnOk};
ghost use Rattle.tree_files.specs.Count.{Rose};
ghost use Rattle.tree_files.specs.Files.{node_at};
ghost use Rattle.tree_walk.specs.Reading.{read_of, IsFile, HasWithin};

use crate::load::load_bytes;
use base_types::{Seq, Text, TreePath};
use std::alloc::Global;
use tree_files::{Stamp, Tree, TreeFault};

/// What a word names in a tree.
#[derive(Drop)]
pub enum Read {
    /// No file at a tree path.
    Missing,
    /// A file of more bytes than were to be read.
    TooLong,
    /// A file with these bytes.
    Bytes(Seq<u8>),
}

fn read_at<T: Tree>(
    alloc: Global,
    tree: &mut T,
    path: &TreePath,
    most: usize,
) -> Result<Read, TreeFault>
    ensures told { IfSome (T.files tree.old) (λ f. IfOk result (λ it. it ≡ read_of most (node_at f path.now))) }
    ensures fits { IfOk result (HasWithin most) }
    ensures failed { IsErrOf result TreeFault.Failed → Rose (T.faults tree.old) (T.faults tree.new) }
    ensures faults_stay { OnOk result (T.faults tree.new ≡ T.faults tree.old) }
    ensures files_stay { T.files tree.new ≡ T.files tree.old }
    ensures faults_grow { T.faults tree.old ≤ T.faults tree.new }
    ensures lists_stay { T.lists tree.new ≡ T.lists tree.old }
{
    match tree.stamp(path)? {
        Stamp::File(_) => match load_bytes(alloc, tree, path, most)? {
            Some(bytes) => Ok(Read::Bytes(bytes)),
            None => Ok(Read::TooLong),
        },
        _ => Ok(Read::Missing),
    }
}

/// Reads the file that a word names, where it has at most so many bytes. Nothing is listed.
///
/// # Errors
///
/// `Failed` only where a call of the tree failed.
pub fn open_file<T: Tree>(
    alloc: Global,
    tree: &mut T,
    word: &Text,
    most: usize,
) -> Result<Read, TreeFault>
    ensures told { IfSome (T.files tree.old) (λ f. IfOk result (IsFile f most word.now)) }
    ensures fits { IfOk result (HasWithin most) }
    ensures failed { IsErrOf result TreeFault.Failed → Rose (T.faults tree.old) (T.faults tree.new) }
    ensures faults_stay { OnOk result (T.faults tree.new ≡ T.faults tree.old) }
    ensures files_stay { T.files tree.new ≡ T.files tree.old }
    ensures faults_grow { T.faults tree.old ≤ T.faults tree.new }
    ensures lists_stay { T.lists tree.new ≡ T.lists tree.old }
{
    match TreePath::read(word)? {
        Some(path) => read_at(alloc, tree, &path, most),
        None => Ok(Read::Missing),
    }
}
