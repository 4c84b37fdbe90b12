//! The folder that is reported.
ghost use Rattle.std.specs.Prelude.{◌≡◌, ◌≤◌, IfOk, IfErr, IfSome, IsErrOf, OnOk, Some};
ghost use Rattle.std.specs.Option.{ForSome};
ghost use Rattle.tree_files.specs.Count.{Rose};
ghost use Rattle.tree_files.specs.Files.{node_at};
ghost use Rattle.program_commands.specs.FolderOpening.{folder_at, Names, NoFolder};

use base_types::{Text, TreePath};
use program_run::{Unopened, joined, refused};
use std::alloc::Global;
use tree_files::{Stamp, Tree, TreeFault};

/// The path, where a directory stands there.
#[tactic(auto, using(crate::proofs::FolderOpening::folder_there, crate::proofs::FolderOpening::file_there, crate::proofs::FolderOpening::absent_there))]
fn folder_at<T: Tree>(tree: &mut T, path: TreePath) -> Result<Option<TreePath>, TreeFault>
    ensures told { ForSome (T.files tree.old) (λ f. IfOk result (λ it. it ≡ folder_at path (node_at f path))) }
    ensures same { IfOk result (λ it. IfSome it (λ at. at ≡ path)) }
    ensures failed { IsErrOf result TreeFault.Failed → Rose (T.faults tree.old) (T.faults tree.new) }
    ensures faults_stay { OnOk result (T.faults tree.new ≡ T.faults tree.old) }
    ensures files_stay { T.files tree.new ≡ T.files tree.old }
    ensures faults_grow { T.faults tree.old ≤ T.faults tree.new }
    ensures lists_stay { T.lists tree.new ≡ T.lists tree.old }
{
    match tree.stamp(&path)? {
        Stamp::Dir(_) => Ok(Some(path)),
        Stamp::File(_) => Ok(None),
        Stamp::Absent => Ok(None),
    }
}

/// The folder that a word names. None where it names no directory at a tree path.
fn folder_of<T: Tree>(tree: &mut T, word: &Text) -> Result<Option<TreePath>, TreeFault>
    ensures names { IfOk result (Names (T.files tree.old) word.now) }
    ensures failed { IsErrOf result TreeFault.Failed → Rose (T.faults tree.old) (T.faults tree.new) }
    ensures faults_stay { OnOk result (T.faults tree.new ≡ T.faults tree.old) }
    ensures files_stay { T.files tree.new ≡ T.files tree.old }
    ensures faults_grow { T.faults tree.old ≤ T.faults tree.new }
    ensures lists_stay { T.lists tree.new ≡ T.lists tree.old }
{
    let read = TreePath::read(word)?;
    match read {
        Some(path) => folder_at(tree, path),
        None => Ok(None),
    }
}

/// Opens the folder that a word names: a directory at a tree path. What is none is refused with the line about it.
pub fn open_folder<T: Tree>(alloc: Global, tree: &mut T, word: &Text) -> Result<TreePath, Unopened>
    ensures ok { IfOk result (λ dir. Names (T.files tree.old) word.now (Some dir)) }
    ensures err { IfErr result (NoFolder (T.files tree.old) word.now (T.faults tree.old) (T.faults tree.new)) }
    ensures faults_stay { OnOk result (T.faults tree.new ≡ T.faults tree.old) }
    ensures files_stay { T.files tree.new ≡ T.files tree.old }
    ensures faults_grow { T.faults tree.old ≤ T.faults tree.new }
    ensures lists_stay { T.lists tree.new ≡ T.lists tree.old }
{
    match folder_of(tree, word) {
        Ok(Some(dir)) => Ok(dir),
        Ok(None) => {
            let line = joined(alloc, "pyimport: cannot open folder '", word.as_str(), "'");
            Err(refused(line))
        }
        Err(TreeFault::Failed) => Err(Unopened::Unread),
        Err(TreeFault::NoMemory) => Err(Unopened::NoMemory),
    }
}
