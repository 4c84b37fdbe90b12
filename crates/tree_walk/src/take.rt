//! The walk through a folder.
ghost use Rattle.std.specs.Prelude.{◌≡◌, ◌≤◌, [], length, IfOk, IfSome, IsErrOf, OnOk};
ghost use Rattle.std.specs.Option.{ForSome};
ghost use Rattle.tree_files.specs.Count.{Rose};
ghost use Rattle.tree_files.specs.Files.{IsTree, IsDirAt, IsFileAt};
ghost use Rattle.tree_walk.specs.Below.{taken};
ghost use Rattle.tree_walk.specs.Due.{TakesAt, TakesFolder};

use crate::load_bytes;
use crate::names::{behind, child_of};
use crate::pile::{Folder, Walk};
use base_types::{Exact, Seq, TreePath};
use bundle_hook::Packed;
use tree_files::{Stamp, Tree, TreeFault};

/// How many parts a folder may lie below the one whose files are taken.
const MOST_PARTS: usize = 64;

/// The most bytes that all files may have together.
const MOST_BYTES: usize = 268_435_456;

/// A folder is entered: its names come next. False where it lies too deep.
fn enter<T: Tree>(tree: &mut T, walk: &mut Walk, dir: TreePath) -> Result<bool, TreeFault>
    requires dir { ForSome (T.files tree.old) (λ f. IsDirAt f dir) }
    requires tree { ForSome (T.files tree.old) IsTree }
    ensures takes { IfSome (T.files tree.old) (λ f. IfOk result (TakesAt f dir walk.old walk.new)) }
    ensures failed { IsErrOf result TreeFault.Failed → Rose (T.faults tree.old) (T.faults tree.new) }
    ensures faults_stay { OnOk result (T.faults tree.new ≡ T.faults tree.old) }
    ensures files_stay { T.files tree.new ≡ T.files tree.old }
    ensures faults_grow { T.faults tree.old ≤ T.faults tree.new }
    ensures lists_grow { T.lists tree.old ≤ T.lists tree.new }
{
    if dir.parts().len().saturating_sub(walk.parts) > MOST_PARTS {
        return Ok(false);
    }
    let names = tree.list(&dir)?;
    walk.pile.push(Folder { dir, names, at: 0 })?;
    Ok(true)
}

/// A file is taken. False where it has more bytes than may still come.
fn take_file<T: Tree>(tree: &mut T, walk: &mut Walk, file: &TreePath) -> Result<bool, TreeFault>
    requires file { ForSome (T.files tree.old) (λ f. IsFileAt f file.now) }
    requires tree { ForSome (T.files tree.old) IsTree }
    ensures takes { IfSome (T.files tree.old) (λ f. IfOk result (TakesAt f file.now walk.old walk.new)) }
    ensures failed { IsErrOf result TreeFault.Failed → Rose (T.faults tree.old) (T.faults tree.new) }
    ensures faults_stay { OnOk result (T.faults tree.new ≡ T.faults tree.old) }
    ensures files_stay { T.files tree.new ≡ T.files tree.old }
    ensures faults_grow { T.faults tree.old ≤ T.faults tree.new }
    ensures lists_grow { T.lists tree.old ≤ T.lists tree.new }
{
    let alloc = file.parts().alloc();
    let path = behind(file, walk.parts)?;
    let Some(bytes) = load_bytes(alloc, tree, file, walk.room)? else {
        return Ok(false);
    };
    walk.room -= bytes.len();
    walk.files.push(Packed { path, bytes })?;
    Ok(true)
}

/// What stands at a path is taken, with all below it.
fn take_at<T: Tree>(tree: &mut T, walk: &mut Walk, path: TreePath) -> Result<bool, TreeFault>
    ensures takes { IfSome (T.files tree.old) (λ f. IfOk result (TakesAt f path walk.old walk.new)) }
    ensures failed { IsErrOf result TreeFault.Failed → Rose (T.faults tree.old) (T.faults tree.new) }
    ensures faults_stay { OnOk result (T.faults tree.new ≡ T.faults tree.old) }
    ensures files_stay { T.files tree.new ≡ T.files tree.old }
    ensures faults_grow { T.faults tree.old ≤ T.faults tree.new }
    ensures lists_grow { T.lists tree.old ≤ T.lists tree.new }
{
    match tree.stamp(&path)? {
        Stamp::Absent => Ok(true),
        Stamp::Dir(_) => enter(tree, walk, path),
        Stamp::File(_) => take_file(tree, walk, &path),
    }
}

/// The next name of a folder is taken, and the names behind it are put back.
fn take_folder<T: Tree>(tree: &mut T, walk: &mut Walk, folder: Folder) -> Result<bool, TreeFault>
    ensures takes { IfSome (T.files tree.old) (λ f. IfOk result (TakesFolder f folder walk.old walk.new)) }
    ensures failed { IsErrOf result TreeFault.Failed → Rose (T.faults tree.old) (T.faults tree.new) }
    ensures faults_stay { OnOk result (T.faults tree.new ≡ T.faults tree.old) }
    ensures files_stay { T.files tree.new ≡ T.files tree.old }
    ensures faults_grow { T.faults tree.old ≤ T.faults tree.new }
    ensures lists_grow { T.lists tree.old ≤ T.lists tree.new }
{
    let Folder { dir, names, at } = folder;
    let Some(name) = names.get(at) else {
        return Ok(true);
    };
    let child = child_of(&dir, name)?;
    let _count = names.len();
    let rest = Folder {
        dir,
        names,
        at: at + 1,
    };
    walk.pile.push(rest)?;
    match child {
        Some(path) => take_at(tree, walk, path),
        None => Ok(true),
    }
}

/// A walk through a folder whose path has so many parts, before it is entered.
fn new_walk(dir: &TreePath) -> Walk
    ensures { result ≡ record { parts = length dir.now; pile = []; files = []; room = MOST_BYTES } }
{
    let alloc = dir.parts().alloc();
    Walk {
        parts: dir.parts().len(),
        pile: Seq::new(alloc),
        files: Seq::new(alloc),
        room: MOST_BYTES,
    }
}

/// All files below a folder, with their paths below it, in the order of these, part by part by bytes. None where a folder
/// lies more than 64 parts below, or where they have more than 268,435,456 bytes together.
///
/// Names that are no part of a tree path are passed over, and so is what was there when its folder was listed and then is
/// not. A walk that goes through more names than a u64 can count is want of memory.
///
/// # Errors
///
/// `Failed` only where a call of the tree failed.
pub fn take_files<T: Tree>(tree: &mut T, dir: &TreePath) -> Result<Option<Seq<Packed>>, TreeFault>
    requires dir { ForSome (T.files tree.old) (λ f. IsDirAt f dir.now) }
    requires tree { ForSome (T.files tree.old) IsTree }
    ensures taken { IfSome (T.files tree.old) (λ f. IfOk result (λ files. files ≡ taken f dir.now)) }
    ensures failed { IsErrOf result TreeFault.Failed → Rose (T.faults tree.old) (T.faults tree.new) }
    ensures faults_stay { OnOk result (T.faults tree.new ≡ T.faults tree.old) }
    ensures files_stay { T.files tree.new ≡ T.files tree.old }
    ensures faults_grow { T.faults tree.old ≤ T.faults tree.new }
    ensures lists_grow { T.lists tree.old ≤ T.lists tree.new }
{
    let mut walk = new_walk(dir);
    if !enter(tree, &mut walk, dir.copy()?)? {
        return Ok(None);
    }
    'folders: for _ in 0..u64::MAX {
        let Some(folder) = walk.pile.pop() else {
            return Ok(Some(walk.files));
        };
        if !take_folder(tree, &mut walk, folder)? {
            return Ok(None);
        }
    }
    Err(TreeFault::NoMemory)
}
