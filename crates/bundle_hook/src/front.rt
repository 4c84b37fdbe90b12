//! Reading the index of a file.
ghost use Rattle.std.specs.Prelude.{◌≡◌, ◌≤◌, ◌<◌, ◌+◌, length, min, take, IfOk, IfSome, IsErrOf, MatchOption, OnOk};
ghost use Rattle.std.specs.Option.{ForSome};
ghost use Rattle.tree_files.specs.Count.{Rose};
ghost use Rattle.tree_files.specs.Files.{IsFileAt, node_at, bytes_of, stamp_of};
ghost use Rattle.tree_files.specs.declared.tree.Stamp.TheVariants as stamp;
ghost use Rattle.bundle_hook.specs.Spelling.{most_front};
ghost use Rattle.bundle_hook.specs.Files.{index_in};
ghost use Rattle.bundle_hook.specs.Things.{AscendItems};

use crate::kept::Kept;
use crate::{Index, MOST_FRONT, read_index};
use base_types::{Exact, TreePath};
use std::alloc::Global;
use tree_files::{Tree, TreeFault};

/// Reads a piece of a file behind the bytes that were read, and answers how long it is.
fn read_piece<T: Tree>(
    tree: &mut T,
    file: &TreePath,
    done: usize,
    front: &mut [u8],
) -> Result<usize, TreeFault>
    requires file { ForSome (T.files tree.old) (λ f. IsFileAt f file.now) }
    requires within { done < length front.old }
    ensures told { IfOk result (λ n. IfSome (T.files tree.old) (λ f.
        take done front.old ≡ take done (bytes_of (node_at f file.now))
        → take (done + n) front.new ≡ take (done + n) (bytes_of (node_at f file.now)))) }
    ensures some { IfOk result (λ n. IfSome (T.files tree.old) (λ f.
        done < length (bytes_of (node_at f file.now)) → 0 < n)) }
    ensures count { IfOk result (λ n. done + n ≤ length front.old) }
    ensures length { length front.new ≡ length front.old }
    ensures failed { IsErrOf result TreeFault.Failed → Rose (T.faults tree.old) (T.faults tree.new) }
    ensures faults_stay { OnOk result (T.faults tree.new ≡ T.faults tree.old) }
    ensures files_stay { T.files tree.new ≡ T.files tree.old }
    ensures faults_grow { T.faults tree.old ≤ T.faults tree.new }
    ensures lists_stay { T.lists tree.new ≡ T.lists tree.old }
{
    let count = tree.read(file, done as u64, &mut front[done..])?;
    Ok(count)
}

/// The first bytes of a file of this size, as many as the front of a bundle may have, or all of a shorter one.
/// None where the file has fewer bytes now.
fn read_front<T: Tree>(
    alloc: Global,
    tree: &mut T,
    file: &TreePath,
    size: u64,
) -> Result<Option<Vec<u8>>, TreeFault>
    requires { ForSome (T.files tree.old) (λ f. IsFileAt f file.now) }
    ensures told { IfOk result (λ o. IfSome (T.files tree.old) (λ f. length (bytes_of (node_at f file.now)) ≡ size
        → MatchOption o ⊥ (λ front. front.items ≡ take most_front (bytes_of (node_at f file.now))))) }
    ensures length { IfOk result (λ o. IfSome o (λ front. length front.items ≡ min size most_front)) }
    ensures failed { IsErrOf result TreeFault.Failed → Rose (T.faults tree.old) (T.faults tree.new) }
    ensures faults_stay { OnOk result (T.faults tree.new ≡ T.faults tree.old) }
    ensures files_stay { T.files tree.new ≡ T.files tree.old }
    ensures faults_grow { T.faults tree.old ≤ T.faults tree.new }
    ensures lists_stay { T.lists tree.new ≡ T.lists tree.old }
{
    let len = size.min(MOST_FRONT as u64) as usize;
    let mut front = Vec::new(alloc);
    front.resize(len, 0)?;
    let mut done = 0;
    while done < len {
        let count = read_piece(tree, file, done, front.as_mut_slice())?;
        if count == 0 {
            return Ok(None);
        }
        done += count;
    }
    Ok(Some(front))
}

/// The index of a file of this size; None where it is no bundle.
fn read_the_index<T: Tree>(
    alloc: Global,
    tree: &mut T,
    file: &TreePath,
    size: u64,
) -> Result<Option<Index>, TreeFault>
    requires { ForSome (T.files tree.old) (λ f. IsFileAt f file.now) }
    ensures told { IfOk result (λ index. IfSome (T.files tree.old) (λ f. length (bytes_of (node_at f file.now)) ≡ size
        → index ≡ index_in (bytes_of (node_at f file.now)))) }
    ensures ascend { IfOk result (λ o. IfSome o (λ index. AscendItems index.items)) }
    ensures failed { IsErrOf result TreeFault.Failed → Rose (T.faults tree.old) (T.faults tree.new) }
    ensures faults_stay { OnOk result (T.faults tree.new ≡ T.faults tree.old) }
    ensures files_stay { T.files tree.new ≡ T.files tree.old }
    ensures faults_grow { T.faults tree.old ≤ T.faults tree.new }
    ensures lists_stay { T.lists tree.new ≡ T.lists tree.old }
{
    match read_front(alloc, tree, file, size)? {
        Some(front) => Ok(read_index(alloc, front.as_slice(), size)?),
        None => Ok(None),
    }
}

/// What is to be kept of a file of this size.
pub fn read_kept<T: Tree>(
    alloc: Global,
    tree: &mut T,
    file: &TreePath,
    size: u64,
) -> Result<Kept, TreeFault>
    requires { ForSome (T.files tree.old) (λ f. stamp_of (node_at f file.now) ≡ stamp.File size) }
    ensures index { IfOk result (λ it. IfSome (T.files tree.old) (λ f.
        it.index ≡ index_in (bytes_of (node_at f file.now)))) }
    ensures path { IfOk result (λ it. it.path ≡ file.now) }
    ensures size { IfOk result (λ it. it.size ≡ size) }
    ensures failed { IsErrOf result TreeFault.Failed → Rose (T.faults tree.old) (T.faults tree.new) }
    ensures faults_stay { OnOk result (T.faults tree.new ≡ T.faults tree.old) }
    ensures files_stay { T.files tree.new ≡ T.files tree.old }
    ensures faults_grow { T.faults tree.old ≤ T.faults tree.new }
    ensures lists_stay { T.lists tree.new ≡ T.lists tree.old }
{
    let path = file.copy()?;
    let index = read_the_index(alloc, tree, file, size)?;
    Ok(Kept { path, size, index })
}
