//! The indexes that are kept.
ghost use Rattle.std.specs.Prelude.{◌≡◌, ◌≤◌, ◌<◌, length, take, true, slice_get, is_some, IfOk, IfSome, IsErrOf, OnOk, Option, Some};
ghost use Rattle.std.specs.Option.{ForSome, option_copied};
ghost use Rattle.std.specs.List.{All};
ghost use Rattle.bundle_hook.specs.declared.kept.Kept.{Kept as kept_one};
ghost use Rattle.tree_files.specs.Count.{Rose};
ghost use Rattle.tree_files.specs.Files.{Files, node_at, bytes_of, stamp_of};
ghost use Rattle.tree_files.specs.declared.tree.Stamp.TheVariants as stamp;
ghost use Rattle.bundle_hook.specs.Files.{index_in};
ghost use Rattle.bundle_hook.specs.Things.{AscendItems};
ghost use Rattle.bundle_hook.specs.Expand.{names_bundle};
ghost use Rattle.bundle_hook.specs.Indexes.{IsRight, AreRight, IsKeptAt, index_at};

use crate::Index;
use crate::front::read_kept;
use crate::kept::Kept;
use crate::place::Found;
use base_types::{NoMemory, Same, Seq, TreePath};
use tree_files::{Tree, TreeFault};

/// Whether it is a bundle, and a path leads to something in it.
fn is_above(it: &Kept, path: &TreePath) -> bool
    ensures bundle { result ≡ true → is_some it.now.index ≡ true }
    ensures front { result ≡ true → it.now.path ≡ take (length it.now.path) path.now }
    ensures within { result ≡ true → length it.now.path ≤ length path.now }
{
    it.index.is_some()
        && it.path.parts().len() < path.parts().len()
        && path
            .parts()
            .as_slice()
            .starts_with(it.path.parts().as_slice())
}

/// The kept bundle in which a path leads to something.
pub fn bundle_above(kept: &Seq<Kept>, path: &TreePath) -> Option<Found>
    ensures within { IfSome result (λ found. found.at < length kept.now) }
    ensures along { IfSome result (λ found. found.parts ≤ length path.now) }
    ensures told { (f : Files) → All (IsRight f) kept.now
        → IfSome result (λ found. IsKeptAt f kept.now found.at (take found.parts path.now)) }
{
    for at in 0..kept.len() {
        let it = &kept.as_slice()[at];
        if is_above(it, path) {
            let parts = it.path.parts().len();
            return Some(Found { parts, at });
        }
    }
    None
}

/// The place of what is kept of a path.
fn place_of(kept: &Seq<Kept>, path: &TreePath) -> Option<usize>
    ensures within { IfSome result (λ at. at < length kept.now) }
    ensures path { IfSome result (λ at. (k : kept_one) → slice_get kept.now at ≡ Some k → k.path ≡ path.now) }
{
    for at in 0..kept.len() {
        if kept.as_slice()[at].path.is_same(path) {
            return Some(at);
        }
    }
    None
}

/// The index at a place.
pub fn index_at(kept: &Seq<Kept>, at: usize) -> Option<&Index>
    ensures value { option_copied result ≡ index_at kept.now at }
    ensures ascend { IfSome result (λ it. AscendItems it.now.items) }
{
    match kept.get(at) {
        Some(it) => it.index.as_ref(),
        None => None,
    }
}

/// Keeps what was read of a file in place of what was kept of it before.
fn keep(kept: &mut Seq<Kept>, new: Kept) -> Result<usize, NoMemory>
    ensures right { (told : Option Files) → AreRight told kept.old → ForSome told (λ f. IsRight f new)
        → AreRight told kept.new }
    ensures there { IfOk result (λ at. slice_get kept.new at ≡ Some new) }
{
    match place_of(kept, &new.path) {
        Some(at) => {
            kept.set(at, new);
            Ok(at)
        }
        None => {
            let at = kept.len();
            kept.push(new)?;
            Ok(at)
        }
    }
}

/// Keeps nothing of a path any more, so that nothing is answered by an index whose bundle is gone.
pub fn forget(kept: &mut Seq<Kept>, path: &TreePath)
    ensures right { (told : Option Files) → AreRight told kept.old → AreRight told kept.new }
{
    if let Some(at) = place_of(kept, path) {
        drop(kept.remove(at));
    }
}

/// The place of what is kept of a file, where it had this size.
fn fresh_at(kept: &Seq<Kept>, file: &TreePath, size: u64) -> Option<usize>
    ensures { (f : Files) → All (IsRight f) kept.now → stamp_of (node_at f file.now) ≡ stamp.File size
        → IfSome result (λ at. index_at kept.now at ≡ index_in (bytes_of (node_at f file.now))) }
{
    match place_of(kept, file) {
        Some(at) if kept.as_slice()[at].size == size => Some(at),
        _ => None,
    }
}

/// The place of what is kept of a file of this size. It is read where it is not kept yet.
pub fn kept_at<T: Tree>(
    tree: &mut T,
    kept: &mut Seq<Kept>,
    file: &TreePath,
    size: u64,
) -> Result<usize, TreeFault>
    requires file { ForSome (T.files tree.old) (λ f. stamp_of (node_at f file.now) ≡ stamp.File size) }
    requires named { names_bundle file.now ≡ true }
    requires right { AreRight (T.files tree.old) kept.old }
    ensures right { AreRight (T.files tree.old) kept.new }
    ensures index { IfOk result (λ at. IfSome (T.files tree.old) (λ f. index_at kept.new at
        ≡ index_in (bytes_of (node_at f file.now)))) }
    ensures failed { IsErrOf result TreeFault.Failed → Rose (T.faults tree.old) (T.faults tree.new) }
    ensures faults_stay { OnOk result (T.faults tree.new ≡ T.faults tree.old) }
    ensures files_stay { T.files tree.new ≡ T.files tree.old }
    ensures faults_grow { T.faults tree.old ≤ T.faults tree.new }
    ensures lists_stay { T.lists tree.new ≡ T.lists tree.old }
{
    if let Some(at) = fresh_at(kept, file, size) {
        return Ok(at);
    }
    let new = read_kept(file.parts().alloc(), tree, file, size)?;
    Ok(keep(kept, new)?)
}
