//! Where a path leads: into a bundle, or past all of them.
ghost use Rattle.std.specs.Prelude.{◌≡◌, ◌≤◌, ◌<◌, ◌+◌, true, length, take, None, IfOk, IfSome, IsErrOf, OnOk, MatchOption};
ghost use Rattle.std.specs.Option.{ForSome};
ghost use Rattle.tree_files.specs.Count.{Rose};
ghost use Rattle.tree_files.specs.Files.{IsTree, node_at};
ghost use Rattle.bundle_hook.specs.Expand.{is_bundle_name, names_bundle, bundle_at};
ghost use Rattle.bundle_hook.specs.Indexes.{AreRight, HasAnswered, IsKeptAt, HasNoBundle};
ghost use Rattle.bundle_hook.specs.Places.{Leads, LeadsInto, IsAlong};

use crate::indexes::{bundle_above, forget, index_at, kept_at};
use crate::kept::Kept;
use base_types::{Seq, Text, TreePath};
use tree_files::{Stamp, Tree, TreeFault};

/// A bundle that a path leads into.
#[derive(Clone, Copy)]
pub struct Found {
    /// How many of the path's first parts lead to the bundle.
    pub parts: usize,
    /// The place of its index among those that are kept.
    pub at: usize,
}

/// Where a path leads.
#[derive(Clone, Copy)]
pub enum Place {
    /// Into no bundle; and what stands there.
    Outside(Stamp),
    Inside(Found),
}

/// Whether the name is one that a bundle may have.
fn is_bundle_name(name: &Text) -> bool
    ensures { result ≡ is_bundle_name name.now }
{
    name.as_bytes().ends_with(b".pyb".as_slice())
}

/// The place of the index of the bundle that stands at a path. What was kept of it is forgotten where no file stands
/// there any more.
fn bundle_of<T: Tree>(
    tree: &mut T,
    kept: &mut Seq<Kept>,
    file: &TreePath,
) -> Result<Option<usize>, TreeFault>
    requires named { names_bundle file.now ≡ true }
    requires right { AreRight (T.files tree.old) kept.old }
    ensures right { AreRight (T.files tree.old) kept.new }
    ensures told { IfOk result (λ o. IfSome (T.files tree.old) (λ f. MatchOption o
        (bundle_at f file.now ≡ None) (λ at. IsKeptAt f kept.new at file.now))) }
    ensures failed { IsErrOf result TreeFault.Failed → Rose (T.faults tree.old) (T.faults tree.new) }
    ensures faults_stay { OnOk result (T.faults tree.new ≡ T.faults tree.old) }
    ensures files_stay { T.files tree.new ≡ T.files tree.old }
    ensures faults_grow { T.faults tree.old ≤ T.faults tree.new }
    ensures lists_stay { T.lists tree.new ≡ T.lists tree.old }
{
    let Stamp::File(size) = tree.stamp(file)? else {
        forget(kept, file);
        return Ok(None);
    };
    let at = kept_at(tree, kept, file, size)?;
    if index_at(kept, at).is_some() {
        Ok(Some(at))
    } else {
        Ok(None)
    }
}

/// The place of the index of the bundle that stands at the first parts of a path.
fn bundle_at<T: Tree>(
    tree: &mut T,
    kept: &mut Seq<Kept>,
    path: &TreePath,
    parts: usize,
) -> Result<Option<usize>, TreeFault>
    requires within { parts ≤ length path.now }
    requires named { names_bundle (take parts path.now) ≡ true }
    requires right { AreRight (T.files tree.old) kept.old }
    ensures right { AreRight (T.files tree.old) kept.new }
    ensures told { IfOk result (λ o. IfSome (T.files tree.old) (λ f. MatchOption o
        (bundle_at f (take parts path.now) ≡ None) (λ at. IsKeptAt f kept.new at (take parts path.now)))) }
    ensures failed { IsErrOf result TreeFault.Failed → Rose (T.faults tree.old) (T.faults tree.new) }
    ensures faults_stay { OnOk result (T.faults tree.new ≡ T.faults tree.old) }
    ensures files_stay { T.files tree.new ≡ T.files tree.old }
    ensures faults_grow { T.faults tree.old ≤ T.faults tree.new }
    ensures lists_stay { T.lists tree.new ≡ T.lists tree.old }
{
    if parts == path.parts().len() {
        return bundle_of(tree, kept, path);
    }
    let file = path.front(parts)?;
    bundle_of(tree, kept, &file)
}

/// The place of the index of the bundle that the first parts of a path name, where they name one.
fn bundle_named<T: Tree>(
    tree: &mut T,
    kept: &mut Seq<Kept>,
    path: &TreePath,
    parts: usize,
) -> Result<Option<usize>, TreeFault>
    requires some { 0 < parts }
    requires within { parts ≤ length path.now }
    requires right { AreRight (T.files tree.old) kept.old }
    ensures right { AreRight (T.files tree.old) kept.new }
    ensures told { IfOk result (λ o. IfSome (T.files tree.old) (λ f. MatchOption o
        (bundle_at f (take parts path.now) ≡ None) (λ at. IsKeptAt f kept.new at (take parts path.now)))) }
    ensures failed { IsErrOf result TreeFault.Failed → Rose (T.faults tree.old) (T.faults tree.new) }
    ensures faults_stay { OnOk result (T.faults tree.new ≡ T.faults tree.old) }
    ensures files_stay { T.files tree.new ≡ T.files tree.old }
    ensures faults_grow { T.faults tree.old ≤ T.faults tree.new }
    ensures lists_stay { T.lists tree.new ≡ T.lists tree.old }
{
    if is_bundle_name(&path.parts().as_slice()[parts - 1]) {
        bundle_at(tree, kept, path, parts)
    } else {
        Ok(None)
    }
}

/// The bundle that a path leads into, from the root on.
fn bundle_on<T: Tree>(
    tree: &mut T,
    kept: &mut Seq<Kept>,
    path: &TreePath,
) -> Result<Option<Found>, TreeFault>
    requires right { AreRight (T.files tree.old) kept.old }
    ensures right { AreRight (T.files tree.old) kept.new }
    ensures along { IfOk result (λ o. IfSome o (λ found. found.parts ≤ length path.now)) }
    ensures told { IfOk result (λ o. IfSome (T.files tree.old) (λ f. MatchOption o
        (HasNoBundle f path.now (length path.now + 1))
        (λ found. (found.parts ≤ length path.now) × IsKeptAt f kept.new found.at (take found.parts path.now)))) }
    ensures failed { IsErrOf result TreeFault.Failed → Rose (T.faults tree.old) (T.faults tree.new) }
    ensures faults_stay { OnOk result (T.faults tree.new ≡ T.faults tree.old) }
    ensures files_stay { T.files tree.new ≡ T.files tree.old }
    ensures faults_grow { T.faults tree.old ≤ T.faults tree.new }
    ensures lists_stay { T.lists tree.new ≡ T.lists tree.old }
{
    for n in 0..path.parts().len() {
        let parts = n + 1;
        if let Some(at) = bundle_named(tree, kept, path, parts)? {
            return Ok(Some(Found { parts, at }));
        }
    }
    Ok(None)
}

/// Where a path leads, by what stands there and then by the bundles on the way. So the tree answers in any case.
fn place_by_stamp<T: Tree>(
    tree: &mut T,
    kept: &mut Seq<Kept>,
    path: &TreePath,
) -> Result<Place, TreeFault>
    requires right { AreRight (T.files tree.old) kept.old }
    ensures right { AreRight (T.files tree.old) kept.new }
    ensures along { IfOk result (IsAlong path.now) }
    ensures told { IfOk result (λ place. IfSome (T.files tree.old) (λ f. Leads f kept.new path.now place)) }
    ensures is_tree { IfSome (T.files tree.old) IsTree }
    ensures failed { IsErrOf result TreeFault.Failed → Rose (T.faults tree.old) (T.faults tree.new) }
    ensures faults_stay { OnOk result (T.faults tree.new ≡ T.faults tree.old) }
    ensures files_stay { T.files tree.new ≡ T.files tree.old }
    ensures faults_grow { T.faults tree.old ≤ T.faults tree.new }
    ensures lists_stay { T.lists tree.new ≡ T.lists tree.old }
{
    let stamp = tree.stamp(path)?;
    if let Stamp::Dir(_) = stamp {
        return Ok(Place::Outside(stamp));
    }
    match bundle_on(tree, kept, path)? {
        Some(found) => Ok(Place::Inside(found)),
        None => Ok(Place::Outside(stamp)),
    }
}

/// Where a path leads, by the bundles on the way. Only where there are none is it asked what stands at the path.
fn place_by_bundles<T: Tree>(
    tree: &mut T,
    kept: &mut Seq<Kept>,
    path: &TreePath,
) -> Result<Place, TreeFault>
    requires right { AreRight (T.files tree.old) kept.old }
    ensures right { AreRight (T.files tree.old) kept.new }
    ensures along { IfOk result (IsAlong path.now) }
    ensures told { IfOk result (λ place. IfSome (T.files tree.old) (λ f. Leads f kept.new path.now place)) }
    ensures failed { IsErrOf result TreeFault.Failed → Rose (T.faults tree.old) (T.faults tree.new) }
    ensures faults_stay { OnOk result (T.faults tree.new ≡ T.faults tree.old) }
    ensures files_stay { T.files tree.new ≡ T.files tree.old }
    ensures faults_grow { T.faults tree.old ≤ T.faults tree.new }
    ensures lists_stay { T.lists tree.new ≡ T.lists tree.old }
{
    match bundle_on(tree, kept, path)? {
        Some(found) => Ok(Place::Inside(found)),
        None => {
            let stamp = tree.stamp(path)?;
            Ok(Place::Outside(stamp))
        }
    }
}

/// Where a path leads. Below a bundle that is kept, no question is asked: whether it has changed is asked where a call is
/// about the bundle itself, as each search asks about a folder before it looks into it. As long as nothing is kept, what
/// stands at the path is asked first. Where something is kept, the tree has answered before.
pub fn place_of<T: Tree>(
    tree: &mut T,
    kept: &mut Seq<Kept>,
    path: &TreePath,
) -> Result<Place, TreeFault>
    requires right { AreRight (T.files tree.old) kept.old }
    requires answered { HasAnswered (T.files tree.old) kept.old }
    ensures right { AreRight (T.files tree.old) kept.new }
    ensures answered { HasAnswered (T.files tree.old) kept.new }
    ensures along { IfOk result (IsAlong path.now) }
    ensures told { IfOk result (λ place. IfSome (T.files tree.old) (λ f. Leads f kept.new path.now place)) }
    ensures is_tree { IfSome (T.files tree.old) IsTree }
    ensures failed { IsErrOf result TreeFault.Failed → Rose (T.faults tree.old) (T.faults tree.new) }
    ensures faults_stay { OnOk result (T.faults tree.new ≡ T.faults tree.old) }
    ensures files_stay { T.files tree.new ≡ T.files tree.old }
    ensures faults_grow { T.faults tree.old ≤ T.faults tree.new }
    ensures lists_stay { T.lists tree.new ≡ T.lists tree.old }
{
    if let Some(found) = bundle_above(kept, path) {
        return Ok(Place::Inside(found));
    }
    if kept.is_empty() {
        place_by_stamp(tree, kept, path)
    } else {
        place_by_bundles(tree, kept, path)
    }
}

/// The bundle that a path leads into. None where it leads into none, which costs no question about the path itself once
/// something is kept: a call that goes on to the tree inside asks enough.
pub fn bundle_for<T: Tree>(
    tree: &mut T,
    kept: &mut Seq<Kept>,
    path: &TreePath,
) -> Result<Option<Found>, TreeFault>
    requires right { AreRight (T.files tree.old) kept.old }
    requires answered { HasAnswered (T.files tree.old) kept.old }
    ensures right { AreRight (T.files tree.old) kept.new }
    ensures answered { HasAnswered (T.files tree.old) kept.new }
    ensures along { IfOk result (λ o. IfSome o (λ found. found.parts ≤ length path.now)) }
    ensures told { IfOk result (λ o. IfSome (T.files tree.old) (λ f. LeadsInto f kept.new path.now o)) }
    ensures is_tree { IfSome (T.files tree.old) IsTree }
    ensures failed { IsErrOf result TreeFault.Failed → Rose (T.faults tree.old) (T.faults tree.new) }
    ensures faults_stay { OnOk result (T.faults tree.new ≡ T.faults tree.old) }
    ensures files_stay { T.files tree.new ≡ T.files tree.old }
    ensures faults_grow { T.faults tree.old ≤ T.faults tree.new }
    ensures lists_stay { T.lists tree.new ≡ T.lists tree.old }
{
    if let Some(found) = bundle_above(kept, path) {
        return Ok(Some(found));
    }
    if !kept.is_empty() {
        let found = bundle_on(tree, kept, path)?;
        return Ok(found);
    }
    match place_by_stamp(tree, kept, path)? {
        Place::Outside(_) => Ok(None),
        Place::Inside(found) => Ok(Some(found)),
    }
}
