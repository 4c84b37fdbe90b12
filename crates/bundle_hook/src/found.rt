//! What a bundle has at a path that leads into it.
ghost use Rattle.std.specs.Prelude.{◌≡◌, ◌≤◌, ◌<◌, ◌+◌, ◌^◌, [], drop, length, take, IfOk, IfSome, IsErrOf, OnOk};
ghost use Rattle.std.specs.Option.{ForSome};
ghost use Rattle.tree_files.specs.Count.{Rose};
ghost use Rattle.tree_files.specs.Files.{IsFileAt, IsRead, node_at, bytes_of};
ghost use Rattle.bundle_hook.specs.Indexes.{index_at};
ghost use Rattle.bundle_hook.specs.Things as things;
ghost use Rattle.bundle_hook.specs.Things.{AreNames, AscendItems, ReadsThing, thing_by, stamp_of_thing};
ghost use Rattle.bundle_hook.specs.Seen.{thing_in};

use crate::Item;
use crate::indexes::index_at;
use crate::inside::{Inner, names_in, thing_at};
use crate::kept::Kept;
use crate::place::Found;
use base_types::{NoMemory, Seq, Text, Texts, TreePath};
use std::alloc::Global;
use tree_files::{Stamp, Tree, TreeFault};

/// What stands at a path in a bundle.
pub fn inner_at<'a>(kept: &'a Seq<Kept>, found: &Found, path: &TreePath) -> Inner<'a>
    requires { found.now.parts ≤ length path.now }
    ensures { thing_in result ≡ thing_by (index_at kept.now found.now.at) (drop found.now.parts path.now) }
{
    match index_at(kept, found.at) {
        Some(index) => thing_at(
            index.items.as_slice(),
            &path.parts().as_slice()[found.parts..],
        ),
        None => Inner::Nothing,
    }
}

/// What can be known of it without reading.
pub fn stamp_of(inner: Inner<'_>) -> Stamp
    ensures { result ≡ stamp_of_thing (thing_in inner.entry) }
{
    match inner {
        Inner::Nothing => Stamp::Absent,
        Inner::Folder => Stamp::Dir(0),
        Inner::File(item) => Stamp::File(item.size),
    }
}

/// The names in a folder of a bundle, and none where no folder stands there.
fn names_of(alloc: Global, items: &[Item], folder: &[Text]) -> Result<Texts, NoMemory>
    requires { AscendItems items.now }
    ensures folder { IfOk result (λ names. things.thing_at items.now folder.now ≡ things.Folder
        → AreNames items.now folder.now names) }
    ensures wrong_kind { IfOk result (λ names. ¬ (things.thing_at items.now folder.now ≡ things.Folder) → names ≡ []) }
{
    match thing_at(items, folder) {
        Inner::Folder => names_in(alloc, items, folder),
        _ => Ok(Texts::new(alloc)),
    }
}

/// The names in a folder of a bundle that a path leads to, and none where no folder stands there.
pub fn names_at(kept: &Seq<Kept>, found: &Found, path: &TreePath) -> Result<Texts, NoMemory>
    requires { found.now.parts ≤ length path.now }
    ensures folder { IfOk result (λ names. IfSome (index_at kept.now found.now.at) (λ index.
        things.thing_at index.items (drop found.now.parts path.now) ≡ things.Folder
        → AreNames index.items (drop found.now.parts path.now) names)) }
    ensures wrong_kind { IfOk result (λ names. ¬ (thing_by (index_at kept.now found.now.at)
        (drop found.now.parts path.now) ≡ things.Folder) → names ≡ []) }
{
    let alloc = path.parts().alloc();
    match index_at(kept, found.at) {
        Some(index) => names_of(
            alloc,
            index.items.as_slice(),
            &path.parts().as_slice()[found.parts..],
        ),
        None => Ok(Texts::new(alloc)),
    }
}

/// Reads bytes of a file of a bundle, from the place `at` of the file on, where it has some.
fn read_stored<T: Tree>(
    tree: &mut T,
    bundle: &TreePath,
    item: &Item,
    at: u64,
    into: &mut [u8],
) -> Result<usize, TreeFault>
    requires file { ForSome (T.files tree.old) (λ f. IsFileAt f bundle.now) }
    requires some { at < item.now.size }
    ensures told { IfOk result (λ n. IfSome (T.files tree.old) (λ f.
        item.now.at + item.now.size ≤ length (bytes_of (node_at f bundle.now))
        → length (bytes_of (node_at f bundle.now)) < 2 ^ 64
        → IsRead (take item.now.size (drop item.now.at (bytes_of (node_at f bundle.now)))) at into.old into.new n)) }
    ensures count { IfOk result (λ n. n ≤ length into.old) }
    ensures failed { IsErrOf result TreeFault.Failed → Rose (T.faults tree.old) (T.faults tree.new) }
    ensures faults_stay { OnOk result (T.faults tree.new ≡ T.faults tree.old) }
    ensures files_stay { T.files tree.new ≡ T.files tree.old }
    ensures faults_grow { T.faults tree.old ≤ T.faults tree.new }
    ensures lists_stay { T.lists tree.new ≡ T.lists tree.old }
{
    let room = (item.size - at).min(into.len() as u64) as usize;
    let count = tree.read(bundle, item.at.saturating_add(at), &mut into[..room])?;
    Ok(count)
}

/// Reads bytes of a file of a bundle that a path leads to, and none where no file stands there.
pub fn read_at<T: Tree>(
    tree: &mut T,
    kept: &Seq<Kept>,
    found: &Found,
    file: &TreePath,
    at: u64,
    into: &mut [u8],
) -> Result<usize, TreeFault>
    requires along { found.now.parts ≤ length file.now }
    requires bundle { ForSome (T.files tree.old) (λ f. IsFileAt f (take found.now.parts file.now)) }
    ensures told { IfOk result (λ n. IfSome (T.files tree.old) (λ f.
        ReadsThing (bytes_of (node_at f (take found.now.parts file.now)))
        (thing_by (index_at kept.now found.now.at) (drop found.now.parts file.now)) at into.old into.new n)) }
    ensures count { IfOk result (λ n. n ≤ length into.old) }
    ensures failed { IsErrOf result TreeFault.Failed → Rose (T.faults tree.old) (T.faults tree.new) }
    ensures faults_stay { OnOk result (T.faults tree.new ≡ T.faults tree.old) }
    ensures files_stay { T.files tree.new ≡ T.files tree.old }
    ensures faults_grow { T.faults tree.old ≤ T.faults tree.new }
    ensures lists_stay { T.lists tree.new ≡ T.lists tree.old }
{
    let Inner::File(item) = inner_at(kept, found, file) else {
        return Ok(0);
    };
    if at >= item.size {
        return Ok(0);
    }
    let bundle = file.front(found.parts)?;
    read_stored(tree, &bundle, item, at, into)
}
