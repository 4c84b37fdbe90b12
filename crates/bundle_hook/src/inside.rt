//! What an index says of a path below its bundle.
ghost use Rattle.std.specs.Prelude.{◌≡◌, ◌++◌, ◌∷◌, [], IfOk, IfSome, OnOk, ℕ, List, ◌||◌, false, drop, slice_get};
ghost use Rattle.std.specs.Option.{option_copied};
ghost use Rattle.std.specs.Ordering.{is_lt, nat_cmp};
ghost use Rattle.std.specs.List.{list_any};
ghost use Rattle.std.specs.List.Sorted.{IsStrictlySortedBy};
ghost use Rattle.std.specs.Cmp.Lexicographic.{slice_cmp};
ghost use Rattle.base_types.specs.Path.{path_cmp};
ghost use Rattle.tree_files.specs.Edits.{is_within};
ghost use Rattle.tree_overlay.specs.Gathered.{holds};
ghost use Rattle.tree_overlay.specs.Names.{part_after};
ghost use Rattle.bundle_hook.specs.Things as things;
ghost use Rattle.bundle_hook.specs.Things.{AreNames, AscendItems};
ghost use Rattle.bundle_hook.specs.Seen.{thing_in};

use crate::Item;
use base_types::{Exact, NoMemory, Text, Texts, TreePath};
use std::alloc::Global;
use std::collections::BTreeSet;

/// What stands at a path below a bundle.
#[derive(Clone, Copy)]
pub enum Inner<'a> {
    Nothing,
    /// A folder on the way to a file, or the bundle itself.
    Folder,
    File(&'a Item),
}

/// Whether a file stands before a path.
fn is_before(item: &Item, path: &[Text]) -> bool
    ensures { result ≡ is_lt (path_cmp item.now.path path.now) }
{
    item.path.parts().as_slice() < path
}

/// How many files stand before a path. It looks at few of them: their paths ascend.
fn count_before(items: &[Item], path: &[Text]) -> usize
    requires { AscendItems items.now }
    ensures before { things.thing_among (drop result items.now) path.now ≡ things.thing_among items.now path.now }
    ensures reached { IfSome (slice_get items.now result) (λ item. is_lt (path_cmp item.path path.now) ≡ false) }
{
    let mut count = 0;
    let mut left = items.len();
    while left > 0 {
        let half = left / 2;
        if is_before(&items[count + half], path) {
            count += half + 1;
            left -= half + 1;
        } else {
            left = half;
        }
    }
    count
}

/// What stands at a path, by the first of the files that do not stand before it.
#[tactic(auto, using(tree_overlay::proofs::Within::within_taken))]
fn thing_by<'a>(item: &'a Item, path: &[Text]) -> Inner<'a>
    ensures { thing_in result ≡ things.thing_of item.now path.now things.Nothing }
{
    let parts = item.path.parts().as_slice();
    if parts == path {
        return Inner::File(item);
    }
    if parts.starts_with(path) {
        return Inner::Folder;
    }
    Inner::Nothing
}

/// What stands at a path among files.
fn thing_among<'a>(items: &'a [Item], path: &[Text]) -> Inner<'a>
    requires { AscendItems items.now }
    ensures { thing_in result ≡ things.thing_among items.now path.now }
{
    match items.get(count_before(items, path)) {
        Some(item) => thing_by(item, path),
        None => Inner::Nothing,
    }
}

/// What stands at a path below a bundle of these files.
pub fn thing_at<'a>(items: &'a [Item], path: &[Text]) -> Inner<'a>
    requires { AscendItems items.now }
    ensures { thing_in result ≡ things.thing_at items.now path.now }
{
    if path.is_empty() {
        Inner::Folder
    } else {
        thing_among(items, path)
    }
}

/// The part of a path that follows a folder.
fn part_after<'a>(folder: &[Text], path: &'a TreePath) -> Option<&'a Text>
    ensures { option_copied result ≡ part_after folder.now path.now }
{
    if path.parts().as_slice().starts_with(folder) {
        path.parts().get(folder.len())
    } else {
        None
    }
}

/// Adds the name by which a file's path goes on behind a folder.
fn add_name(names: &mut BTreeSet<Text>, folder: &[Text], path: &TreePath) -> Result<(), NoMemory>
    ensures { OnOk result ((other : List ℕ) → holds names.new other
        ≡ (holds names.old other || is_within (folder.now ++ other ∷ []) path.now)) }
{
    if let Some(name) = part_after(folder, path) {
        names.insert(name.copy()?)?;
    }
    Ok(())
}

/// The names of a set, in the order of their bytes.
fn listed(alloc: Global, names: &BTreeSet<Text>) -> Result<Texts, NoMemory>
    ensures same { IfOk result (λ it. it ≡ names.now.keys) }
    ensures ordered { IfOk result (IsStrictlySortedBy (slice_cmp nat_cmp)) }
{
    let mut listed = Texts::new(alloc);
    for name in names {
        listed.push(name.copy()?)?;
    }
    Ok(listed)
}

/// The names of what stands in a folder of a bundle, in the order of their bytes, each once.
pub fn names_in(alloc: Global, items: &[Item], folder: &[Text]) -> Result<Texts, NoMemory>
    ensures { IfOk result (AreNames items.now folder.now) }
{
    let mut names = BTreeSet::new(alloc);
    for item in items {
        add_name(&mut names, folder, &item.path)?;
    }
    listed(alloc, &names)
}
