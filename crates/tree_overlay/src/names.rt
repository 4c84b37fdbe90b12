//! The names in a directory after edits.
ghost use Rattle.std.specs.Prelude.{◌≡◌, ◌&&◌, ◌||◌, ◌++◌, ◌∷◌, [], ℕ, List, IfOk, OnOk, nat_eq};
ghost use Rattle.std.specs.Option.{option_copied};
ghost use Rattle.std.specs.Ordering.{nat_cmp};
ghost use Rattle.std.specs.List.Sorted.{IsStrictlySortedBy};
ghost use Rattle.std.specs.Cmp.Lexicographic.{pointwise, slice_cmp};
ghost use Rattle.tree_files.specs.Files.{has_name};
ghost use Rattle.tree_overlay.specs.Fates as fates;
ghost use Rattle.tree_overlay.specs.Gathered.{holds};
ghost use Rattle.tree_overlay.specs.Names.{part_after, path_of, is_put, is_seen, put_names, IsMerged};

use crate::fate::{fate_of, is_put, is_seen, is_within};
use base_types::{Exact, NoMemory, Seq, Text, Texts, TreePath};
use std::collections::BTreeSet;
use tree_files::Edit;

/// The part of a path that follows a directory.
fn part_after<'a>(dir: &TreePath, path: &'a TreePath) -> Option<&'a Text>
    ensures { option_copied result ≡ part_after dir.now path.now }
{
    if is_within(dir.parts(), path.parts()) {
        path.parts().get(dir.parts().len())
    } else {
        None
    }
}

/// The path that an edit names.
pub fn path_of(edit: &Edit) -> &TreePath
    ensures { result.now ≡ path_of edit.now }
{
    match edit {
        Edit::File { path, bytes: _ } => path,
        Edit::Dir { path, time: _ } => path,
        Edit::Remove { path } => path,
    }
}

/// The parts of the path of a name in a directory.
fn parts_of(dir: &TreePath, name: &Text) -> Result<Texts, NoMemory>
    ensures { IfOk result (λ it. it ≡ dir.now ++ name.now ∷ []) }
{
    let mut parts = dir.parts().copy()?;
    parts.push(name.copy()?)?;
    Ok(parts)
}

/// Adds a name, where it is wanted.
fn add(names: &mut BTreeSet<Text>, name: &Text, wanted: bool) -> Result<(), NoMemory>
    ensures { OnOk result ((other : List ℕ) → holds names.new other
        ≡ (holds names.old other || (wanted && pointwise nat_eq name.now other))) }
{
    if wanted {
        names.insert(name.copy()?)?;
    }
    Ok(())
}

/// Adds a name of the tree inside, where it is still seen.
fn add_old(
    names: &mut BTreeSet<Text>,
    edits: &Seq<Edit>,
    dir: &TreePath,
    name: &Text,
) -> Result<(), NoMemory>
    ensures { OnOk result ((other : List ℕ) → holds names.new other
        ≡ (holds names.old other || (is_seen (fates.fate_of edits.now (dir.now ++ other ∷ [])) && has_name
        (name.now ∷ []) other))) }
{
    let parts = parts_of(dir, name)?;
    add(names, name, is_seen(fate_of(edits, &parts)))
}

/// Adds the names of the tree inside that are still seen.
fn add_seen(
    names: &mut BTreeSet<Text>,
    edits: &Seq<Edit>,
    dir: &TreePath,
    inner: &Texts,
) -> Result<(), NoMemory>
    ensures { OnOk result ((other : List ℕ) → holds names.new other
        ≡ (holds names.old other || (is_seen (fates.fate_of edits.now
        (dir.now ++ other ∷ [])) && has_name inner.now other))) }
{
    for name in inner.as_slice() {
        add_old(names, edits, dir, name)?;
    }
    Ok(())
}

/// Adds the name by which an edit speaks of something in the directory, where all edits together
/// put something there.
fn add_new(
    names: &mut BTreeSet<Text>,
    edits: &Seq<Edit>,
    dir: &TreePath,
    edit: &Edit,
) -> Result<(), NoMemory>
    ensures { OnOk result ((other : List ℕ) → holds names.new other
        ≡ (holds names.old other || (is_put (fates.fate_of edits.now (dir.now ++ other ∷ [])) && has_name
        (put_names dir.now (edit.now ∷ [])) other))) }
{
    match part_after(dir, path_of(edit)) {
        None => Ok(()),
        Some(name) => {
            let parts = parts_of(dir, name)?;
            add(names, name, is_put(fate_of(edits, &parts)))
        }
    }
}

/// Adds the names by which edits put something into the directory.
fn add_put(names: &mut BTreeSet<Text>, edits: &Seq<Edit>, dir: &TreePath) -> Result<(), NoMemory>
    ensures { OnOk result ((other : List ℕ) → holds names.new other
        ≡ (holds names.old other || (is_put (fates.fate_of edits.now (dir.now ++ other ∷ [])) && has_name
        (put_names dir.now edits.now) other))) }
{
    for edit in edits.as_slice() {
        add_new(names, edits, dir, edit)?;
    }
    Ok(())
}

/// The names of a set, in the order of their bytes.
fn listed(names: &BTreeSet<Text>, dir: &TreePath) -> Result<Texts, NoMemory>
    ensures same { IfOk result (λ it. it ≡ names.now.keys) }
    ensures ordered { IfOk result (IsStrictlySortedBy (slice_cmp nat_cmp)) }
{
    let mut listed = Texts::new(dir.parts().alloc());
    for name in names {
        listed.push(name.copy()?)?;
    }
    Ok(listed)
}

/// The names in a directory after edits, where these stand there before: in the order of their
/// bytes, each once.
pub fn merged(edits: &Seq<Edit>, dir: &TreePath, inner: &Texts) -> Result<Texts, NoMemory>
    ensures { IfOk result (IsMerged edits.now dir.now inner.now) }
{
    let mut names = BTreeSet::new(dir.parts().alloc());
    add_seen(&mut names, edits, dir, inner)?;
    add_put(&mut names, edits, dir)?;
    listed(&names, dir)
}
