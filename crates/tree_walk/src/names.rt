//! Paths of the things in a folder.
ghost use Rattle.std.specs.Prelude.{◌≡◌, drop, IfOk, OnOk};
ghost use Rattle.base_types.specs.Path.{IsPath};
ghost use Rattle.tree_walk.specs.Names.{child_by, child_of};

use base_types::{Exact, NoMemory, Text, TreePath};

/// A folder with the one part of a path.
fn child_by(dir: &TreePath, path: &TreePath) -> Result<Option<TreePath>, NoMemory>
    requires { IsPath path.now }
    ensures { IfOk result (λ o. o ≡ child_by dir.now path.now) }
{
    match path.parts().as_slice() {
        [part] => Ok(Some(dir.child(part)?)),
        _ => Ok(None),
    }
}

/// Where a name stands in a folder. None where it is no part of a tree path.
pub fn child_of(dir: &TreePath, name: &Text) -> Result<Option<TreePath>, NoMemory>
    ensures { IfOk result (λ o. o ≡ child_of dir.now name.now) }
{
    match TreePath::read(name)? {
        Some(path) => child_by(dir, &path),
        None => Ok(None),
    }
}

/// What the type of a path says of it is seen where a path ends, so a copy of it ends here.
fn look_at(path: &TreePath) -> Result<(), NoMemory>
    ensures { OnOk result (IsPath path.now) }
{
    let _copy = path.copy()?;
    Ok(())
}

/// A path without its first parts.
pub fn behind(path: &TreePath, parts: usize) -> Result<TreePath, NoMemory>
    ensures rest { IfOk result (λ it. it ≡ drop parts path.now) }
    ensures path { OnOk result (IsPath path.now) }
{
    look_at(path)?;
    let mut rest = TreePath::root(path.parts().alloc());
    let first = parts.min(path.parts().len());
    for part in &path.parts().as_slice()[first..] {
        rest = rest.child(part)?;
    }
    Ok(rest)
}
