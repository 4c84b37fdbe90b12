//! A tree in which bundles stand as folders.
ghost use Rattle.std.specs.Prelude.{◌≡◌, ◌≤◌, ◌+◌, length, IfOk, IfSome, IsErrOf, OnOk, [], Option};
ghost use Rattle.std.specs.Option.{ForSome};
ghost use Rattle.tree_files.specs.Count.{Rose, raised};
ghost use Rattle.tree_files.specs.Files.{IsTree, IsDirAt, IsFileAt, IsListing, IsRead, node_at, stamp_of, bytes_of};
ghost use Rattle.bundle_hook.specs.Expand.{expand_told};
ghost use Rattle.bundle_hook.specs.Indexes.{AreRight, AreRight-prop, HasAnswered};

use crate::found::{inner_at, names_at, read_at, stamp_of};
use crate::kept::Kept;
use crate::place::{Place, bundle_for, place_of};
use base_types::{NoMemory, Seq, Texts, TreePath};
use std::alloc::Global;
use tree_files::{Grove, Stamp, Tree, TreeFault};

/// A tree whose files are those of another one, in which each bundle stands as the folder that it lists.
///
/// The index of a bundle is read once, and kept while its size stays the same, which is asked where a call is about the
/// bundle itself. A call on a path below it is answered by the kept index, and a file's bytes are read at their place.
#[derive(Drop)]
pub struct BundleTree<T: Tree> {
    alloc: Global,
    tree: T,
    kept: Seq<Kept>,
    /// How many lists were of folders in bundles, which stops at the greatest u64.
    more: u64,
    ghost right: { AreRight (T.files tree) kept } by { AreRight-prop (T.files tree) kept },
    ghost answered: { HasAnswered (T.files tree) kept },
}

impl<T: Tree> BundleTree<T> {
    /// The tree with its bundles as folders. Its count of lists is that of the tree inside, which stops at the greatest
    /// u64. It takes no memory.
    pub fn new(alloc: Global, tree: T) -> BundleTree<T>
        ensures files { ⟦<BundleTree<T> as Tree>⟧.files result ≡ expand_told (T.files tree) }
        ensures faults { ⟦<BundleTree<T> as Tree>⟧.faults result ≡ T.faults tree }
        ensures lists { ⟦<BundleTree<T> as Tree>⟧.lists result ≡ raised (T.lists tree) 0 }
        ensures tree { result.tree ≡ tree }
    {
        BundleTree {
            alloc,
            tree,
            kept: Seq::new(alloc),
            more: 0,
        }
    }

    /// The tree inside, whose faults are those of this tree, and whose lists are at most those. It takes no memory.
    pub fn close(self) -> T
        ensures tree { result ≡ self.tree }
        ensures faults { T.faults result ≡ ⟦<BundleTree<T> as Tree>⟧.faults self }
        ensures lists { raised (T.lists result) 0 ≤ ⟦<BundleTree<T> as Tree>⟧.lists self }
    {
        self.tree
    }
}

impl<T: Tree> Tree for BundleTree<T> {
    ghost files = { λ b. expand_told (T.files b.tree) };

    ghost faults = { λ b. T.faults b.tree };

    ghost lists = { λ b. raised (T.lists b.tree) b.more };

    fn stamp(&mut self, path: &TreePath) -> Result<Stamp, TreeFault> {
        match place_of(&mut self.tree, &mut self.kept, path)? {
            Place::Outside(stamp) => Ok(stamp),
            Place::Inside(found) => Ok(stamp_of(inner_at(&self.kept, &found, path))),
        }
    }

    fn list(&mut self, dir: &TreePath) -> Result<Texts, TreeFault> {
        match bundle_for(&mut self.tree, &mut self.kept, dir)? {
            None => {
                let names = self.tree.list(dir)?;
                Ok(names)
            }
            Some(found) => {
                let names = names_at(&self.kept, &found, dir)?;
                self.more = self.more.saturating_add(1);
                Ok(names)
            }
        }
    }

    fn read(&mut self, file: &TreePath, at: u64, into: &mut [u8]) -> Result<usize, TreeFault> {
        match bundle_for(&mut self.tree, &mut self.kept, file)? {
            None => {
                let count = self.tree.read(file, at, into)?;
                Ok(count)
            }
            Some(found) => {
                let count = read_at(&mut self.tree, &self.kept, &found, file, at, into)?;
                Ok(count)
            }
        }
    }
}

impl<T: Grove> Grove for BundleTree<T> {
    fn fork(&mut self) -> Result<BundleTree<T>, NoMemory> {
        Ok(BundleTree::new(self.alloc, self.tree.fork()?))
    }

    fn absorb(&mut self, child: BundleTree<T>) {
        self.more = self.more.saturating_add(child.more);
        self.tree.absorb(child.tree);
    }
}
