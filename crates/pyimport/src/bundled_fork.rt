//! A fork whose bundles stand as folders.
ghost use Rattle.std.specs.Prelude.{◌≡◌, ◌≤◌, IfOk};
ghost use Rattle.tree_files.specs.Count.{raised};
ghost use Rattle.bundle_hook.specs.Expand.{expand_told};

use base_types::NoMemory;
use bundle_hook::BundleTree;
use std::alloc::Global;
use tree_files::{Grove, Tree};

/// A fork of a tree, in which each bundle stands as the folder that it lists. Its two counts are 0.
pub fn fork_bundled<T: Grove>(alloc: Global, tree: &mut T) -> Result<BundleTree<T>, NoMemory>
    ensures files { IfOk result (λ it. ⟦<BundleTree<T> as Tree>⟧.files it ≡ expand_told (T.files tree.old)) }
    ensures faults { IfOk result (λ it. ⟦<BundleTree<T> as Tree>⟧.faults it ≡ 0) }
    ensures lists { IfOk result (λ it. ⟦<BundleTree<T> as Tree>⟧.lists it ≡ 0) }
    ensures files_stay { T.files tree.new ≡ T.files tree.old }
    ensures faults_stay { T.faults tree.new ≡ T.faults tree.old }
    ensures lists_stay { T.lists tree.new ≡ T.lists tree.old }
{
    let fork = tree.fork()?;
    Ok(BundleTree::new(alloc, fork))
}

/// Adds to a tree what was counted by a fork whose bundles stand as folders. Of the fork's lists only
/// those are added that were of folders of the tree, so the folders of a bundle count for none.
pub fn take_in<T: Grove>(tree: &mut T, fork: BundleTree<T>)
    ensures files_stay { T.files tree.new ≡ T.files tree.old }
    ensures faults { T.faults tree.new ≡ raised (T.faults tree.old) (⟦<BundleTree<T> as Tree>⟧.faults fork) }
    ensures faults_grow { T.faults tree.old ≤ T.faults tree.new }
    ensures lists { T.lists tree.new ≤ raised (T.lists tree.old) (⟦<BundleTree<T> as Tree>⟧.lists fork) }
{
    tree.absorb(fork.close());
}
