//! A tree in memory of which no call fails.
ghost use Rattle.std.specs.Prelude.{◌≡◌, ◌≤◌, [], IfOk, Some};
ghost use Rattle.tree_files.specs.Files.{Files};
ghost use Rattle.tree_files.specs.MemFiles.{mem_files};

use base_types::{NoMemory, Texts, TreePath};
use tree_files::{Grove, MemTree, Stamp, Tree, TreeFault};

/// A tree in memory. No call of it is to fail, so its count of faults is 0 at every moment.
#[derive(Drop)]
pub struct MadeTree {
    tree: MemTree,
    /// How many calls of `list` answered names, of this tree and of those that it took in. It stops
    /// at the greatest u64.
    lists: u64,
    ghost never_fails: { tree.due.named ≡ [] },
}

impl MadeTree {
    /// The files of a tree in memory of which no call is to fail.
    pub fn of(tree: MemTree) -> MadeTree
        requires { tree.due.named ≡ [] }
        ensures files { ⟦<MadeTree as Tree>⟧.files result ≡ ⟦<MemTree as Tree>⟧.files tree }
        ensures lists { ⟦<MadeTree as Tree>⟧.lists result ≡ 0 }
    {
        MadeTree { tree, lists: 0 }
    }
}

impl Tree for MadeTree {
    ghost files = { λ t. Some (mem_files t.tree.nodes) };

    ghost faults = { λ _. 0 };

    ghost lists = { λ t. t.lists };

    fn stamp(&mut self, path: &TreePath) -> Result<Stamp, TreeFault> {
        self.tree.stamp(path)
    }

    fn list(&mut self, dir: &TreePath) -> Result<Texts, TreeFault> {
        let names = self.tree.list(dir)?;
        self.lists = self.lists.saturating_add(1);
        Ok(names)
    }

    fn read(&mut self, file: &TreePath, at: u64, into: &mut [u8]) -> Result<usize, TreeFault> {
        self.tree.read(file, at, into)
    }
}

impl Grove for MadeTree {
    fn fork(&mut self) -> Result<MadeTree, NoMemory> {
        Ok(MadeTree {
            tree: self.tree.fork()?,
            lists: 0,
        })
    }

    fn absorb(&mut self, child: MadeTree) {
        self.lists = self.lists.saturating_add(child.lists);
    }
}
