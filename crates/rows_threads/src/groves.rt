//! A tree that counts its forks.
use crate::gates::Flag;
use base_types::{NoMemory, Texts, TreePath};
use tree_files::{Grove, Stamp, Tree, TreeFault};

/// A tree of which so many forks can be made, and none more. It raises a flag at each.
#[derive(Drop)]
pub struct Forked<'a, T: Grove> {
    pub tree: T,
    pub most: u64,
    pub forks: &'a Flag,
}

impl<T: Grove> Tree for Forked<'_, T> {
    ghost files = { λ t. T.files t.tree };

    ghost faults = { λ t. T.faults t.tree };

    ghost lists = { λ t. T.lists t.tree };

    fn stamp(&mut self, path: &TreePath) -> Result<Stamp, TreeFault> {
        self.tree.stamp(path)
    }

    fn list(&mut self, dir: &TreePath) -> Result<Texts, TreeFault> {
        self.tree.list(dir)
    }

    fn read(&mut self, file: &TreePath, at: u64, into: &mut [u8]) -> Result<usize, TreeFault> {
        self.tree.read(file, at, into)
    }
}

impl<T: Grove> Grove for Forked<'_, T> {
    fn fork(&mut self) -> Result<Self, NoMemory> {
        if self.forks.raised() >= self.most {
            return Err(NoMemory);
        }
        self.forks.raise();
        Ok(Forked {
            tree: self.tree.fork()?,
            most: self.most,
            forks: self.forks,
        })
    }

    fn absorb(&mut self, child: Self) {
        self.tree.absorb(child.tree);
    }
}
