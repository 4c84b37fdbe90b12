//! The nodes of a tree in memory, which its forks share.
ghost use Rattle.std.specs.Prelude.{◌≡◌, IfOk, OnOk, OnErr};
ghost use Rattle.std.specs.Arc.{arc_value};
ghost use Rattle.std.specs.FinMap.{insert};
ghost use Rattle.tree_files.specs.MemFiles.{map_files, mem_files};

use crate::tree::Node;
use base_types::{NoMemory, TreePath};
use std::alloc::Global;
use std::collections::BTreeMap;
use std::sync::Arc;

/// Nodes by their paths, with one owner or several. Nodes with several owners are copied before they change.
pub(crate) struct Nodes {
    held: Arc<BTreeMap<TreePath, Node>>,
}

impl Nodes {
    /// The nodes of a map. An `Err` comes for want of memory alone.
    pub(crate) fn of(alloc: Global, map: BTreeMap<TreePath, Node>) -> Result<Nodes, NoMemory>
        ensures { IfOk result (λ it. mem_files it ≡ map_files map) }
    {
        Ok(Nodes {
            held: Arc::new(alloc, map)?,
        })
    }

    /// The map of the nodes.
    pub(crate) fn map(&self) -> &BTreeMap<TreePath, Node>
        ensures { result.now ≡ arc_value self.now.held }
    {
        &self.held
    }

    /// One owner more.
    pub(crate) fn share(&self) -> Result<Nodes, NoMemory>
        ensures { IfOk result (λ it. mem_files it ≡ mem_files self.now) }
    {
        Ok(Nodes {
            held: self.held.clone()?,
        })
    }

    /// A map of the same nodes. An `Err` comes for want of memory alone.
    fn copied(&self) -> Result<BTreeMap<TreePath, Node>, NoMemory>
        ensures { IfOk result (λ it. map_files it ≡ mem_files self.now) }
    {
        Ok(self.map().clone()?)
    }

    /// Puts a node at a path. An `Err` changes nothing.
    pub(crate) fn put(&mut self, path: TreePath, node: Node) -> Result<(), NoMemory>
        ensures ok { OnOk result (mem_files self.new ≡ insert (mem_files self.old) path node) }
        ensures err { OnErr result (mem_files self.new ≡ mem_files self.old) }
    {
        let alloc = path.parts().alloc();
        if let Some(map) = Arc::get_mut(&mut self.held) {
            map.insert(path, node)?;
            return Ok(());
        }
        let mut map = self.copied()?;
        map.insert(path, node)?;
        self.held = Arc::new(alloc, map)?;
        Ok(())
    }
}

impl Drop for Nodes {
    fn drop(self) {
        let Nodes { held } = self;
        drop(held);
    }
}
