ghost use Rattle.std.specs.Prelude.{◌≡◌, IfOk};

use base_types::{Exact, NoMemory, Seq, TreePath};

/// One edit of a tree, whose path has at least one part.
#[derive(Clone, Drop)]
pub enum Edit {
    /// The path becomes a file with these bytes. What lies below it goes, and each proper prefix
    /// that is no directory becomes one, with time 0.
    File { path: TreePath, bytes: Seq<u8> },
    /// The path becomes a directory with this time, and so do its proper prefixes as for a file.
    /// What lies below it stays.
    Dir { path: TreePath, time: u64 },
    /// The path and all that lies below it goes.
    Remove { path: TreePath },
}

impl Exact for Edit {
    fn copy(&self) -> Result<Edit, NoMemory> {
        Ok(self.clone()?)
    }
}
