//! What one line of a bundle says of a file.
ghost use Rattle.std.specs.Prelude.{◌≡◌, ◌↔◌, IsTrue};

use base_types::{Same, TreePath};

/// The path of a file and how many bytes it has.
#[derive(Clone, Drop)]
pub(crate) struct Entry {
    pub(crate) path: TreePath,
    pub(crate) size: u64,
}

impl Same for Entry {
    fn is_same(&self, other: &Entry) -> bool {
        self.size == other.size && self.path.is_same(&other.path)
    }
}
