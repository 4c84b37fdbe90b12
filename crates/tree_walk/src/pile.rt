//! What a walk has taken, and what it has still to take.
use base_types::{Seq, Texts, TreePath};
use bundle_hook::Packed;

/// A folder whose names are taken, from one on.
#[derive(Drop)]
pub struct Folder {
    pub dir: TreePath,
    pub names: Texts,
    pub at: usize,
}

/// A walk through a folder.
#[derive(Drop)]
pub struct Walk {
    /// How many parts the path of the folder has.
    pub parts: usize,
    /// The folders that are still to be gone through, of which the last one comes first.
    pub pile: Seq<Folder>,
    /// The files that were taken.
    pub files: Seq<Packed>,
    /// How many bytes of files may still come.
    pub room: usize,
}
