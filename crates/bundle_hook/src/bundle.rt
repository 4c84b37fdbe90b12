//! What is packed into a bundle, and what is read of one.
use base_types::{NoMemory, Seq, TreePath};
use thiserror::Error;

/// A file that is to stand in a bundle.
#[derive(Drop)]
pub struct Packed {
    /// Where it stands below the folder that is packed.
    pub path: TreePath,
    pub bytes: Seq<u8>,
}

/// A file that stands in a bundle.
#[derive(Drop)]
pub struct Item {
    /// Where it stands below the folder that was packed.
    pub path: TreePath,
    /// Where its bytes begin in the bundle.
    pub at: u64,
    /// How many bytes it has.
    pub size: u64,
}

/// What stands in a bundle before the data.
#[derive(Drop)]
pub struct Index {
    /// How many bytes stand before the data.
    pub head: u64,
    /// The files, in the order of their paths.
    pub items: Seq<Item>,
}

/// Why no bundle was written.
#[derive(Clone, Copy, Debug, Error)]
pub enum BundleError {
    /// No bundle belongs to the files.
    #[error("no bundle belongs to these files")]
    Unfit,
    #[error("out of memory")]
    NoMemory,
}

impl From<NoMemory> for BundleError {
    ghost use Rattle.std.specs.Prelude.{◌≡◌};
    ghost use Rattle.bundle_hook.specs.declared.bundle.BundleError.TheVariants as error;

    ghost from_gives = { λ _ e. e ≡ error.NoMemory };

    fn from(_e: NoMemory) -> BundleError {
        BundleError::NoMemory
    }
}
