//! What is kept of a file that may be a bundle.
ghost use Rattle.std.specs.Option.{ForSome};
ghost use Rattle.bundle_hook.specs.Things.{AscendItems};

use crate::Index;
use base_types::TreePath;

/// What was read of a file whose name is that of a bundle.
#[derive(Drop)]
pub struct Kept {
    pub path: TreePath,
    /// How many bytes it had.
    pub size: u64,
    /// Its index; None where it was no bundle.
    pub index: Option<Index>,
    ghost ascend: { ForSome index (λ it. AscendItems it.items) },
}
