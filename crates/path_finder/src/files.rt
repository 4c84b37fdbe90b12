//! The tree path of a file.
ghost use Rattle.std.specs.Prelude.{◌≡◌, IfOk};
ghost use Rattle.path_finder.specs.Entries.{path_of};

use base_types::{NoMemory, Text, TreePath};

/// The tree path that a text spells, if it is one.
pub fn path_of(text: &Text) -> Result<Option<TreePath>, NoMemory>
    ensures { IfOk result (λ it. it ≡ path_of text.now) }
{
    TreePath::read(text)
}
