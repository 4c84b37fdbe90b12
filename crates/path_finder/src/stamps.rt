//! Looks at what stands at a path.
ghost use Rattle.std.specs.Prelude.{◌≡◌, ◌≤◌, IfOk, IsErrOf, OnOk, true};
ghost use Rattle.std.specs.Option.{ForSome};
ghost use Rattle.tree_files.specs.Count.{Rose};
ghost use Rattle.tree_files.specs.Files.{IsDirAt};
ghost use Rattle.path_finder.specs.Steps.{Shows, is_dir_stamp};

use base_types::TreePath;
use tree_files::{Stamp, Tree, TreeFault};

/// What stands at a path.
pub fn stamp_at<T: Tree>(tree: &mut T, path: &TreePath) -> Result<Stamp, TreeFault>
    ensures reads { IfOk result (Shows (T.files tree.old) path.now) }
    ensures dir { IfOk result (λ s. is_dir_stamp s ≡ true → ForSome (T.files tree.old) (λ f. IsDirAt f path.now)) }
    ensures failed { IsErrOf result TreeFault.Failed → Rose (T.faults tree.old) (T.faults tree.new) }
    ensures faults_stay { OnOk result (T.faults tree.new ≡ T.faults tree.old) }
    ensures files_stay { T.files tree.new ≡ T.files tree.old }
    ensures faults_grow { T.faults tree.old ≤ T.faults tree.new }
    ensures lists_stay { T.lists tree.new ≡ T.lists tree.old }
{
    match tree.stamp(path) {
        Ok(stamp) => Ok(stamp),
        Err(fault) => Err(fault),
    }
}
