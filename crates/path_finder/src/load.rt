//! The text of a file.
ghost use Rattle.std.specs.Prelude.{◌≡◌, ◌≤◌, ◌<◌, length, IfOk, IfSome, IsErrOf, OnOk};
ghost use Rattle.std.specs.Option.{ForSome};
ghost use Rattle.base_types.specs.declared.limits.TheConstants.{LONGEST_SOURCE};
ghost use Rattle.tree_files.specs.Count.{Rose};
ghost use Rattle.tree_files.specs.Files.{node_at, bytes_of, IsFileAt};
ghost use Rattle.path_finder.specs.Faults.{HasFailed};

use base_types::{LONGEST_SOURCE, NoMemory, Seq, TreePath};
use std::alloc::{AllocError, Global};
use thiserror::Error;
use tree_files::{Tree, TreeFault};

/// Why the text of a file was not loaded.
#[derive(Clone, Copy, Debug, Error)]
pub enum LoadFault {
    /// A call of the tree was refused.
    #[error(transparent)]
    Tree(TreeFault),
    /// The file has more than 1,048,576 bytes.
    #[error("the file has more than 1,048,576 bytes")]
    TooLong,
}

impl From<AllocError> for LoadFault {
    ghost use Rattle.std.specs.Prelude.{◌≡◌};
    ghost use Rattle.path_finder.specs.declared.load.LoadFault.TheVariants as fault;
    ghost use Rattle.tree_files.specs.declared.tree.TreeFault.TheVariants as of_tree;

    ghost from_gives = { λ _ e. e ≡ fault.Tree of_tree.NoMemory };

    fn from(_e: AllocError) -> LoadFault {
        LoadFault::Tree(TreeFault::NoMemory)
    }
}

impl From<TreeFault> for LoadFault {
    ghost use Rattle.std.specs.Prelude.{◌≡◌};
    ghost use Rattle.path_finder.specs.declared.load.LoadFault.TheVariants as fault;

    ghost from_gives = { λ f e. e ≡ fault.Tree f };

    fn from(fault: TreeFault) -> LoadFault {
        LoadFault::Tree(fault)
    }
}

/// The bytes of a file, which are at most 1,048,576. A read that gives no byte ends the file.
///
/// The file is asked for in pieces. Nothing is listed.
pub fn load_text<T: Tree>(
    alloc: Global,
    tree: &mut T,
    file: &TreePath,
) -> Result<Seq<u8>, LoadFault>
    requires { ForSome (T.files tree.old) (λ f. IsFileAt f file.now) }
    ensures loaded { IfSome (T.files tree.old) (λ f. IfOk result (λ text. text ≡ bytes_of (node_at f file.now))) }
    ensures fits { IfOk result (λ text. length text ≤ LONGEST_SOURCE) }
    ensures too_long { IfSome (T.files tree.old) (λ f. IsErrOf result LoadFault.TooLong
        → LONGEST_SOURCE < length (bytes_of (node_at f file.now))) }
    ensures failed { HasFailed result → Rose (T.faults tree.old) (T.faults tree.new) }
    ensures too_long_faults { IsErrOf result LoadFault.TooLong → T.faults tree.new ≡ T.faults tree.old }
    ensures faults_stay { OnOk result (T.faults tree.new ≡ T.faults tree.old) }
    ensures files_stay { T.files tree.new ≡ T.files tree.old }
    ensures faults_grow { T.faults tree.old ≤ T.faults tree.new }
    ensures lists_stay { T.lists tree.new ≡ T.lists tree.old }
{
    let mut text = Vec::new(alloc);
    let mut buffer = [0; 4096];
    loop {
        let count = tree.read(file, text.len() as u64, &mut buffer)?;
        if count == 0 {
            return Ok(Seq::from_vec(text));
        }
        if count > LONGEST_SOURCE - text.len() {
            return Err(LoadFault::TooLong);
        }
        text.extend_from_slice(&buffer[..count])?;
    }
}
