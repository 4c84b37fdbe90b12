//! The bytes of a file.
ghost use Rattle.std.specs.Prelude.{◌≡◌, ◌≤◌, ◌<◌, length, IfOk, IfSome, IsErrOf, OnOk};
ghost use Rattle.std.specs.Option.{ForSome};
ghost use Rattle.tree_files.specs.Count.{Rose};
ghost use Rattle.tree_files.specs.Files.{node_at, IsFileAt};
ghost use Rattle.tree_walk.specs.Reading.{IsLoaded, IsWithin};

use base_types::{Seq, TreePath};
use std::alloc::Global;
use tree_files::{Tree, TreeFault};

/// The size of a piece that is asked for.
const PIECE: usize = 4096;

/// The bytes of a file that has at most so many; none where it has more. A read that gives no byte
/// ends the file.
///
/// The file is asked for in pieces, from its front. Nothing is listed.
///
/// # Errors
///
/// `Failed` only where a call of the tree failed.
pub fn load_bytes<T: Tree>(
    alloc: Global,
    tree: &mut T,
    file: &TreePath,
    most: usize,
) -> Result<Option<Seq<u8>>, TreeFault>
    requires { ForSome (T.files tree.old) (λ f. IsFileAt f file.now) }
    ensures loaded { IfSome (T.files tree.old) (λ f. IfOk result (IsLoaded most (node_at f file.now))) }
    ensures fits { IfOk result (IsWithin most) }
    ensures failed { IsErrOf result TreeFault.Failed → Rose (T.faults tree.old) (T.faults tree.new) }
    ensures faults_stay { OnOk result (T.faults tree.new ≡ T.faults tree.old) }
    ensures files_stay { T.files tree.new ≡ T.files tree.old }
    ensures faults_grow { T.faults tree.old ≤ T.faults tree.new }
    ensures lists_stay { T.lists tree.new ≡ T.lists tree.old }
{
    let mut bytes = Vec::new(alloc);
    let mut piece = [0; PIECE];
    loop {
        let count = tree.read(file, bytes.len() as u64, &mut piece)?;
        if count == 0 {
            return Ok(Some(Seq::from_vec(bytes)));
        }
        if count > most - bytes.len() {
            return Ok(None);
        }
        bytes.extend_from_slice(&piece[..count])?;
    }
}
