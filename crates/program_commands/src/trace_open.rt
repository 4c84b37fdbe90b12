//! The file of a stored trace.
ghost use Rattle.std.specs.Prelude.{◌≡◌, ◌≤◌, IfOk, IfErr};
ghost use Rattle.program_commands.specs.Opening.{Names, NoTrace};
ghost use Rattle.tree_walk.specs.declared.open.Read.TheVariants as read;

use base_types::{Seq, Text};
use program_run::{Unopened, joined, refused};
use std::alloc::Global;
use tree_files::{Tree, TreeFault};
use tree_walk::{Read, open_file};

/// The most bytes that a stored trace has.
pub const LONGEST_TRACE: usize = 268_435_456;

/// Opens the trace that a word names: a file of at most 268,435,456 bytes, read once. What is no such
/// file is refused with the line about it.
pub fn open_trace<T: Tree>(alloc: Global, tree: &mut T, word: &Text) -> Result<Seq<u8>, Unopened>
    ensures ok { IfOk result (λ bytes. Names (T.files tree.old) word.now (read.Bytes bytes)) }
    ensures err { IfErr result (NoTrace (T.files tree.old) word.now (T.faults tree.old) (T.faults tree.new)) }
    ensures files_stay { T.files tree.new ≡ T.files tree.old }
    ensures faults_grow { T.faults tree.old ≤ T.faults tree.new }
    ensures lists_stay { T.lists tree.new ≡ T.lists tree.old }
{
    match open_file(alloc, tree, word, LONGEST_TRACE) {
        Ok(Read::Bytes(bytes)) => Ok(bytes),
        Ok(Read::Missing) => {
            let line = joined(alloc, "pyimport: cannot open trace '", word.as_str(), "'");
            Err(refused(line))
        }
        Ok(Read::TooLong) => {
            let line = joined(alloc, "pyimport: trace '", word.as_str(), "' is too long");
            Err(refused(line))
        }
        Err(TreeFault::Failed) => Err(Unopened::Unread),
        Err(TreeFault::NoMemory) => Err(Unopened::NoMemory),
    }
}
