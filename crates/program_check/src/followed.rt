//! What the entries of a stored trace are compared with.
ghost use Rattle.std.specs.Prelude.{◌≡◌, ◌≤◌, IfOk, IsErrOf, Some};
ghost use Rattle.tree_files.specs.Count.{Rose};
ghost use Rattle.tree_files.specs.Files.{Files};
ghost use Rattle.drive_account.specs.Replay.{pairs_of};
ghost use Rattle.drive_account.specs.Following.{Answers};
ghost use Rattle.program_run.specs.Alone.{Means};

use machine_events::{Follow, Pair};
use std::alloc::Global;
use tree_files::{Tree, TreeFault};

/// Scripts with which a recorded list of events can be compared.
pub trait Followed {
    // What a text means as the script of a number.
    ghost means: { Means };

    /// Whether a recorded list of events with their replies follows what the script of this number and
    /// text means with this fuel: yes, or the least place that parts.
    ///
    /// # Errors
    ///
    /// `Failed` only where a call of the tree failed.
    fn follow<T: Tree>(
        alloc: Global,
        tree: &mut T,
        script: u32,
        text: &[u8],
        fuel: u64,
        own: &[Pair],
    ) -> Result<Follow, TreeFault>
        ensures answers { (files : Files) → T.files tree.old ≡ Some files
            → IfOk result (Answers files script (means script text.now) fuel (pairs_of own.now)) }
        ensures failed { IsErrOf result TreeFault.Failed → Rose (T.faults tree.old) (T.faults tree.new) }
        ensures files_stay { T.files tree.new ≡ T.files tree.old }
        ensures faults_grow { T.faults tree.old ≤ T.faults tree.new };
}
