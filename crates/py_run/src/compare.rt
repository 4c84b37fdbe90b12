//! A script over a recorded list of its events.
ghost use Rattle.std.specs.Prelude.{◌≡◌, ◌≤◌, IfOk, IsErrOf, Some};
ghost use Rattle.tree_files.specs.Count.{Rose};
ghost use Rattle.tree_files.specs.Files.{Files};
ghost use Rattle.drive_account.specs.Replay.{pairs_of};
ghost use Rattle.drive_account.specs.Following.{Answers};
ghost use Rattle.meaning_script.specs.Meaning.{meaning};
ghost use Rattle.step_calls.specs.Sources.{sources};

use crate::drive::{Over, run};
use crate::script::copy_of;
use crate::start::Start;
use drive_account::{Halt, ReplayPort, budget_by, ends_came, ends_out, refused};
use drive_straight::Execution;
use machine_events::{Follow, Pair};
use std::alloc::Global;
use tree_files::{Tree, TreeFault};

/// Whether a recorded list of events with their replies follows what a script means with this fuel:
/// yes, or the least place that parts. The End counts as the last event.
///
/// The budget is the fuel, and where the first End of the list is a Read, what was paid before it.
///
/// # Errors
///
/// `Failed` only where a call of the tree failed.
pub fn follow<T: Tree>(
    alloc: Global,
    tree: &mut T,
    script: u32,
    text: &[u8],
    fuel: u64,
    own: &[Pair],
) -> Result<Follow, TreeFault>
    ensures answers { (files : Files) → T.files tree.old ≡ Some files
        → IfOk result (Answers files script (meaning sources script text.now) fuel (pairs_of own.now)) }
    ensures failed { IsErrOf result TreeFault.Failed → Rose (T.faults tree.old) (T.faults tree.new) }
    ensures files_stay { T.files tree.new ≡ T.files tree.old }
    ensures faults_grow { T.faults tree.old ≤ T.faults tree.new }
{
    let copy = copy_of(alloc, text)?;
    let budget = budget_by(fuel, own);
    let mut port = ReplayPort::new(script, own);
    let mut execution = Execution::first(alloc, script, budget);
    let start = Start::Script(copy);
    match run(
        alloc,
        &mut port,
        tree,
        &mut execution,
        script,
        start,
        budget,
    ) {
        Ok(Over::Came(flow)) => ends_came(&mut port, flow, fuel, budget),
        Ok(Over::Out { of_tree }) => ends_out(
            &mut port,
            &mut execution.held,
            of_tree,
            fuel,
            budget,
        ),
        Ok(Over::Unread(_)) => Err(TreeFault::Failed),
        Err(Halt::Refused) => refused(&port),
        Err(Halt::NoMemory) => Err(TreeFault::NoMemory),
    }
}
