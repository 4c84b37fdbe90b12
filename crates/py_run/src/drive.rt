//! The loop that does the work of a thread.
ghost use Rattle.std.specs.Prelude.{IfOk, OnOk, OnErr, IsErrOf};
ghost use Rattle.machine_shown.specs.Shown.{shown_first};
ghost use Rattle.meaning_runs.specs.Runs.{Safe, StandsIn};
ghost use Rattle.drive_account.specs.View.{View, Stays};
ghost use Rattle.drive_account.specs.Ending.{Holds};
ghost use Rattle.drive_account.specs.Asking.{RefusedAt, Asked, AllKept};
ghost use Rattle.py_run.specs.Overs.{Begun, Fresh, Overs, IsUnfailed};
ghost use Rattle.py_run.specs.Starts.{started};

use crate::start::{Start, first_want};
use crate::turn::give;
use crate::turns::Turn;
use crate::working::wanted;
use drive_account::{Halt, Port};
use drive_straight::Execution;
use meaning_state::Flow;
use std::alloc::Global;
use tree_files::Tree;

/// How the work of a thread is over.
#[derive(Drop)]
pub enum Over {
    /// No work is left.
    Came(Flow),
    /// A payment could not be made: one for a call of the tree, or another.
    Out { of_tree: bool },
    /// A call of the tree failed after a payment that left so much before it.
    Unread(u64),
}

/// Runs a thread to its end, but for what it still holds and its End event.
///
/// A count of the turns that would pass the end of its type is want of memory.
pub fn run<P: Port, T: Tree>(
    alloc: Global,
    port: &mut P,
    tree: &mut T,
    execution: &mut Execution,
    script: u32,
    start: Start,
    fuel: u64,
) -> Result<Over, Halt>
    requires begun { Begun (P.view port.old) script }
    requires fresh { Fresh script fuel execution.old }
    requires safe { Safe (shown_first script) (started script start) }
    ensures stays { Stays (P.view port.old) (P.view port.new) }
    ensures over { IfOk result (Overs (T.files tree.old) (T.faults tree.old) (T.faults tree.new)
        (started script start) fuel (P.view port.new).mine) }
    ensures unfailed { IfOk result (IsUnfailed (T.faults tree.old) (T.faults tree.new)) }
    ensures holds { OnOk result (Holds (P.view port.new) execution.new.held) }
    ensures part { OnErr result (StandsIn (T.files tree.old) (started script start) fuel
        (P.view port.new).mine) }
    ensures refused { IsErrOf result Halt.Refused → RefusedAt (P.view port.new) (T.files tree.old)
        (started script start) fuel }
    ensures asked { Asked (T.files tree.old) (T.files tree.new) (T.faults tree.old) (T.faults tree.new) }
    ensures kept { OnOk result (AllKept (T.lists tree.old) (T.lists tree.new) (P.view port.old).mine
        (P.view port.new).mine) }
{
    let first = match first_want(alloc, script, start) {
        Ok(want) => want,
        Err(_) => return Err(Halt::NoMemory),
    };
    let mut next = match wanted(alloc, first) {
        Ok(next) => next,
        Err(_) => return Err(Halt::NoMemory),
    };
    let mut turns: u64 = 0;
    'turns: loop {
        if turns == u64::MAX {
            drop(next);
            return Err(Halt::NoMemory);
        }
        turns += 1;
        let turn = match give(alloc, port, tree, execution, next) {
            Ok(turn) => turn,
            Err(halt) => return Err(halt),
        };
        match turn {
            Turn::On(after) => next = after,
            Turn::Came(flow) => return Ok(Over::Came(flow)),
            Turn::Out => {
                return Ok(Over::Out {
                    of_tree: execution.budget.of_tree,
                });
            }
            Turn::Unread(left) => return Ok(Over::Unread(left)),
        }
    }
}
