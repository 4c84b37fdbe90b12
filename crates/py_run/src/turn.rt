//! One turn: what is wanted is given.
ghost use Rattle.drive_account.specs.View.{View};
ghost use Rattle.drive_straight.specs.Remains.{due};
ghost use Rattle.py_run.specs.Turns.{Stood, remains};
ghost use Rattle.py_run.specs.Trees.{GivesDue};

use crate::find::find;
use crate::looks::file;
use crate::makes::{bind, call, read, read_member, wait};
use crate::turns::Turn;
use crate::working::{go_straight, work_on};
use drive_account::{Halt, Port};
use drive_straight::{Execution, Next};
use py_frames::Want;
use std::alloc::Global;
use step_simple::is_local_name;
use tree_files::Tree;

/// Gives what is wanted.
fn give_wanted<P: Port, T: Tree>(
    alloc: Global,
    port: &mut P,
    tree: &mut T,
    execution: &mut Execution,
    want: Want,
) -> Result<Turn, Halt>
    requires stood { Stood (P.view port.old) execution.old.held (remains execution.old want) }
    ensures { GivesDue (P.view port.old) (P.view port.new) (T.files tree.old) (T.files tree.new) (T.faults tree.old)
        (T.faults tree.new) (T.lists tree.old) (T.lists tree.new) execution.old.budget
        (remains execution.old want) execution.new result }
{
    match want {
        Want::Call(event, on) => call(alloc, port, execution, event, on),
        Want::Wait(item) => wait(alloc, port, execution, item),
        Want::Find {
            name,
            path,
            procedure,
        } => find(alloc, port, tree, execution, name, path, procedure),
        Want::File(path, procedure) => file(alloc, tree, execution, &path, procedure),
        other => work_on(alloc, execution, other),
    }
}

/// Gives what comes next.
pub fn give<P: Port, T: Tree>(
    alloc: Global,
    port: &mut P,
    tree: &mut T,
    execution: &mut Execution,
    next: Next,
) -> Result<Turn, Halt>
    requires stood { Stood (P.view port.old) execution.old.held (due next execution.old) }
    ensures { GivesDue (P.view port.old) (P.view port.new) (T.files tree.old) (T.files tree.new) (T.faults tree.old)
        (T.faults tree.new) (T.lists tree.old) (T.lists tree.new) execution.old.budget
        (due next execution.old) execution.new result }
{
    match next {
        Next::ReadGlobal(name) => read(alloc, port, execution, name),
        Next::Wanted(want) => give_wanted(alloc, port, tree, execution, want.into_inner()),
        Next::Store(name, value) => {
            if is_local_name(&execution.thread, &name) {
                return go_straight(alloc, execution, Next::Store(name, value));
            }
            bind(alloc, port, execution, name, value)
        }
        Next::Member(module, name) => read_member(alloc, port, execution, module, name),
        next => go_straight(alloc, execution, next),
    }
}
