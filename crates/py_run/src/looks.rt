//! Turns that look into the tree.
ghost use Rattle.std.specs.Prelude.{ℕ, IfOk, IsErrOf, Option, Some, None, true};
ghost use Rattle.std.specs.Option.{ForSome};
ghost use Rattle.tree_files.specs.Count.{Rose};
ghost use Rattle.tree_files.specs.Files.{Files, IsFileAt};
ghost use Rattle.meaning_runs.specs.Runs.{Run, Pays, Looks, TextOf};
ghost use Rattle.find_load.specs.declared.words.In.TheVariants as given;
ghost use Rattle.meaning_script.specs.Imports.{opens};
ghost use Rattle.py_frames.specs.declared.want.Want.TheVariants as wants;
ghost use Rattle.py_run.specs.Turns.{Looked, IsFileStamp, remains, feeds};
ghost use Rattle.py_run.specs.Trees.{LooksUp};

use crate::turns::Turn;
use crate::working::feed;
use base_types::TreePath;
use drive_account::Halt;
use drive_straight::Execution;
use find_load::In;
use path_finder::{LoadFault, load_text};
use py_frames::Procedure;
use std::alloc::Global;
use tree_files::{Stamp, Tree, TreeFault};

/// A call of the tree failed: the script stands where it paid for it.
fn unread(execution: &Execution) -> Result<Turn, Halt>
    ensures refused { IsErrOf result Halt.Refused → ⊥ }
    ensures looked { IfOk result (λ turn. (files : Option Files) (old new : ℕ) (run : Run) → Rose old new
        → Looked files old new execution.now.budget execution.now run turn) }
{
    match execution.budget.read {
        Some(left) => Ok(Turn::Unread(left)),
        None => Err(Halt::NoMemory),
    }
}

/// The text of a file that stands there, for a unit.
fn load<T: Tree>(
    alloc: Global,
    tree: &mut T,
    execution: &mut Execution,
    path: &TreePath,
    procedure: Procedure,
) -> Result<Turn, Halt>
    requires file { ForSome (T.files tree.old) (λ f. IsFileAt f path.now) }
    ensures { LooksUp (T.files tree.old) (T.files tree.new) (T.faults tree.old)
        (T.faults tree.new) (T.lists tree.old) (T.lists tree.new)
        execution.old (Pays true 1 (Looks (TextOf path.now)
        (λ text. feeds execution.old procedure (given.Opened (Some text)))))
        execution.new result }
{
    if !execution.budget.pay(true, 1) {
        drop(procedure);
        return Ok(Turn::Out);
    }
    match load_text(alloc, tree, path) {
        Ok(text) => feed(alloc, execution, procedure, In::Opened(Some(Some(text)))),
        Err(LoadFault::TooLong) => feed(alloc, execution, procedure, In::Opened(Some(None))),
        Err(LoadFault::Tree(TreeFault::Failed)) => {
            drop(procedure);
            unread(execution)
        }
        Err(LoadFault::Tree(TreeFault::NoMemory)) => {
            drop(procedure);
            Err(Halt::NoMemory)
        }
    }
}

/// The text of a file, if one stands there by what was seen.
fn seen<T: Tree>(
    alloc: Global,
    tree: &mut T,
    execution: &mut Execution,
    path: &TreePath,
    procedure: Procedure,
    stamp: Stamp,
) -> Result<Turn, Halt>
    requires file { IsFileStamp stamp → ForSome (T.files tree.old) (λ f. IsFileAt f path.now) }
    ensures { LooksUp (T.files tree.old) (T.files tree.new) (T.faults tree.old)
        (T.faults tree.new) (T.lists tree.old) (T.lists tree.new)
        execution.old (opens path.now (feeds execution.old procedure (given.Opened None))
        (λ text. feeds execution.old procedure (given.Opened (Some text))) stamp)
        execution.new result }
{
    match stamp {
        Stamp::File(_) => load(alloc, tree, execution, path, procedure),
        Stamp::Dir(_) => feed(alloc, execution, procedure, In::Opened(None)),
        Stamp::Absent => feed(alloc, execution, procedure, In::Opened(None)),
    }
}

/// The text of a file, if one stands there.
pub fn file<T: Tree>(
    alloc: Global,
    tree: &mut T,
    execution: &mut Execution,
    path: &TreePath,
    procedure: Procedure,
) -> Result<Turn, Halt>
    ensures { LooksUp (T.files tree.old) (T.files tree.new) (T.faults tree.old)
        (T.faults tree.new) (T.lists tree.old) (T.lists tree.new)
        execution.old (remains execution.old (wants.File path.now procedure))
        execution.new result }
{
    match tree.stamp(path) {
        Ok(stamp) => seen(alloc, tree, execution, path, procedure, stamp),
        Err(TreeFault::Failed) => {
            drop(procedure);
            unread(execution)
        }
        Err(TreeFault::NoMemory) => {
            drop(procedure);
            Err(Halt::NoMemory)
        }
    }
}
