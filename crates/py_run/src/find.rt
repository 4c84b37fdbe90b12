//! Turns that search.
ghost use Rattle.std.specs.Prelude.{◌≡◌, ℕ, List, IfOk, IsErrOf, Option};
ghost use Rattle.find_load.specs.declared.words.In.TheVariants as given;
ghost use Rattle.machine_events.specs.declared.event.Event.{Event};
ghost use Rattle.machine_events.specs.declared.event.Reply.{Reply};
ghost use Rattle.meaning_runs.specs.Runs.{Run};
ghost use Rattle.py_frames.specs.declared.want.Want.TheVariants as wants;
ghost use Rattle.drive_account.specs.View.{View};
ghost use Rattle.tree_files.specs.Files.{Files};
ghost use Rattle.drive_account.specs.Searching.{AfterSearch, CountsSearch};
ghost use Rattle.py_run.specs.Turns.{Stood, After, Counts, remains, feeds};
ghost use Rattle.py_run.specs.Trees.{GivesDue};

use crate::turns::Turn;
use crate::working::feed;
use drive_account::{Halt, Port, SearchEnd, seek};
use drive_straight::Execution;
use find_load::In;
use py_frames::Procedure;
use py_value::Items;
use spec_core::Dotted;
use std::alloc::Global;
use tree_files::Tree;

/// What was found is what the procedure is fed.
fn found(
    alloc: Global,
    execution: &mut Execution,
    procedure: Procedure,
    over: SearchEnd,
) -> Result<Turn, Halt>
    ensures after { IfOk result (λ turn. (files : Option Files) (whole : Run) (fuel : ℕ) (mine : List (Event × Reply))
        → AfterSearch files whole fuel mine execution.old.budget
        (λ answer. feeds execution.old procedure (given.Found answer)) over
        → After files whole fuel mine execution.new turn) }
    ensures counts { IfOk result (λ turn. (old new : ℕ) → CountsSearch old new over → Counts old new turn) }
    ensures held { execution.new.held ≡ execution.old.held }
    ensures refused { IsErrOf result Halt.Refused → ⊥ }
{
    match over {
        SearchEnd::Found(answer) => feed(alloc, execution, procedure, In::Found(answer)),
        SearchEnd::Out => {
            drop(procedure);
            Ok(Turn::Out)
        }
        SearchEnd::Unread(left) => {
            drop(procedure);
            Ok(Turn::Unread(left))
        }
    }
}

/// A name is searched on a path.
pub fn find<P: Port, T: Tree>(
    alloc: Global,
    port: &mut P,
    tree: &mut T,
    execution: &mut Execution,
    name: Dotted,
    path: Items,
    procedure: Procedure,
) -> Result<Turn, Halt>
    requires stood { Stood (P.view port.old) execution.old.held
        (remains execution.old (wants.Find name path procedure)) }
    ensures { GivesDue (P.view port.old) (P.view port.new) (T.files tree.old) (T.files tree.new) (T.faults tree.old)
        (T.faults tree.new) (T.lists tree.old) (T.lists tree.new) execution.old.budget
        (remains execution.old (wants.Find name path procedure)) execution.new result }
{
    match seek(port, tree, &mut execution.budget, name, path) {
        Ok(over) => found(alloc, execution, procedure, over),
        Err(halt) => {
            drop(procedure);
            Err(halt)
        }
    }
}
