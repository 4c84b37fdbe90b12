//! Part after part is told.
ghost use Rattle.std.specs.Prelude.{◌≡◌, ◌≤◌, ◌-◌, ◌++◌, ℕ, List, length, drop, IfOk, IsErrOf, OnOk, None};
ghost use Rattle.std.specs.Option.{ForSome};
ghost use Rattle.tree_files.specs.Count.{Rose};
ghost use Rattle.tree_files.specs.Files.{Files, node_at, bytes_of, IsDirAt, IsFileAt, IsTree};
ghost use Rattle.tree_walk.specs.Below.{all_within};
ghost use Rattle.import_report.specs.Sources as sources;
ghost use Rattle.import_report.specs.Reports.{lines_of, entered, source_lines};
ghost use Rattle.import_report.specs.Due.{part_lines, part_folders, due_lines, due_folders, asked_lines, Tells, Lists};
ghost use Rattle.import_report.specs.declared.pending.Pending.TheVariants as parts;

use crate::pending::{Asked, Folder, Pending, Pile, Place};
use crate::sources::{Source, ask_source, source_of};
use crate::{Line, question_line, too_deep};
use base_types::{NoMemory, Texts, TreePath};
use tree_files::{Stamp, Tree, TreeFault};
use tree_walk::child_of;

/// How many parts a folder may lie below the reported one to be entered.
const MOST_PARTS: usize = 64;

/// A folder is entered: its names come next. Of one that lies too deep, that is told.
fn enter<T: Tree>(
    tree: &mut T,
    pile: &mut Pile,
    path: TreePath,
    above: usize,
) -> Result<Option<Line>, TreeFault>
    requires near { length path - above ≤ 65 }
    requires dir { ForSome (T.files tree.old) (λ f. IsDirAt f path) }
    requires tree { ForSome (T.files tree.old) IsTree }
    ensures goes { ForSome (T.files tree.old) (λ f. IfOk result (λ line. (on : List (List ℕ))
        → Tells f on (all_within (lines_of above f on) f path) pile.old line pile.new)) }
    ensures lists { ForSome (T.files tree.old) (λ f. Lists (all_within (entered above) f path ++ due_folders f pile.old)
        (due_folders f pile.new) (T.lists tree.old) (T.lists tree.new)) }
    ensures failed { IsErrOf result TreeFault.Failed → Rose (T.faults tree.old) (T.faults tree.new) }
    ensures faults_stay { OnOk result (T.faults tree.new ≡ T.faults tree.old) }
    ensures files_stay { T.files tree.new ≡ T.files tree.old }
    ensures faults_grow { T.faults tree.old ≤ T.faults tree.new }
    ensures lists_grow { T.lists tree.old ≤ T.lists tree.new }
{
    if path.parts().len().saturating_sub(above) > MOST_PARTS {
        let text = path.text()?;
        return Ok(Some(too_deep(&text)?));
    }
    let names = tree.list(&path)?;
    let folder = Folder {
        dir: path,
        names,
        at: 0,
        above,
    };
    pile.push(Pending::Folder(folder))?;
    Ok(None)
}

/// A source file is read: what its imports ask comes next.
fn ask<T: Tree>(
    tree: &mut T,
    pile: &mut Pile,
    path: &TreePath,
    source: &Source,
) -> Result<(), TreeFault>
    requires file { ForSome (T.files tree.old) (λ f. IsFileAt f path.now) }
    ensures goes { ForSome (T.files tree.old) (λ f. OnOk result ((on : List (List ℕ))
        → Tells f on (source_lines f on path.now (bytes_of (node_at f path.now)) (Some source.now))
        pile.old None pile.new)) }
    ensures folders { (f : Files) → due_folders f pile.new ≡ due_folders f pile.old }
    ensures failed { IsErrOf result TreeFault.Failed → Rose (T.faults tree.old) (T.faults tree.new) }
    ensures faults_stay { OnOk result (T.faults tree.new ≡ T.faults tree.old) }
    ensures files_stay { T.files tree.new ≡ T.files tree.old }
    ensures faults_grow { T.faults tree.old ≤ T.faults tree.new }
    ensures lists_stay { T.lists tree.new ≡ T.lists tree.old }
{
    let questions = ask_source(tree, path, source)?;
    let file = path.text()?;
    let asked = Asked {
        file,
        questions,
        at: 0,
    };
    pile.push(Pending::Asked(asked))?;
    Ok(())
}

/// A file is opened, where it is a source.
fn open<T: Tree>(
    tree: &mut T,
    pile: &mut Pile,
    path: TreePath,
    above: usize,
) -> Result<Option<Line>, TreeFault>
    requires near { length path - above ≤ 65 }
    requires file { ForSome (T.files tree.old) (λ f. IsFileAt f path) }
    requires tree { ForSome (T.files tree.old) IsTree }
    ensures goes { ForSome (T.files tree.old) (λ f. IfOk result (λ line. (on : List (List ℕ))
        → Tells f on (all_within (lines_of above f on) f path) pile.old line pile.new)) }
    ensures lists { ForSome (T.files tree.old) (λ f. Lists (all_within (entered above) f path ++ due_folders f pile.old)
        (due_folders f pile.new) (T.lists tree.old) (T.lists tree.new)) }
    ensures failed { IsErrOf result TreeFault.Failed → Rose (T.faults tree.old) (T.faults tree.new) }
    ensures faults_stay { OnOk result (T.faults tree.new ≡ T.faults tree.old) }
    ensures files_stay { T.files tree.new ≡ T.files tree.old }
    ensures faults_grow { T.faults tree.old ≤ T.faults tree.new }
    ensures lists_grow { T.lists tree.old ≤ T.lists tree.new }
{
    match source_of(&path, above)? {
        Some(source) => {
            ask(tree, pile, &path, &source)?;
            Ok(None)
        }
        None => Ok(None),
    }
}

/// What stands at a path is told, or comes next.
fn take_place<T: Tree>(
    tree: &mut T,
    pile: &mut Pile,
    place: Place,
) -> Result<Option<Line>, TreeFault>
    ensures goes { ForSome (T.files tree.old) (λ f. IfOk result (λ line. (on : List (List ℕ))
        → Tells f on (part_lines f on (parts.Place place)) pile.old line pile.new)) }
    ensures lists { ForSome (T.files tree.old) (λ f.
        Lists (part_folders f (parts.Place place) ++ due_folders f pile.old)
        (due_folders f pile.new) (T.lists tree.old) (T.lists tree.new)) }
    ensures failed { IsErrOf result TreeFault.Failed → Rose (T.faults tree.old) (T.faults tree.new) }
    ensures faults_stay { OnOk result (T.faults tree.new ≡ T.faults tree.old) }
    ensures files_stay { T.files tree.new ≡ T.files tree.old }
    ensures faults_grow { T.faults tree.old ≤ T.faults tree.new }
    ensures lists_grow { T.lists tree.old ≤ T.lists tree.new }
{
    let Place { path, above } = place;
    match tree.stamp(&path)? {
        Stamp::Absent => Ok(None),
        Stamp::Dir(_) => enter(tree, pile, path, above),
        Stamp::File(_) => open(tree, pile, path, above),
    }
}

/// The next name of a folder comes next, and then those behind it. What is no part of a tree path is passed over.
fn take_folder(pile: &mut Pile, folder: Folder) -> Result<(), NoMemory>
    ensures goes { OnOk result ((f : Files) (on : List (List ℕ))
        → Tells f on (part_lines f on (parts.Folder folder)) pile.old None pile.new) }
    ensures lists { (f : Files) → Lists (part_folders f (parts.Folder folder) ++ due_folders f pile.old)
        (due_folders f pile.new) 0 0 }
{
    let Folder {
        dir,
        names,
        at,
        above,
    } = folder;
    let Some(name) = names.get(at) else {
        return Ok(());
    };
    let child = child_of(&dir, name)?;
    let _count = names.len();
    let rest = Folder {
        dir,
        names,
        at: at + 1,
        above,
    };
    pile.push(Pending::Folder(rest))?;
    match child {
        Some(path) => {
            pile.push(Pending::Place(Place { path, above }))?;
            Ok(())
        }
        None => Ok(()),
    }
}

/// The next question of a file is answered.
fn take_question<T: Tree>(
    tree: &mut T,
    on: &Texts,
    pile: &mut Pile,
    asked: Asked,
) -> Result<Option<Line>, TreeFault>
    ensures goes { ForSome (T.files tree.old) (λ f. IfOk result (λ line.
        Tells f on.now (part_lines f on.now (parts.Asked asked)) pile.old line pile.new)) }
    ensures folders { (f : Files) → due_folders f pile.new ≡ due_folders f pile.old }
    ensures failed { IsErrOf result TreeFault.Failed → Rose (T.faults tree.old) (T.faults tree.new) }
    ensures faults_stay { OnOk result (T.faults tree.new ≡ T.faults tree.old) }
    ensures files_stay { T.files tree.new ≡ T.files tree.old }
    ensures faults_grow { T.faults tree.old ≤ T.faults tree.new }
    ensures lists_stay { T.lists tree.new ≡ T.lists tree.old }
{
    let Asked {
        file,
        questions,
        at,
    } = asked;
    let Some(question) = questions.get(at) else {
        return Ok(None);
    };
    let line = question_line(tree, on, &file, question)?;
    let _count = questions.len();
    let rest = Asked {
        file,
        questions,
        at: at + 1,
    };
    pile.push(Pending::Asked(rest))?;
    Ok(Some(line))
}

/// The next part is told, which was taken from the pile: maybe a line comes of it.
pub fn take<T: Tree>(
    tree: &mut T,
    on: &Texts,
    pile: &mut Pile,
    part: Pending,
) -> Result<Option<Line>, TreeFault>
    ensures goes { ForSome (T.files tree.old) (λ f. IfOk result (λ line.
        Tells f on.now (part_lines f on.now part) pile.old line pile.new)) }
    ensures lists { ForSome (T.files tree.old) (λ f. Lists (part_folders f part ++ due_folders f pile.old)
        (due_folders f pile.new) (T.lists tree.old) (T.lists tree.new)) }
    ensures failed { IsErrOf result TreeFault.Failed → Rose (T.faults tree.old) (T.faults tree.new) }
    ensures faults_stay { OnOk result (T.faults tree.new ≡ T.faults tree.old) }
    ensures files_stay { T.files tree.new ≡ T.files tree.old }
    ensures faults_grow { T.faults tree.old ≤ T.faults tree.new }
    ensures lists_grow { T.lists tree.old ≤ T.lists tree.new }
{
    match part {
        Pending::Place(place) => take_place(tree, pile, place),
        Pending::Folder(folder) => {
            take_folder(pile, folder)?;
            Ok(None)
        }
        Pending::Asked(asked) => take_question(tree, on, pile, asked),
    }
}
