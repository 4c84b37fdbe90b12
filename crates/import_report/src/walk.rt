//! A walk over the imports of all sources below a folder.
ghost use Rattle.std.specs.Prelude.{◌≡◌, ◌≤◌, ◌∷◌, [], ℕ, List, IfOk, IsErrOf, OnOk, MatchOption};
ghost use Rattle.std.specs.Option.{ForSome};
ghost use Rattle.tree_files.specs.Count.{Rose};
ghost use Rattle.tree_files.specs.Files.{Files};
ghost use Rattle.import_report.specs.Due.{due_lines, due_folders, Lists};
ghost use Rattle.import_report.specs.Reports.{report_lines, report_folders};
ghost use Rattle.import_report.specs.Left.{left, unlisted};

use crate::Line;
use crate::pending::{Pending, Pile, Place};
use crate::visit::take;
use base_types::{Exact, NoMemory, Seq, Texts, TreePath};
use tree_files::{Tree, TreeFault};

/// A walk over the import statements of all sources below a folder, which tells one line at a time. It keeps the names of
/// the folders that are open and the questions of one file.
#[derive(Drop)]
pub struct Walk {
    path: Texts,
    pile: Pile,
}

/// A pile with the reported folder alone.
fn new_pile(dir: &TreePath) -> Result<Pile, NoMemory>
    ensures lines { IfOk result (λ pile. (f : Files) (path : List (List ℕ))
        → due_lines f path pile ≡ report_lines f dir.now path) }
    ensures folders { IfOk result (λ pile. (f : Files) → due_folders f pile ≡ report_folders f dir.now) }
{
    let above = dir.parts().len();
    let path = dir.copy()?;
    let mut pile = Seq::new(dir.parts().alloc());
    pile.push(Pending::Place(Place { path, above }))?;
    Ok(pile)
}

impl Walk {
    /// A walk over a folder, in which names mean what they do on this search path. Over a tree that tells its files, what
    /// it has to tell is the report of the folder. An `Err` comes for want of memory alone.
    pub fn new(dir: &TreePath, path: &Texts) -> Result<Walk, NoMemory>
        ensures lines { IfOk result (λ it. (f : Files) → left f it ≡ report_lines f dir.now path.now) }
        ensures folders { IfOk result (λ it. (f : Files) → unlisted f it ≡ report_folders f dir.now) }
    {
        let pile = new_pile(dir)?;
        let path = path.copy()?;
        Ok(Walk { path, pile })
    }

    /// The next line, or None exactly after the last. Each folder is listed at most once, and nothing else is. A count of
    /// the parts that are told without a line that would pass the end of its type is want of memory.
    ///
    /// # Errors
    ///
    /// `Failed` only where a call of the tree failed. After an `Err` the walk may have lost what it was to tell next, so
    /// there is to be no further call.
    pub fn next<T: Tree>(&mut self, tree: &mut T) -> Result<Option<Line>, TreeFault>
        ensures told { ForSome (T.files tree.old) (λ f. IfOk result (λ line.
            MatchOption line (left f self.old ≡ []) (λ it. left f self.old ≡ it ∷ left f self.new))) }
        ensures lists { ForSome (T.files tree.old) (λ f.
            Lists (unlisted f self.old) (unlisted f self.new) (T.lists tree.old) (T.lists tree.new)) }
        ensures failed { IsErrOf result TreeFault.Failed → Rose (T.faults tree.old) (T.faults tree.new) }
        ensures faults_stay { OnOk result (T.faults tree.new ≡ T.faults tree.old) }
        ensures files_stay { T.files tree.new ≡ T.files tree.old }
        ensures faults_grow { T.faults tree.old ≤ T.faults tree.new }
        ensures lists_grow { T.lists tree.old ≤ T.lists tree.new }
    {
        'parts: for _ in 0..u64::MAX {
            let Some(part) = self.pile.pop() else {
                return Ok(None);
            };
            let told = take(tree, &self.path, &mut self.pile, part)?;
            match told {
                Some(line) => return Ok(Some(line)),
                None => {}
            }
        }
        Err(TreeFault::NoMemory)
    }
}
