//! What is still to be told.
ghost use Rattle.std.specs.Prelude.{◌-◌, ◌≤◌, length};

use base_types::{Seq, Text, Texts, TreePath};
use report_questions::Question;

/// A path, to be told with all that stands below it. It lies at most 65 parts below the reported folder.
#[derive(Drop)]
pub struct Place {
    pub path: TreePath,
    /// How many parts the path of the reported folder has.
    pub above: usize,
    ghost near: { length path - above ≤ 65 },
}

/// A folder, to be told from one of its names on. It lies at most 64 parts below the reported one.
#[derive(Drop)]
pub struct Folder {
    pub dir: TreePath,
    pub names: Texts,
    /// The place of that name.
    pub at: usize,
    /// How many parts the path of the reported folder has.
    pub above: usize,
    ghost near: { length dir - above ≤ 64 },
}

/// What the imports of a file ask, to be told from one question on.
#[derive(Drop)]
pub struct Asked {
    pub file: Text,
    pub questions: Seq<Question>,
    /// The place of that question.
    pub at: usize,
}

/// A part of a report that is still to be told.
#[derive(Drop)]
pub enum Pending {
    Place(Place),
    Folder(Folder),
    Asked(Asked),
}

/// Parts in a pile, of which the last one comes next.
pub type Pile = Seq<Pending>;
