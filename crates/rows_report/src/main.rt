//! What a report says of the imports of a file or a folder, in a tree that the rows put together.
#![tactic(auto)]

use base_types::{Exact, Seq, Text, Texts, TreePath};
use import_report::{Line, Walk, question_line};
use report_questions::{Question, package_of_file, questions};
use rows_words::{Answered, Row, RowError, Table, answer_rows};
use std::alloc::Global;
use std::process::ExitCode;
use tree_files::{MemTree, TreeFault};

/// The most lines that a row counts.
const MOST_LINES: u64 = 1_000_000;

/// The tree that the rows so far have put together, the lines of the last file that are not told yet, and the walk that
/// was begun last.
#[derive(Drop)]
struct Room {
    tree: Option<MemTree>,
    lines: Seq<Line>,
    walk: Option<Walk>,
}

fn path(alloc: Global, row: &mut Row<'_>) -> Result<TreePath, RowError> {
    TreePath::read(&row.text(alloc)?)?.ok_or(RowError::Unknown)
}

fn put_file(tree: &mut MemTree, at: &TreePath, bytes: &[u8]) -> Result<(), RowError> {
    if !tree.takes_file(at)? {
        return Err(RowError::Unknown);
    }
    Ok(tree.put_file(at, bytes)?)
}

/// The entries of a search path, with `:` between.
fn entries(alloc: Global, path: &str) -> Result<Texts, RowError> {
    let mut texts = Texts::new(alloc);
    for word in path.split(':') {
        texts.push(Text::from_str(alloc, word)?)?;
    }
    Ok(texts)
}

/// The parts of a path from a place on.
fn parts_from(parts: &[Text], alloc: Global, from: usize) -> Result<Texts, RowError> {
    let mut texts = Texts::new(alloc);
    for (at, part) in parts.iter().enumerate() {
        if at >= from {
            texts.push(part.copy()?)?;
        }
    }
    Ok(texts)
}

/// What a source asks that stands at a path below a folder.
fn asked(
    alloc: Global,
    file: &TreePath,
    dir: &TreePath,
    src: &[u8],
) -> Result<Seq<Question>, RowError> {
    match file.parts().as_slice() {
        [] => Err(RowError::Unknown),
        [front @ .., name] => {
            let folders = parts_from(front, alloc, dir.parts().len())?;
            let home = package_of_file(&folders, name)?;
            Ok(questions(alloc, &home, src)?)
        }
    }
}

/// The answers to questions, the last one first.
fn answers(
    tree: &mut MemTree,
    path: &Texts,
    file: &Text,
    questions: &Seq<Question>,
) -> Result<Seq<Line>, RowError> {
    let mut lines = Seq::new(file.alloc());
    for question in questions.as_slice() {
        match question_line(tree, path, file, question) {
            Ok(line) => lines.insert(0, line)?,
            Err(TreeFault::NoMemory) => return Err(RowError::NoMemory),
            Err(TreeFault::Failed) => return Err(RowError::Unknown),
        }
    }
    Ok(lines)
}

/// Whether a line says that something is found.
fn sign(line: &Line) -> &'static str {
    if line.found { "+ " } else { "- " }
}

fn told(alloc: Global, line: &Line) -> Answered {
    let mut text = Text::from_str(alloc, sign(line))?;
    text.push_str(line.text.as_str())?;
    Ok(Some(text))
}

fn said(alloc: Global, text: &str) -> Answered {
    Ok(Some(Text::from_str(alloc, text)?))
}

/// What a walk tells next.
fn step(alloc: Global, walk: &mut Walk, tree: &mut MemTree) -> Answered {
    match walk.next(tree) {
        Ok(Some(line)) => told(alloc, &line),
        Ok(None) => said(alloc, "no more"),
        Err(TreeFault::Failed) => said(alloc, "failed"),
        Err(TreeFault::NoMemory) => Err(RowError::NoMemory),
    }
}

/// How many lines a walk tells up to its end, or up to a call of the tree that fails.
fn count(alloc: Global, walk: &mut Walk, tree: &mut MemTree) -> Answered {
    for lines in 0..MOST_LINES {
        match walk.next(tree) {
            Ok(Some(line)) => drop(line),
            Ok(None) => return Ok(Some(Text::from_string(format!(in alloc; "{lines} lines")?)?)),
            Err(TreeFault::Failed) => {
                return Ok(Some(Text::from_string(format!(in alloc;
                    "{lines} lines, then a fault"
                )?)?));
            }
            Err(TreeFault::NoMemory) => return Err(RowError::NoMemory),
        }
    }
    Err(RowError::Unknown)
}

impl Room {
    fn put(&mut self, alloc: Global, row: &mut Row<'_>) -> Result<(), RowError> {
        let at = path(alloc, row)?;
        let bytes = row.pieces(alloc)?;
        match &mut self.tree {
            Some(tree) => put_file(tree, &at, bytes.as_slice()),
            None => Err(RowError::Unknown),
        }
    }

    /// `ask FILE below DIR on PATH SOURCE`: how many lines there are.
    fn ask(&mut self, alloc: Global, row: &mut Row<'_>) -> Answered {
        let file = path(alloc, row)?;
        row.must("below ")?;
        let dir = path(alloc, row)?;
        row.must("on ")?;
        let entries = entries(alloc, row.word()?)?;
        let src = row.bytes(alloc)?;
        let questions = asked(alloc, &file, &dir, src.as_slice())?;
        match &mut self.tree {
            Some(tree) => self.lines = answers(tree, &entries, &file.text()?, &questions)?,
            None => return Err(RowError::Unknown),
        }
        let count = self.lines.len();
        Ok(Some(Text::from_string(format!(in alloc; "{count} lines")?)?))
    }

    /// The next line of a file.
    fn line(&mut self, alloc: Global) -> Answered {
        match self.lines.pop() {
            Some(line) => told(alloc, &line),
            None => said(alloc, "no more"),
        }
    }

    /// `folder PATH TIME`: a directory.
    fn put_folder(&mut self, alloc: Global, row: &mut Row<'_>) -> Answered {
        let at = path(alloc, row)?;
        match &mut self.tree {
            Some(tree) => {
                if !tree.takes_dir(&at)? {
                    return Err(RowError::Unknown);
                }
                tree.put_dir(&at, 0)?;
                Ok(None)
            }
            None => Err(RowError::Unknown),
        }
    }

    /// `fail K`: the call of the tree of that number fails, from 1.
    fn fail(&mut self, row: &mut Row<'_>) -> Answered {
        let call = row.number()?;
        match &mut self.tree {
            Some(tree) => {
                tree.fail(None, call)?;
                Ok(None)
            }
            None => Err(RowError::Unknown),
        }
    }

    /// `report DIR on PATH`: a walk is begun.
    fn begin(&mut self, alloc: Global, row: &mut Row<'_>) -> Answered {
        let dir = path(alloc, row)?;
        row.must("on ")?;
        let entries = entries(alloc, row.word()?)?;
        self.walk = Some(Walk::new(&dir, &entries)?);
        Ok(None)
    }

    /// The next line of a folder.
    fn next(&mut self, alloc: Global) -> Answered {
        match (&mut self.walk, &mut self.tree) {
            (Some(walk), Some(tree)) => step(alloc, walk, tree),
            _ => Err(RowError::Unknown),
        }
    }

    /// How many lines of a folder are still to come.
    fn rest(&mut self, alloc: Global) -> Answered {
        match (&mut self.walk, &mut self.tree) {
            (Some(walk), Some(tree)) => count(alloc, walk, tree),
            _ => Err(RowError::Unknown),
        }
    }
}

impl Table for Room {
    fn answer(&mut self, alloc: Global, row: &mut Row<'_>) -> Result<Option<Text>, RowError> {
        match row.word()? {
            "tree" => {
                self.tree = Some(MemTree::new(alloc)?);
                Ok(None)
            }
            "file" => {
                self.put(alloc, row)?;
                Ok(None)
            }
            "folder" => self.put_folder(alloc, row),
            "fail" => self.fail(row),
            "ask" => self.ask(alloc, row),
            "line" => self.line(alloc),
            "report" => self.begin(alloc, row),
            "next" => self.next(alloc),
            "rest" => self.rest(alloc),
            _ => Err(RowError::Unknown),
        }
    }
}

fn main(rt: HostRuntime) -> ExitCode {
    let mut room = Room {
        tree: None,
        lines: Seq::new(rt.alloc()),
        walk: None,
    };
    answer_rows(rt, &mut room)
}
