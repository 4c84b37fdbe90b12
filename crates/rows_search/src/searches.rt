//! What a search finds in a tree of files, and the text of a file.
ghost use Rattle.std.specs.Prelude.{◌≡◌, IfSome};
ghost use Rattle.path_finder.specs.Looking.{input_kind, want_kind};

use crate::trees::{path, put_dir, put_file};
use base_spelling::write_source;
use base_types::{Text, TreePath, Wide};
use path_finder::{Found, LoadFault, Look, LookIn, LookWant, Probe, load_text};
use py_value::{Items, Value};
use rows_words::{Row, RowError};
use spec_core::{Dotted, SpecKind};
use std::alloc::Global;
use tree_files::{MemTree, Stamp, Tree, TreeFault};

/// The most files of a row, and the most steps of its search.
const MOST_PARTS: u32 = 1000;

/// What every file holds.
const TEXT: &[u8] = b"pass\n";

/// An entry of a search path; `#` is one that is no text.
fn entry(alloc: Global, entry: &str) -> Result<Value, RowError> {
    if entry == "#" {
        return Ok(Value::Int(Wide::of(7)));
    }
    Ok(Value::Text(Text::from_str(alloc, entry)?))
}

/// The entries of a search path, with `:` between.
fn entries(alloc: Global, path: &str) -> Result<Items, RowError> {
    let mut items = Items::new(alloc);
    for word in path.split(':') {
        items.push(entry(alloc, word)?)?;
    }
    Ok(items)
}

/// Puts a file, or a folder whose name ends in `/`.
fn put(alloc: Global, tree: &mut MemTree, file: &str) -> Result<(), RowError> {
    if let Some(folder) = file.strip_suffix('/') {
        return put_dir(tree, &path(alloc, &mut Row::of(folder))?, 0);
    }
    put_file(tree, &path(alloc, &mut Row::of(file))?, TEXT)
}

/// A tree of the files and folders behind `in`.
fn tree(alloc: Global, row: &mut Row<'_>) -> Result<MemTree, RowError> {
    let mut tree = MemTree::new(alloc)?;
    row.must("in")?;
    for _ in 0..MOST_PARTS {
        if row.is_done() {
            return Ok(tree);
        }
        put(alloc, &mut tree, row.word()?)?;
    }
    Err(RowError::Unknown)
}

/// `kept TIME` and what the kept listing of each directory says: `bare`, `file`, `both` or `neither`.
fn kept(row: &mut Row<'_>) -> Result<Option<Probe>, RowError> {
    if !row.takes("kept ") {
        return Ok(None);
    }
    let time = row.number()?;
    let (bare, file) = match row.word()? {
        "neither" => (false, false),
        "bare" => (true, false),
        "file" => (false, true),
        "both" => (true, true),
        _ => return Err(RowError::Unknown),
    };
    Ok(Some(Probe { time, bare, file }))
}

/// The input that a want asks for, where each kept listing says this.
fn answer_to(want: &LookWant, kept: Option<Probe>) -> Option<LookIn>
    ensures { IfSome result (λ input. input_kind input ≡ want_kind want.now) }
{
    match want {
        LookWant::Pay { tree: _ } => Some(LookIn::Paid),
        LookWant::DirGet { dir: _, part: _ } => Some(LookIn::Listed(kept)),
        LookWant::DirSet { dir: _, listing: _ } => Some(LookIn::Kept),
        LookWant::Done(_) => None,
    }
}

fn text(alloc: Global, words: &str) -> Result<Text, RowError> {
    Ok(Text::from_str(alloc, words)?)
}

fn put_all(mut told: Text, texts: &[Text]) -> Result<Text, RowError> {
    for text in texts {
        told.push_str(" ")?;
        told.push_str(text.as_str())?;
    }
    Ok(told)
}

/// A module's kind and places.
fn kind(alloc: Global, kind: &SpecKind) -> Result<Text, RowError> {
    match kind {
        SpecKind::Source { file } => {
            let mut told = text(alloc, "module ")?;
            told.push_str(file.as_str())?;
            Ok(told)
        }
        SpecKind::Package { file, path } => {
            let mut told = text(alloc, "package ")?;
            told.push_str(file.as_str())?;
            put_all(told, path.as_slice())
        }
        _ => text(alloc, "another kind"),
    }
}

fn shown(alloc: Global, want: &LookWant) -> Result<Text, RowError> {
    match want {
        LookWant::Done(None) => text(alloc, "none"),
        LookWant::Done(Some(Found::Portions(portions))) => {
            put_all(text(alloc, "portions")?, portions.as_slice())
        }
        LookWant::Done(Some(Found::Spec(spec))) => kind(alloc, spec.kind()),
        _ => text(alloc, "no answer"),
    }
}

/// What a search answers, or that the tree failed, where each kept listing that it asks for says this.
fn searched<T: Tree>(
    alloc: Global,
    tree: &mut T,
    path: Items,
    name: Dotted,
    kept: Option<Probe>,
) -> Result<Text, RowError> {
    let mut look = Look::start(name, path)?;
    let mut input = LookIn::Start;
    for _ in 0..MOST_PARTS {
        let want = match look.next(tree, input) {
            Ok(want) => want,
            Err(TreeFault::Failed) => return text(alloc, "failed"),
            Err(TreeFault::NoMemory) => return Err(RowError::NoMemory),
        };
        match answer_to(&want, kept) {
            Some(next) => input = next,
            None => return shown(alloc, &want),
        }
    }
    text(alloc, "no end")
}

/// `NAME on PATH in FILES`, maybe with what each kept listing says.
pub fn find(alloc: Global, row: &mut Row<'_>) -> Result<Text, RowError> {
    let name = Dotted::read(&row.text(alloc)?)?.ok_or(RowError::Unknown)?;
    row.must("on ")?;
    let path = entries(alloc, row.text(alloc)?.as_str())?;
    let kept = kept(row)?;
    let mut tree = tree(alloc, row)?;
    searched(alloc, &mut tree, path, name, kept)
}

fn loaded<T: Tree>(alloc: Global, tree: &mut T, file: &TreePath) -> Result<Text, RowError> {
    match tree.stamp(file) {
        Ok(Stamp::File(_)) => match load_text(alloc, tree, file) {
            Ok(bytes) => Ok(write_source(Text::new(alloc), bytes.as_slice())?),
            Err(LoadFault::TooLong) => text(alloc, "too long"),
            Err(LoadFault::Tree(TreeFault::NoMemory)) => Err(RowError::NoMemory),
            Err(LoadFault::Tree(TreeFault::Failed)) => text(alloc, "failed"),
        },
        _ => text(alloc, "no file"),
    }
}

/// The text of a file in a tree of these files.
pub fn load(alloc: Global, row: &mut Row<'_>) -> Result<Text, RowError> {
    let file = path(alloc, row)?;
    let mut tree = tree(alloc, row)?;
    loaded(alloc, &mut tree, &file)
}
