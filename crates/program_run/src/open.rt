//! The files of scripts.
ghost use Rattle.std.specs.Prelude.{◌≡◌, ◌≤◌, ℕ, List, IfOk, IfErr, IfSome, IsErrOf, OnOk, Some};
ghost use Rattle.tree_files.specs.Count.{Rose};
ghost use Rattle.tree_files.specs.Files.{node_at};
ghost use Rattle.program_run.specs.Scripts.{by_node, IsScript, Opens, EachOpens, IsLineOf, StopsAt, Stops};
ghost use Rattle.program_run.specs.declared.open.Opened.TheVariants as opened;

use crate::line::joined;
use base_types::{NoMemory, Seq, Text, TreePath};
use path_finder::{LoadFault, load_text};
use std::alloc::Global;
use tree_files::{Stamp, Tree, TreeFault};

/// What a script's word names.
#[derive(Drop)]
pub enum Opened {
    /// No file at a tree path.
    Missing,
    /// A file of more than 1,048,576 bytes.
    TooLong,
    /// A file with these bytes.
    Text(Seq<u8>),
}

/// Why not all scripts of a call have a text.
#[derive(Drop)]
pub enum Unopened {
    /// The first without one is no file at a tree path, or too long; and the line about it.
    Refused(Vec<u8>),
    /// A call of the tree failed.
    Unread,
    NoMemory,
}

fn open_path<T: Tree>(alloc: Global, tree: &mut T, path: &TreePath) -> Result<Opened, TreeFault>
    ensures told { IfSome (T.files tree.old) (λ f. IfOk result (λ it. it ≡ by_node (node_at f path.now))) }
    ensures failed { IsErrOf result TreeFault.Failed → Rose (T.faults tree.old) (T.faults tree.new) }
    ensures faults_stay { OnOk result (T.faults tree.new ≡ T.faults tree.old) }
    ensures files_stay { T.files tree.new ≡ T.files tree.old }
    ensures faults_grow { T.faults tree.old ≤ T.faults tree.new }
    ensures lists_stay { T.lists tree.new ≡ T.lists tree.old }
{
    match tree.stamp(path)? {
        Stamp::File(_) => match load_text(alloc, tree, path) {
            Ok(text) => Ok(Opened::Text(text)),
            Err(LoadFault::TooLong) => Ok(Opened::TooLong),
            Err(LoadFault::Tree(fault)) => Err(fault),
        },
        _ => Ok(Opened::Missing),
    }
}

/// Opens the script that a word names. Failed comes only where a call of the tree failed.
pub fn open_script<T: Tree>(alloc: Global, tree: &mut T, word: &Text) -> Result<Opened, TreeFault>
    ensures told { IfSome (T.files tree.old) (λ f. IfOk result (IsScript f word.now)) }
    ensures failed { IsErrOf result TreeFault.Failed → Rose (T.faults tree.old) (T.faults tree.new) }
    ensures faults_stay { OnOk result (T.faults tree.new ≡ T.faults tree.old) }
    ensures files_stay { T.files tree.new ≡ T.files tree.old }
    ensures faults_grow { T.faults tree.old ≤ T.faults tree.new }
    ensures lists_stay { T.lists tree.new ≡ T.lists tree.old }
{
    match TreePath::read(word)? {
        Some(path) => open_path(alloc, tree, &path),
        None => Ok(Opened::Missing),
    }
}

/// What was to be opened is refused with the line about it.
pub fn refused(line: Result<Vec<u8>, NoMemory>) -> Unopened
    ensures { (text : List ℕ) → IfOk line (λ it. it.items ≡ text) → IsLineOf (Some text) result }
{
    match line {
        Ok(line) => Unopened::Refused(line),
        Err(_) => Unopened::NoMemory,
    }
}

/// The text of a script.
fn text_of<T: Tree>(alloc: Global, tree: &mut T, word: &Text) -> Result<Seq<u8>, Unopened>
    ensures ok { IfOk result (λ text. Opens (T.files tree.old) word.now (opened.Text text)) }
    ensures err { IfErr result (StopsAt (T.files tree.old) word.now (T.faults tree.old) (T.faults tree.new)) }
    ensures faults_stay { OnOk result (T.faults tree.new ≡ T.faults tree.old) }
    ensures files_stay { T.files tree.new ≡ T.files tree.old }
    ensures faults_grow { T.faults tree.old ≤ T.faults tree.new }
    ensures lists_stay { T.lists tree.new ≡ T.lists tree.old }
{
    match open_script(alloc, tree, word) {
        Ok(Opened::Text(text)) => Ok(text),
        Ok(Opened::Missing) => {
            let line = joined(alloc, "pyimport: cannot open script '", word.as_str(), "'");
            Err(refused(line))
        }
        Ok(Opened::TooLong) => {
            let line = joined(alloc, "pyimport: script '", word.as_str(), "' is too long");
            Err(refused(line))
        }
        Err(TreeFault::Failed) => Err(Unopened::Unread),
        Err(TreeFault::NoMemory) => Err(Unopened::NoMemory),
    }
}

/// The texts of all scripts, opened in their order.
pub fn open_all<T: Tree>(
    alloc: Global,
    tree: &mut T,
    scripts: &[Text],
) -> Result<Seq<Seq<u8>>, Unopened>
    ensures ok { IfOk result (EachOpens (T.files tree.old) scripts.now) }
    ensures err { IfErr result (Stops (T.files tree.old) scripts.now (T.faults tree.old) (T.faults tree.new)) }
    ensures faults_stay { OnOk result (T.faults tree.new ≡ T.faults tree.old) }
    ensures files_stay { T.files tree.new ≡ T.files tree.old }
    ensures faults_grow { T.faults tree.old ≤ T.faults tree.new }
    ensures lists_stay { T.lists tree.new ≡ T.lists tree.old }
{
    let mut texts = Seq::new(alloc);
    for script in scripts {
        let text = match text_of(alloc, tree, script) {
            Ok(text) => text,
            Err(stop) => return Err(stop),
        };
        if texts.push(text).is_err() {
            return Err(Unopened::NoMemory);
        }
    }
    Ok(texts)
}
