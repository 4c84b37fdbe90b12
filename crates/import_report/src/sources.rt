//! The sources of a folder, and what they ask.
ghost use Rattle.std.specs.Prelude.{◌≡◌, ◌≤◌, drop, IfOk, IsErrOf, OnOk, Some};
ghost use Rattle.std.specs.Option.{ForSome};
ghost use Rattle.tree_files.specs.Count.{Rose};
ghost use Rattle.tree_files.specs.Files.{node_at, bytes_of, IsFileAt};
ghost use Rattle.report_questions.specs.Sources.{questions};
ghost use Rattle.import_report.specs.Sources as spec;

use base_types::{Exact, NoMemory, Seq, Text, Texts, TreePath};
use path_finder::{LoadFault, load_text};
use report_questions::{Question, package_of_file, questions, too_long};
use tree_files::{Tree, TreeFault};
use tree_walk::behind;

/// Where a source file stands below the reported folder.
#[derive(Drop)]
pub struct Source {
    /// The names of the folders that it is in, from the outermost.
    pub folders: Texts,
    pub name: Text,
}

/// Whether a file of this name is a source.
fn is_source(name: &Text) -> bool
    ensures { result ≡ spec.is_source name.now }
{
    name.as_str().ends_with(".py")
}

/// A file, where it is a source.
fn only_source(source: Source) -> Option<Source>
    ensures { result ≡ spec.only_source (Some source) }
{
    if is_source(&source.name) {
        return Some(source);
    }
    None
}

/// The source file that a path behind so many parts names. None where it names none.
pub fn source_of(path: &TreePath, above: usize) -> Result<Option<Source>, NoMemory>
    ensures { IfOk result (λ it. it ≡ spec.source_of (drop above path.now)) }
{
    let inside = behind(path, above)?;
    let mut folders = inside.parts().copy()?;
    match folders.pop() {
        Some(name) => Ok(only_source(Source { folders, name })),
        None => Ok(None),
    }
}

/// What the imports of a file ask, which is a module of this package.
fn file_questions<T: Tree>(
    tree: &mut T,
    path: &TreePath,
    home: &Option<Text>,
) -> Result<Seq<Question>, TreeFault>
    requires { ForSome (T.files tree.old) (λ f. IsFileAt f path.now) }
    ensures asked { ForSome (T.files tree.old) (λ f. IfOk result
        (λ all. all ≡ questions home.now (bytes_of (node_at f path.now)))) }
    ensures failed { IsErrOf result TreeFault.Failed → Rose (T.faults tree.old) (T.faults tree.new) }
    ensures faults_stay { OnOk result (T.faults tree.new ≡ T.faults tree.old) }
    ensures files_stay { T.files tree.new ≡ T.files tree.old }
    ensures faults_grow { T.faults tree.old ≤ T.faults tree.new }
    ensures lists_stay { T.lists tree.new ≡ T.lists tree.old }
{
    let alloc = path.parts().alloc();
    match load_text(alloc, tree, path) {
        Ok(text) => Ok(questions(alloc, home, text.as_slice())?),
        Err(LoadFault::TooLong) => Ok(too_long(alloc)?),
        Err(LoadFault::Tree(fault)) => Err(fault),
    }
}

/// What the imports of a source file ask.
pub fn ask_source<T: Tree>(
    tree: &mut T,
    path: &TreePath,
    source: &Source,
) -> Result<Seq<Question>, TreeFault>
    requires { ForSome (T.files tree.old) (λ f. IsFileAt f path.now) }
    ensures asked { ForSome (T.files tree.old) (λ f. IfOk result
        (λ all. all ≡ spec.source_questions source.now (bytes_of (node_at f path.now)))) }
    ensures failed { IsErrOf result TreeFault.Failed → Rose (T.faults tree.old) (T.faults tree.new) }
    ensures faults_stay { OnOk result (T.faults tree.new ≡ T.faults tree.old) }
    ensures files_stay { T.files tree.new ≡ T.files tree.old }
    ensures faults_grow { T.faults tree.old ≤ T.faults tree.new }
    ensures lists_stay { T.lists tree.new ≡ T.lists tree.old }
{
    let home = package_of_file(&source.folders, &source.name)?;
    file_questions(tree, path, &home)
}
