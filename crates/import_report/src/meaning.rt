//! What a dotted name means.
ghost use Rattle.std.specs.Prelude.{◌≡◌, ◌≤◌, ◌∷◌, IfOk, IsErrOf, OnOk, OnErr, map};
ghost use Rattle.std.specs.Option.{ForSome};
ghost use Rattle.tree_files.specs.Count.{Rose};
ghost use Rattle.spec_core.specs.Names.{parts, joined};
ghost use Rattle.import_report.specs.Meanings as spec;

use crate::seeking::search;
use base_types::{Exact, NoMemory, Seq, Text, Texts};
use path_finder::Found;
use py_value::{Items, Value};
use spec_core::{Dotted, SpecKind};
use std::alloc::{AllocError, Global};
use tree_files::{Tree, TreeFault};

/// What a dotted name means on a search path, before anything is imported.
#[derive(Drop)]
pub enum Meaning {
    /// A module of the interpreter itself.
    Builtin,
    /// The module of this file.
    Module(Text),
    /// A package: its `__init__.py`, and the path on which its submodules are searched.
    Package { file: Text, path: Texts },
    /// A namespace package (PEP 420) of these portions.
    Namespace(Texts),
    /// Nothing: this name, or this front of it, is not found.
    Missing(Text),
    /// Nothing: this front of the name is no package.
    NotPackage(Text),
}

/// Whether the interpreter has the module itself.
fn is_builtin(name: &str) -> bool
    ensures { result ≡ spec.is_builtin name.now }
{
    name == "sys" || name == "importlib" || name == "pyimport"
}

/// The entries of a path as a search takes them.
pub fn entries(path: &Texts) -> Result<Items, NoMemory>
    ensures { IfOk result (λ items. items ≡ spec.entries path.now) }
{
    let mut items = Seq::new(path.alloc());
    for entry in path.as_slice() {
        items.push(Value::Text(entry.copy()?))?;
    }
    Ok(items)
}

/// What a spec of this kind says.
fn kind_means(kind: SpecKind) -> Meaning
    ensures { result ≡ spec.kind_means kind }
{
    match kind {
        SpecKind::Builtin => Meaning::Builtin,
        SpecKind::Source { file } => Meaning::Module(file),
        SpecKind::Package { file, path } => Meaning::Package { file, path },
        SpecKind::Namespace { path } => Meaning::Namespace(path),
    }
}

/// What was found says what the name means.
fn found_means(name: &Text, found: Option<Found>) -> Result<Meaning, NoMemory>
    ensures { IfOk result (λ it. it ≡ spec.found_means name.now found) }
{
    match found {
        None => Ok(Meaning::Missing(name.copy()?)),
        Some(Found::Spec(spec)) => Ok(kind_means(spec.kind().copy()?)),
        Some(Found::Portions(portions)) => Ok(Meaning::Namespace(portions)),
    }
}

/// What a name is found to be on a path.
fn search_means<T: Tree>(tree: &mut T, path: &Texts, name: &Text) -> Result<Meaning, TreeFault>
    ensures means { ForSome (T.files tree.old) (λ f. IfOk result (λ it. it ≡ spec.search_means f path.now name.now)) }
    ensures failed { IsErrOf result TreeFault.Failed → Rose (T.faults tree.old) (T.faults tree.new) }
    ensures faults_stay { OnOk result (T.faults tree.new ≡ T.faults tree.old) }
    ensures files_stay { T.files tree.new ≡ T.files tree.old }
    ensures faults_grow { T.faults tree.old ≤ T.faults tree.new }
    ensures lists_stay { T.lists tree.new ≡ T.lists tree.old }
{
    let Some(dotted) = Dotted::read(name)? else {
        return Ok(Meaning::Missing(name.copy()?));
    };
    let found = search(tree, dotted, path)?;
    Ok(found_means(name, found)?)
}

/// What the first part of a name means.
fn first_means<T: Tree>(tree: &mut T, path: &Texts, name: &Text) -> Result<Meaning, TreeFault>
    ensures means { ForSome (T.files tree.old) (λ f. IfOk result (λ it. it ≡ spec.first_means f path.now name.now)) }
    ensures failed { IsErrOf result TreeFault.Failed → Rose (T.faults tree.old) (T.faults tree.new) }
    ensures faults_stay { OnOk result (T.faults tree.new ≡ T.faults tree.old) }
    ensures files_stay { T.files tree.new ≡ T.files tree.old }
    ensures faults_grow { T.faults tree.old ≤ T.faults tree.new }
    ensures lists_stay { T.lists tree.new ≡ T.lists tree.old }
{
    if is_builtin(name.as_str()) {
        return Ok(Meaning::Builtin);
    }
    search_means(tree, path, name)
}

/// What a longer name means where the name before its last part means this. Only a package and a namespace are searched.
fn member_of<T: Tree>(
    tree: &mut T,
    name: &Text,
    means: Meaning,
    longer: &Text,
) -> Result<Meaning, TreeFault>
    ensures means { ForSome (T.files tree.old) (λ f. IfOk result
        (λ it. it ≡ spec.member_means f name.now means longer.now)) }
    ensures failed { IsErrOf result TreeFault.Failed → Rose (T.faults tree.old) (T.faults tree.new) }
    ensures faults_stay { OnOk result (T.faults tree.new ≡ T.faults tree.old) }
    ensures files_stay { T.files tree.new ≡ T.files tree.old }
    ensures faults_grow { T.faults tree.old ≤ T.faults tree.new }
    ensures lists_stay { T.lists tree.new ≡ T.lists tree.old }
{
    match means {
        Meaning::Builtin | Meaning::Module(_) => Ok(Meaning::NotPackage(name.copy()?)),
        Meaning::Package { file, path } => {
            drop(file);
            search_means(tree, &path, longer)
        }
        Meaning::Namespace(path) => search_means(tree, &path, longer),
        Meaning::Missing(front) => Ok(Meaning::Missing(front)),
        Meaning::NotPackage(front) => Ok(Meaning::NotPackage(front)),
    }
}

/// What stands between the dots.
fn parts_of(alloc: Global, name: &str) -> Result<Vec<&str>, AllocError>
    ensures { IfOk result (λ v. map (λ x. x.now) v.items ≡ parts name.now) }
{
    name.split('.').collect(alloc)
}

/// A name with one more part.
fn with_part(name: &Text, part: &str) -> Result<Text, NoMemory>
    ensures { IfOk result (λ it. it ≡ joined name.now part.now) }
{
    let mut longer = name.copy()?;
    longer.push_str(".")?;
    longer.push_str(part)?;
    Ok(longer)
}

/// What is meant with these parts more, where the name means this.
fn onward<T: Tree>(
    tree: &mut T,
    front: Text,
    means: Meaning,
    parts: &[&str],
) -> Result<Meaning, TreeFault>
    ensures means { ForSome (T.files tree.old) (λ f. IfOk result
        (λ it. it ≡ spec.onward f front means (map (λ x. x.now) parts.now))) }
    ensures failed { IsErrOf result TreeFault.Failed → Rose (T.faults tree.old) (T.faults tree.new) }
    ensures faults_stay { OnOk result (T.faults tree.new ≡ T.faults tree.old) }
    ensures files_stay { T.files tree.new ≡ T.files tree.old }
    ensures faults_grow { T.faults tree.old ≤ T.faults tree.new }
    ensures lists_stay { T.lists tree.new ≡ T.lists tree.old }
{
    let mut name = front;
    let mut means = means;
    for part in parts {
        let longer = with_part(&name, part)?;
        means = member_of(tree, &name, means, &longer)?;
        name = longer;
    }
    Ok(means)
}

/// What a dotted name means on a path: its parts are searched in order, as an import of it searches them, but that nothing
/// is run and no listings are kept.
#[tactic(auto, unfolding(crate::specs::Meanings::meaning_of))]
pub fn meaning_of<T: Tree>(tree: &mut T, path: &Texts, name: &Text) -> Result<Meaning, TreeFault>
    ensures means { ForSome (T.files tree.old) (λ f. IfOk result (λ it. it ≡ spec.meaning_of f path.now name.now)) }
    ensures failed { IsErrOf result TreeFault.Failed → Rose (T.faults tree.old) (T.faults tree.new) }
    ensures faults_stay { OnOk result (T.faults tree.new ≡ T.faults tree.old) }
    ensures files_stay { T.files tree.new ≡ T.files tree.old }
    ensures faults_grow { T.faults tree.old ≤ T.faults tree.new }
    ensures lists_stay { T.lists tree.new ≡ T.lists tree.old }
{
    let parts = parts_of(name.alloc(), name.as_str())?;
    match parts.as_slice() {
        [] => Ok(Meaning::Missing(Text::new(name.alloc()))),
        [first, others @ ..] => {
            let front = Text::from_str(name.alloc(), first)?;
            let means = first_means(tree, path, &front)?;
            onward(tree, front, means, others)
        }
    }
}
