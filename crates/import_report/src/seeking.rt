//! One search, which looks at what stands where the name may stand. Nothing is listed.
ghost use Rattle.std.specs.Prelude.{◌≡◌, ◌≤◌, IfOk, IsErrOf, OnOk, [], ℕ, List, Option};
ghost use Rattle.std.specs.Option.{ForSome};
ghost use Rattle.tree_files.specs.Count.{Rose};
ghost use Rattle.tree_files.specs.Files.{node_at, is_dir, is_file};
ghost use Rattle.path_finder.specs.Find.{find, answer, module_file};
ghost use Rattle.import_report.specs.Meanings.{entries};
ghost use Rattle.path_finder.specs.declared.words.Found.{Found};
ghost use Rattle.import_report.specs.Seeking as spec;

use crate::offers::{Offer, either};
use crate::wanted::Wanted;
use base_types::{Exact, NoMemory, Text, Texts, TreePath};
use path_finder::{Found, path_of};
use spec_core::{Dotted, Spec, SpecKind};
use tree_files::{Stamp, Tree, TreeFault};

/// Whether a directory stands at a path.
#[tactic(auto, using(crate::proofs::Finding::dir_there, crate::proofs::Finding::file_no_dir, crate::proofs::Finding::absent_no_dir))]
fn is_dir_at<T: Tree>(tree: &mut T, path: &TreePath) -> Result<bool, TreeFault>
    ensures told { ForSome (T.files tree.old) (λ f. IfOk result (λ it. it ≡ is_dir (node_at f path.now))) }
    ensures failed { IsErrOf result TreeFault.Failed → Rose (T.faults tree.old) (T.faults tree.new) }
    ensures faults_stay { OnOk result (T.faults tree.new ≡ T.faults tree.old) }
    ensures files_stay { T.files tree.new ≡ T.files tree.old }
    ensures faults_grow { T.faults tree.old ≤ T.faults tree.new }
    ensures lists_stay { T.lists tree.new ≡ T.lists tree.old }
{
    match tree.stamp(path)? {
        Stamp::Dir(_) => Ok(true),
        Stamp::File(_) => Ok(false),
        Stamp::Absent => Ok(false),
    }
}

/// Whether a file stands at a path.
#[tactic(auto, using(crate::proofs::Finding::dir_no_file, crate::proofs::Finding::file_there, crate::proofs::Finding::absent_no_file))]
fn is_file_at<T: Tree>(tree: &mut T, path: &TreePath) -> Result<bool, TreeFault>
    ensures told { ForSome (T.files tree.old) (λ f. IfOk result (λ it. it ≡ is_file (node_at f path.now))) }
    ensures failed { IsErrOf result TreeFault.Failed → Rose (T.faults tree.old) (T.faults tree.new) }
    ensures faults_stay { OnOk result (T.faults tree.new ≡ T.faults tree.old) }
    ensures files_stay { T.files tree.new ≡ T.files tree.old }
    ensures faults_grow { T.faults tree.old ≤ T.faults tree.new }
    ensures lists_stay { T.lists tree.new ≡ T.lists tree.old }
{
    match tree.stamp(path)? {
        Stamp::Dir(_) => Ok(false),
        Stamp::File(_) => Ok(true),
        Stamp::Absent => Ok(false),
    }
}

/// The file that makes a folder a regular package (Language Reference 5.2.1).
fn first_file(at: &TreePath) -> Result<TreePath, NoMemory>
    ensures { IfOk result (λ it. it ≡ spec.first_of at.now) }
{
    let first = Text::from_str(at.parts().alloc(), "__init__.py")?;
    at.child(&first)
}

/// A regular package, of its folder and its file.
fn package_of(at: &TreePath, first: &TreePath) -> Result<Offer, NoMemory>
    ensures { IfOk result (λ it. it ≡ spec.package_of at.now first.now) }
{
    let mut path = Texts::new(at.parts().alloc());
    path.push(at.text()?)?;
    let file = first.text()?;
    Ok(Offer::Decides(SpecKind::Package { file, path }))
}

/// What a folder is: a regular package or a portion.
fn folder_offer<T: Tree>(tree: &mut T, at: &TreePath) -> Result<Offer, TreeFault>
    ensures told { ForSome (T.files tree.old) (λ f. IfOk result (λ it. it ≡ spec.folder_offer f at.now)) }
    ensures failed { IsErrOf result TreeFault.Failed → Rose (T.faults tree.old) (T.faults tree.new) }
    ensures faults_stay { OnOk result (T.faults tree.new ≡ T.faults tree.old) }
    ensures files_stay { T.files tree.new ≡ T.files tree.old }
    ensures faults_grow { T.faults tree.old ≤ T.faults tree.new }
    ensures lists_stay { T.lists tree.new ≡ T.lists tree.old }
{
    let first = first_file(at)?;
    if is_file_at(tree, &first)? {
        return Ok(package_of(at, &first)?);
    }
    Ok(Offer::Portion(at.text()?))
}

/// What a path has as a folder.
fn offer_of_folder<T: Tree>(tree: &mut T, at: &TreePath) -> Result<Offer, TreeFault>
    ensures told { ForSome (T.files tree.old) (λ f. IfOk result (λ it. it ≡ spec.offer_of_folder f at.now)) }
    ensures failed { IsErrOf result TreeFault.Failed → Rose (T.faults tree.old) (T.faults tree.new) }
    ensures faults_stay { OnOk result (T.faults tree.new ≡ T.faults tree.old) }
    ensures files_stay { T.files tree.new ≡ T.files tree.old }
    ensures faults_grow { T.faults tree.old ≤ T.faults tree.new }
    ensures lists_stay { T.lists tree.new ≡ T.lists tree.old }
{
    if is_dir_at(tree, at)? {
        return folder_offer(tree, at);
    }
    Ok(Offer::Nothing)
}

/// The module that a path has as a file.
fn module_at<T: Tree>(tree: &mut T, at: &TreePath) -> Result<Option<SpecKind>, TreeFault>
    ensures told { ForSome (T.files tree.old) (λ f. IfOk result (λ it. it ≡ spec.module_at f at.now)) }
    ensures failed { IsErrOf result TreeFault.Failed → Rose (T.faults tree.old) (T.faults tree.new) }
    ensures faults_stay { OnOk result (T.faults tree.new ≡ T.faults tree.old) }
    ensures files_stay { T.files tree.new ≡ T.files tree.old }
    ensures faults_grow { T.faults tree.old ≤ T.faults tree.new }
    ensures lists_stay { T.lists tree.new ≡ T.lists tree.old }
{
    if is_file_at(tree, at)? {
        return Ok(Some(SpecKind::Source { file: at.text()? }));
    }
    Ok(None)
}

/// The module that a directory has for what is wanted.
fn module_in<T: Tree>(
    tree: &mut T,
    wanted: &Wanted,
    dir: &TreePath,
) -> Result<Option<SpecKind>, TreeFault>
    ensures told { ForSome (T.files tree.old) (λ f. IfOk result
        (λ it. it ≡ spec.module_at f (module_file dir.now wanted.now.part))) }
    ensures failed { IsErrOf result TreeFault.Failed → Rose (T.faults tree.old) (T.faults tree.new) }
    ensures faults_stay { OnOk result (T.faults tree.new ≡ T.faults tree.old) }
    ensures files_stay { T.files tree.new ≡ T.files tree.old }
    ensures faults_grow { T.faults tree.old ≤ T.faults tree.new }
    ensures lists_stay { T.lists tree.new ≡ T.lists tree.old }
{
    let file = wanted.module_file(dir)?;
    module_at(tree, &file)
}

/// What a directory has for what is wanted, where it has this as a folder: where that decides, no file is looked for.
fn or_module<T: Tree>(
    tree: &mut T,
    wanted: &Wanted,
    dir: &TreePath,
    offer: Offer,
) -> Result<Offer, TreeFault>
    ensures told { ForSome (T.files tree.old) (λ f. IfOk result
        (λ it. it ≡ spec.either offer (spec.module_at f (module_file dir.now wanted.now.part)))) }
    ensures failed { IsErrOf result TreeFault.Failed → Rose (T.faults tree.old) (T.faults tree.new) }
    ensures faults_stay { OnOk result (T.faults tree.new ≡ T.faults tree.old) }
    ensures files_stay { T.files tree.new ≡ T.files tree.old }
    ensures faults_grow { T.faults tree.old ≤ T.faults tree.new }
    ensures lists_stay { T.lists tree.new ≡ T.lists tree.old }
{
    match offer {
        Offer::Decides(kind) => Ok(Offer::Decides(kind)),
        Offer::Portion(portion) => {
            let found = module_in(tree, wanted, dir)?;
            Ok(either(Offer::Portion(portion), found))
        }
        Offer::Nothing => {
            let found = module_in(tree, wanted, dir)?;
            Ok(either(Offer::Nothing, found))
        }
    }
}

/// What a directory has for what is wanted.
fn offer_in<T: Tree>(tree: &mut T, wanted: &Wanted, dir: &TreePath) -> Result<Offer, TreeFault>
    ensures told { ForSome (T.files tree.old) (λ f. IfOk result (λ it. it ≡ spec.offer_in f wanted.now.part dir.now)) }
    ensures failed { IsErrOf result TreeFault.Failed → Rose (T.faults tree.old) (T.faults tree.new) }
    ensures faults_stay { OnOk result (T.faults tree.new ≡ T.faults tree.old) }
    ensures files_stay { T.files tree.new ≡ T.files tree.old }
    ensures faults_grow { T.faults tree.old ≤ T.faults tree.new }
    ensures lists_stay { T.lists tree.new ≡ T.lists tree.old }
{
    let folder = wanted.folder(dir)?;
    let offer = offer_of_folder(tree, &folder)?;
    or_module(tree, wanted, dir, offer)
}

/// What a path has for what is wanted: only a directory is searched.
fn offer_at<T: Tree>(
    tree: &mut T,
    wanted: &Wanted,
    path: &Option<TreePath>,
) -> Result<Offer, TreeFault>
    ensures told { ForSome (T.files tree.old) (λ f. IfOk result (λ it. it ≡ spec.offer_at f wanted.now.part path.now)) }
    ensures failed { IsErrOf result TreeFault.Failed → Rose (T.faults tree.old) (T.faults tree.new) }
    ensures faults_stay { OnOk result (T.faults tree.new ≡ T.faults tree.old) }
    ensures files_stay { T.files tree.new ≡ T.files tree.old }
    ensures faults_grow { T.faults tree.old ≤ T.faults tree.new }
    ensures lists_stay { T.lists tree.new ≡ T.lists tree.old }
{
    match path {
        Some(dir) => {
            if is_dir_at(tree, dir)? {
                return offer_in(tree, wanted, dir);
            }
            Ok(Offer::Nothing)
        }
        None => Ok(Offer::Nothing),
    }
}

/// What an entry of the path has for what is wanted.
fn entry_offer<T: Tree>(tree: &mut T, wanted: &Wanted, entry: &Text) -> Result<Offer, TreeFault>
    ensures told { ForSome (T.files tree.old) (λ f. IfOk result (λ it.
        it ≡ spec.entry_offer f wanted.now.part entry.now)) }
    ensures failed { IsErrOf result TreeFault.Failed → Rose (T.faults tree.old) (T.faults tree.new) }
    ensures faults_stay { OnOk result (T.faults tree.new ≡ T.faults tree.old) }
    ensures files_stay { T.files tree.new ≡ T.files tree.old }
    ensures faults_grow { T.faults tree.old ≤ T.faults tree.new }
    ensures lists_stay { T.lists tree.new ≡ T.lists tree.old }
{
    let path = path_of(entry)?;
    offer_at(tree, wanted, &path)
}

/// Keeps the portion that an entry has. One that decides is the answer.
fn keep(portions: &mut Texts, offer: Offer) -> Result<Option<SpecKind>, NoMemory>
    ensures { IfOk result (λ kind. (name : List ℕ) (go : List (List ℕ) → Option Found)
        → spec.by_offer name go portions.old offer ≡ spec.by_kind name kind (go portions.new)) }
{
    match offer {
        Offer::Decides(kind) => Ok(Some(kind)),
        Offer::Portion(portion) => {
            portions.push(portion)?;
            Ok(None)
        }
        Offer::Nothing => Ok(None),
    }
}

/// What is found where no entry decides.
fn found(portions: Texts) -> Option<Found>
    ensures { (name : List ℕ) → result ≡ answer name [] portions }
{
    if portions.is_empty() {
        return None;
    }
    Some(Found::Portions(portions))
}

/// What a name is found to be on a path, as imports find it with no listings kept: the first entry with a regular package
/// or a module decides, and else all portions are the answer (PEP 420). Nothing is listed.
pub fn search<T: Tree>(tree: &mut T, name: Dotted, path: &Texts) -> Result<Option<Found>, TreeFault>
    ensures found { ForSome (T.files tree.old) (λ f. IfOk result (λ it. it ≡ find f name (entries path.now) [])) }
    ensures failed { IsErrOf result TreeFault.Failed → Rose (T.faults tree.old) (T.faults tree.new) }
    ensures faults_stay { OnOk result (T.faults tree.new ≡ T.faults tree.old) }
    ensures files_stay { T.files tree.new ≡ T.files tree.old }
    ensures faults_grow { T.faults tree.old ≤ T.faults tree.new }
    ensures lists_stay { T.lists tree.new ≡ T.lists tree.old }
{
    let wanted = Wanted::of(&name)?;
    let mut portions = Texts::new(path.alloc());
    for entry in path.as_slice() {
        let offer = entry_offer(tree, &wanted, entry)?;
        let decided = keep(&mut portions, offer)?;
        match decided {
            Some(kind) => {
                let name = name.copy()?;
                let spec = Spec::of(name, kind)?;
                return Ok(Some(Found::Spec(spec)));
            }
            None => {}
        }
    }
    Ok(found(portions))
}
