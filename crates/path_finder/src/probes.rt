//! What a directory has for a name, of the names that are listed there.
ghost use Rattle.std.specs.Prelude.{◌≡◌, ◌≤◌, ℕ, List, IfOk, IsErrOf, OnOk, true};
ghost use Rattle.spec_core.specs.Names.{tail_of};
ghost use Rattle.tree_files.specs.Count.{Rose};
ghost use Rattle.path_finder.specs.Find as place;
ghost use Rattle.path_finder.specs.Steps as step;
ghost use Rattle.path_finder.specs.Steps.{Search, Onward, Reads, Shows};
ghost use Rattle.path_finder.specs.Has.{settled};

use crate::sought::Sought;
use crate::stamps::stamp_at;
use base_types::TreePath;
use tree_files::{Stamp, Tree, TreeFault};

/// What a directory has for a name.
#[derive(Clone, Copy)]
pub enum Has {
    /// A regular package.
    Package,
    /// A module.
    Module,
    /// Neither, but maybe a portion of a namespace package.
    Rest { portion: bool },
}

/// What stands where the folder of the name would.
fn stamp_folder<T: Tree>(sought: &Sought, tree: &mut T, dir: &TreePath) -> Result<Stamp, TreeFault>
    ensures shows { IfOk result (Shows (T.files tree.old) (place.folder dir.now (tail_of sought.now.name))) }
    ensures failed { IsErrOf result TreeFault.Failed → Rose (T.faults tree.old) (T.faults tree.new) }
    ensures faults_stay { OnOk result (T.faults tree.new ≡ T.faults tree.old) }
    ensures files_stay { T.files tree.new ≡ T.files tree.old }
    ensures faults_grow { T.faults tree.old ≤ T.faults tree.new }
    ensures lists_stay { T.lists tree.new ≡ T.lists tree.old }
{
    let path = sought.folder(dir)?;
    stamp_at(tree, &path)
}

/// What stands where the first file of its regular package would.
fn stamp_first<T: Tree>(sought: &Sought, tree: &mut T, dir: &TreePath) -> Result<Stamp, TreeFault>
    ensures shows { IfOk result (Shows (T.files tree.old) (place.first_file dir.now (tail_of sought.now.name))) }
    ensures failed { IsErrOf result TreeFault.Failed → Rose (T.faults tree.old) (T.faults tree.new) }
    ensures faults_stay { OnOk result (T.faults tree.new ≡ T.faults tree.old) }
    ensures files_stay { T.files tree.new ≡ T.files tree.old }
    ensures faults_grow { T.faults tree.old ≤ T.faults tree.new }
    ensures lists_stay { T.lists tree.new ≡ T.lists tree.old }
{
    let path = sought.first_file(dir)?;
    stamp_at(tree, &path)
}

/// What stands where its module would.
fn stamp_module<T: Tree>(sought: &Sought, tree: &mut T, dir: &TreePath) -> Result<Stamp, TreeFault>
    ensures shows { IfOk result (Shows (T.files tree.old) (place.module_file dir.now (tail_of sought.now.name))) }
    ensures failed { IsErrOf result TreeFault.Failed → Rose (T.faults tree.old) (T.faults tree.new) }
    ensures faults_stay { OnOk result (T.faults tree.new ≡ T.faults tree.old) }
    ensures files_stay { T.files tree.new ≡ T.files tree.old }
    ensures faults_grow { T.faults tree.old ≤ T.faults tree.new }
    ensures lists_stay { T.lists tree.new ≡ T.lists tree.old }
{
    let path = sought.module_file(dir)?;
    stamp_at(tree, &path)
}

/// Whether the directory has a module, where that is listed; a regular package it has not.
fn module_probed<T: Tree>(
    sought: &Sought,
    tree: &mut T,
    dir: &TreePath,
    portion: bool,
    file: bool,
) -> Result<Has, TreeFault>
    ensures reads { IfOk result (λ has. (portions : List (List ℕ)) (go : Onward) (search : Search)
        → Reads (T.files tree.old) (settled sought.now.name dir.now portions go has) search
        → Reads (T.files tree.old) (step.tries_module sought.now.name dir.now portion file portions go) search) }
    ensures failed { IsErrOf result TreeFault.Failed → Rose (T.faults tree.old) (T.faults tree.new) }
    ensures faults_stay { OnOk result (T.faults tree.new ≡ T.faults tree.old) }
    ensures files_stay { T.files tree.new ≡ T.files tree.old }
    ensures faults_grow { T.faults tree.old ≤ T.faults tree.new }
    ensures lists_stay { T.lists tree.new ≡ T.lists tree.old }
{
    if !file {
        return Ok(Has::Rest { portion });
    }
    match stamp_module(sought, tree, dir)? {
        Stamp::File(_) => Ok(Has::Module),
        Stamp::Dir(_) => Ok(Has::Rest { portion }),
        Stamp::Absent => Ok(Has::Rest { portion }),
    }
}

/// Whether the folder that the directory has is a regular package.
fn package_probed<T: Tree>(
    sought: &Sought,
    tree: &mut T,
    dir: &TreePath,
    file: bool,
) -> Result<Has, TreeFault>
    ensures reads { IfOk result (λ has. (portions : List (List ℕ)) (go : Onward) (search : Search)
        → Reads (T.files tree.old) (settled sought.now.name dir.now portions go has) search
        → Reads (T.files tree.old) (step.folder_tried sought.now.name dir.now file portions go true) search) }
    ensures failed { IsErrOf result TreeFault.Failed → Rose (T.faults tree.old) (T.faults tree.new) }
    ensures faults_stay { OnOk result (T.faults tree.new ≡ T.faults tree.old) }
    ensures files_stay { T.files tree.new ≡ T.files tree.old }
    ensures faults_grow { T.faults tree.old ≤ T.faults tree.new }
    ensures lists_stay { T.lists tree.new ≡ T.lists tree.old }
{
    match stamp_first(sought, tree, dir)? {
        Stamp::File(_) => Ok(Has::Package),
        Stamp::Dir(_) => module_probed(sought, tree, dir, true, file),
        Stamp::Absent => module_probed(sought, tree, dir, true, file),
    }
}

/// What a directory has for a name, of which `bare` says whether its last part is listed, and
/// `file` whether that part with `.py` is.
pub fn probed<T: Tree>(
    sought: &Sought,
    tree: &mut T,
    dir: &TreePath,
    bare: bool,
    file: bool,
) -> Result<Has, TreeFault>
    ensures reads { IfOk result (λ has. (portions : List (List ℕ)) (go : Onward) (search : Search)
        → Reads (T.files tree.old) (settled sought.now.name dir.now portions go has) search
        → Reads (T.files tree.old) (step.tries sought.now.name dir.now bare file portions go) search) }
    ensures failed { IsErrOf result TreeFault.Failed → Rose (T.faults tree.old) (T.faults tree.new) }
    ensures faults_stay { OnOk result (T.faults tree.new ≡ T.faults tree.old) }
    ensures files_stay { T.files tree.new ≡ T.files tree.old }
    ensures faults_grow { T.faults tree.old ≤ T.faults tree.new }
    ensures lists_stay { T.lists tree.new ≡ T.lists tree.old }
{
    if !bare {
        return module_probed(sought, tree, dir, false, file);
    }
    match stamp_folder(sought, tree, dir)? {
        Stamp::Dir(_) => package_probed(sought, tree, dir, file),
        Stamp::File(_) => module_probed(sought, tree, dir, false, file),
        Stamp::Absent => module_probed(sought, tree, dir, false, file),
    }
}
