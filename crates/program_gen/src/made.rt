//! The whole workload.
ghost use Rattle.std.specs.Prelude.{◌≡◌, ◌≤◌, ◌<◌, [], ◌∷◌, ◌++◌, IfOk, OnOk, Some};
ghost use Rattle.tree_files.specs.MemFiles.{mem_files, root_alone};
ghost use Rattle.program_gen.specs.Generator.{IsFlat, after, imports_in, before_module, before_script, module_name, module_text, script_name, script_text, with_file, with_modules, with_scripts, made_files, file_of, script_files};

use crate::draws::Draws;
use crate::files::{module_file, put, script_file};
use crate::texts::{module_text, script_text};
use base_types::{NoMemory, Text, Texts};
use std::alloc::Global;
use tree_files::{MemTree, Tree};

/// A made tree, and the files of its scripts in their order.
#[derive(Drop)]
pub struct Made {
    pub tree: MemTree,
    pub scripts: Texts,
}

fn put_module(
    alloc: Global,
    tree: &mut MemTree,
    draws: &mut Draws,
    number: u32,
) -> Result<(), NoMemory>
    requires flat { IsFlat (mem_files tree.old.nodes) }
    ensures files { OnOk result (mem_files tree.new.nodes ≡ with_file (mem_files tree.old.nodes) (module_name number)
        (module_text number draws.old.state)) }
    ensures flat { OnOk result (IsFlat (mem_files tree.new.nodes)) }
    ensures state { OnOk result (draws.new.state ≡ after (imports_in number) draws.old.state) }
    ensures faults { tree.new.faults ≡ tree.old.faults }
    ensures lists { tree.new.lists ≡ tree.old.lists }
    ensures due { tree.new.due ≡ tree.old.due }
{
    let text = module_text(alloc, draws, number as u64)?;
    put(tree, &module_file(alloc, number as u64)?, &text)
}

#[tactic(auto, using(crate::proofs::Flat::flat_root))]
fn put_modules(
    alloc: Global,
    tree: &mut MemTree,
    draws: &mut Draws,
    modules: u32,
) -> Result<(), NoMemory>
    requires root { mem_files tree.old.nodes ≡ root_alone }
    ensures files { OnOk result (mem_files tree.new.nodes ≡ with_modules modules draws.old.state) }
    ensures flat { OnOk result (IsFlat (mem_files tree.new.nodes)) }
    ensures state { OnOk result (draws.new.state ≡ before_module modules draws.old.state) }
    ensures faults { tree.new.faults ≡ tree.old.faults }
    ensures lists { tree.new.lists ≡ tree.old.lists }
    ensures due { tree.new.due ≡ tree.old.due }
{
    for number in 0..modules {
        put_module(alloc, tree, draws, number)?;
    }
    Ok(())
}

/// The file of the script that is put.
fn put_script(
    alloc: Global,
    tree: &mut MemTree,
    draws: &mut Draws,
    modules: u32,
    script: u32,
) -> Result<Text, NoMemory>
    requires some { 1 ≤ modules }
    requires flat { IsFlat (mem_files tree.old.nodes) }
    ensures file { IfOk result (λ it. it ≡ file_of (script_name script)) }
    ensures files { OnOk result (mem_files tree.new.nodes ≡ with_file (mem_files tree.old.nodes) (script_name script)
        (script_text modules draws.old.state)) }
    ensures flat { OnOk result (IsFlat (mem_files tree.new.nodes)) }
    ensures state { OnOk result (draws.new.state ≡ after 4 draws.old.state) }
    ensures faults { tree.new.faults ≡ tree.old.faults }
    ensures lists { tree.new.lists ≡ tree.old.lists }
    ensures due { tree.new.due ≡ tree.old.due }
{
    let text = script_text(alloc, draws, modules as u64)?;
    let file = script_file(alloc, script as u64)?;
    put(tree, &file, &text)?;
    Ok(file)
}

fn put_scripts(
    alloc: Global,
    tree: &mut MemTree,
    draws: &mut Draws,
    modules: u32,
    scripts: u32,
) -> Result<Texts, NoMemory>
    requires some { 1 ≤ modules }
    requires flat { IsFlat (mem_files tree.old.nodes) }
    ensures names { IfOk result (λ names. names ≡ script_files scripts) }
    ensures files { OnOk result (mem_files tree.new.nodes ≡ with_scripts
        (mem_files tree.old.nodes) modules scripts draws.old.state) }
    ensures faults { tree.new.faults ≡ tree.old.faults }
    ensures lists { tree.new.lists ≡ tree.old.lists }
    ensures due { tree.new.due ≡ tree.old.due }
{
    let mut files = Texts::new(alloc);
    for script in 0..scripts {
        files.push(put_script(alloc, tree, draws, modules, script)?)?;
    }
    Ok(files)
}

/// The workload of a seed: so many modules, and so many scripts that import them. No call of its
/// tree is to fail.
pub fn generate(alloc: Global, seed: u64, modules: u32, scripts: u32) -> Result<Made, NoMemory>
    requires { 1 ≤ modules }
    ensures files { IfOk result (λ made. ⟦<MemTree as Tree>⟧.files made.tree ≡ Some (made_files seed modules scripts)) }
    ensures scripts { IfOk result (λ made. made.scripts ≡ script_files scripts) }
    ensures faults { IfOk result (λ made. ⟦<MemTree as Tree>⟧.faults made.tree ≡ 0) }
    ensures lists { IfOk result (λ made. ⟦<MemTree as Tree>⟧.lists made.tree ≡ 0) }
    ensures named { IfOk result (λ made. made.tree.due.named ≡ []) }
{
    let mut tree = MemTree::new(alloc)?;
    let mut draws = Draws { state: seed };
    put_modules(alloc, &mut tree, &mut draws, modules)?;
    let scripts = put_scripts(alloc, &mut tree, &mut draws, modules, scripts)?;
    Ok(Made { tree, scripts })
}
