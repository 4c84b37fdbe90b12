//! Files in the root of a tree.
ghost use Rattle.std.specs.Prelude.{◌≡◌, [], ◌∷◌, IfOk, OnOk, IsTrue};
ghost use Rattle.base_types.specs.Path.{is_part};
ghost use Rattle.tree_files.specs.Edits.{placed};
ghost use Rattle.tree_files.specs.MemFiles.{mem_files};
ghost use Rattle.tree_files.specs.declared.tree.Node.TheVariants.{File};
ghost use Rattle.program_gen.specs.Generator.{IsFlat, module_name, script_name, file_of};

use base_types::{NoMemory, Text, TreePath};
use std::alloc::Global;
use tree_files::MemTree;

#[tactic(auto, using(crate::proofs::Names::module_part))]
/// The file of a module.
pub(crate) fn module_file(alloc: Global, number: u64) -> Result<Text, NoMemory>
    ensures file { IfOk result (λ it. it ≡ file_of (module_name number)) }
    ensures part { IfOk result (λ it. IsTrue (is_part it)) }
{
    Text::from_string(format!(in alloc; "m{number}.py")?)
}

#[tactic(auto, using(crate::proofs::Names::script_part))]
/// The file of a script.
pub(crate) fn script_file(alloc: Global, script: u64) -> Result<Text, NoMemory>
    ensures file { IfOk result (λ it. it ≡ file_of (script_name script)) }
    ensures part { IfOk result (λ it. IsTrue (is_part it)) }
{
    Text::from_string(format!(in alloc; "s{script}.py")?)
}

#[tactic(auto, using(crate::proofs::Flat::flat_placed))]
/// Puts a file into the root.
pub(crate) fn put(tree: &mut MemTree, file: &Text, text: &Text) -> Result<(), NoMemory>
    requires part { IsTrue (is_part file.now) }
    requires flat { IsFlat (mem_files tree.old.nodes) }
    ensures files { OnOk result (mem_files tree.new.nodes ≡ placed (mem_files tree.old.nodes) (file.now ∷ [])
        (File text.now)) }
    ensures flat { OnOk result (IsFlat (mem_files tree.new.nodes)) }
    ensures faults { tree.new.faults ≡ tree.old.faults }
    ensures lists { tree.new.lists ≡ tree.old.lists }
    ensures due { tree.new.due ≡ tree.old.due }
{
    let path = TreePath::root(file.alloc()).child(file)?;
    tree.put_file(&path, text.as_bytes())
}
