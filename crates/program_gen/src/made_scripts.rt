//! A made workload with its tree.
ghost use Rattle.std.specs.Prelude.{◌≡◌, ◌≤◌, IfOk, Some};
ghost use Rattle.program_gen.specs.Generator.{made_files, script_files};

use crate::tree::MadeTree;
use crate::{Made, generate};
use base_types::{NoMemory, Texts};
use std::alloc::Global;
use tree_files::Tree;

/// A made tree, of which no call fails, and the files of its scripts in their order.
#[derive(Drop)]
pub struct MadeScripts {
    pub tree: MadeTree,
    pub scripts: Texts,
}

/// The workload of a seed: so many modules, and so many scripts that import them.
pub fn make_scripts(
    alloc: Global,
    seed: u64,
    modules: u32,
    scripts: u32,
) -> Result<MadeScripts, NoMemory>
    requires { 1 ≤ modules }
    ensures files { IfOk result (λ made. ⟦<MadeTree as Tree>⟧.files made.tree
        ≡ Some (made_files seed modules scripts)) }
    ensures lists { IfOk result (λ made. ⟦<MadeTree as Tree>⟧.lists made.tree ≡ 0) }
    ensures scripts { IfOk result (λ made. made.scripts ≡ script_files scripts) }
{
    let Made { tree, scripts } = generate(alloc, seed, modules, scripts)?;
    Ok(MadeScripts {
        tree: MadeTree::of(tree),
        scripts,
    })
}
