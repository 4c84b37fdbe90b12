//! What a made workload runs on.
ghost use Rattle.std.specs.Prelude.{◌≡◌, ◌≤◌, IfOk, Some, length};
ghost use Rattle.program_gen.specs.Generator.{made_files, script_files};
ghost use Rattle.program_gen.specs.Scripts.{script_texts};
ghost use Rattle.program_gen.specs.MadeRuns.{made_plan};
ghost use Rattle.program_gen.specs.Wanting.{IsWanting};

use crate::{MadeScripts, MadeTree, made_scripts_stand, make_scripts};
use base_types::{NoMemory, Seq, Text, Texts};
use import_words::RunPlan;
use program_run::{Unopened, open_all};
use std::alloc::Global;
use tree_files::Tree;

/// The budget of each made script.
const FUEL: u64 = 2000000;

/// The made tree, the plan of its scripts, and their texts.
#[derive(Drop)]
pub(crate) struct Ready {
    pub(crate) tree: MadeTree,
    pub(crate) plan: RunPlan,
    pub(crate) texts: Seq<Seq<u8>>,
}

/// The plan for made scripts.
fn made_plan(alloc: Global, scripts: Texts) -> Result<RunPlan, NoMemory>
    ensures { IfOk result (λ plan. plan ≡ made_plan scripts) }
{
    let mut path = Texts::new(alloc);
    path.push(Text::new(alloc))?;
    Ok(RunPlan {
        path,
        fuel: FUEL,
        trace: false,
        scripts,
        rounds: None,
        bundles: false,
    })
}

/// Why scripts have no texts that stand in a tree of which no call fails.
fn wanting(stop: Unopened) -> NoMemory
    requires { IsWanting stop }
{
    match stop {
        Unopened::NoMemory => NoMemory,
        Unopened::Refused(_) | Unopened::Unread => unreachable!(),
    }
}

/// The texts of the made scripts, of which each stands in the tree.
fn made_texts(
    alloc: Global,
    made: &mut MadeScripts,
    seed: u64,
    modules: u32,
    scripts: u32,
) -> Result<Seq<Seq<u8>>, NoMemory>
    requires some { 1 ≤ modules }
    requires files { ⟦<MadeTree as Tree>⟧.files made.old.tree ≡ Some (made_files seed modules scripts) }
    requires scripts { made.old.scripts ≡ script_files scripts }
    ensures texts { IfOk result (λ texts. texts ≡ script_texts seed modules scripts) }
    ensures files { ⟦<MadeTree as Tree>⟧.files made.new.tree ≡ ⟦<MadeTree as Tree>⟧.files made.old.tree }
    ensures scripts { made.new.scripts ≡ made.old.scripts }
{
    made_scripts_stand();
    match open_all(alloc, &mut made.tree, made.scripts.as_slice()) {
        Ok(texts) => Ok(texts),
        Err(stop) => Err(wanting(stop)),
    }
}

/// Makes a workload, and opens its scripts.
pub(crate) fn make_ready(
    alloc: Global,
    seed: u64,
    modules: u32,
    scripts: u32,
) -> Result<Ready, NoMemory>
    requires { 1 ≤ modules }
    ensures files { IfOk result (λ it. ⟦<MadeTree as Tree>⟧.files it.tree ≡ Some (made_files seed modules scripts)) }
    ensures plan { IfOk result (λ it. it.plan ≡ made_plan (script_files scripts)) }
    ensures texts { IfOk result (λ it. it.texts ≡ script_texts seed modules scripts) }
{
    let mut made = make_scripts(alloc, seed, modules, scripts)?;
    let texts = made_texts(alloc, &mut made, seed, modules, scripts)?;
    let MadeScripts { tree, scripts } = made;
    let plan = made_plan(alloc, scripts)?;
    Ok(Ready { tree, plan, texts })
}
