//! A script, as what a thread runs.
ghost use Rattle.meaning_script.specs.Meaning.{meaning};
ghost use Rattle.meaning_safety.proofs.Meaning.{meaning_safe};
ghost use Rattle.step_calls.specs.Sources.{sources};

use base_types::{NoMemory, Seq};
use drive_account::Ending;
use drive_round::Program;
use machine_desk::Desk;
use machine_events::{Follow, Pair};
use program_check::Followed;
use program_run::Scripts;
use py_run::{follow, run_script};
use std::alloc::Global;
use tree_files::{Tree, TreeFault};

/// A script of this text.
#[derive(Drop)]
pub struct Script {
    text: Seq<u8>,
}

impl Program for Script {
    ghost run = { λ script t. meaning sources t script.text };

    fn run<D: Desk, T: Tree>(
        &self,
        alloc: Global,
        desk: &mut D,
        tree: &mut T,
        script: u32,
        fuel: u64,
    ) -> Result<Ending, NoMemory> {
        run_script(alloc, desk, tree, script, self.text.as_slice(), fuel)
    }
}

impl Scripts for Script {
    ghost means = { meaning sources };

    fn of_text(text: Seq<u8>) -> Script {
        Script { text }
    }

    ghost safe = { meaning_safe sources };
}

impl Followed for Script {
    ghost means = { meaning sources };

    fn follow<T: Tree>(
        alloc: Global,
        tree: &mut T,
        script: u32,
        text: &[u8],
        fuel: u64,
        own: &[Pair],
    ) -> Result<Follow, TreeFault> {
        follow(alloc, tree, script, text, fuel, own)
    }
}
