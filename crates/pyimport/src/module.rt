//! A module that is run as a program, as what a thread runs.
ghost use Rattle.run_module.specs.Programs.{meaning_of_name};
ghost use Rattle.module_safety.proofs.Programs.{module_safe};
ghost use Rattle.step_calls.specs.Sources.{sources};

use base_types::NoMemory;
use drive_account::Ending;
use drive_round::Program;
use machine_desk::Desk;
use program_commands::Named;
use py_run::run_module_main;
use spec_core::Dotted;
use std::alloc::Global;
use tree_files::Tree;

/// The module of this name.
#[derive(Drop)]
pub struct Module {
    name: Dotted,
}

impl Program for Module {
    ghost run = { λ it t. meaning_of_name sources t it.name };

    fn run<D: Desk, T: Tree>(
        &self,
        alloc: Global,
        desk: &mut D,
        tree: &mut T,
        script: u32,
        fuel: u64,
    ) -> Result<Ending, NoMemory> {
        run_module_main(alloc, desk, tree, script, &self.name, fuel)
    }
}

impl Named for Module {
    ghost means = { meaning_of_name sources };

    fn of_name(name: Dotted) -> Module {
        Module { name }
    }

    ghost safe = { module_safe sources };
}
