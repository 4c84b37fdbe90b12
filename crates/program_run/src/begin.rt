//! What programs run on.
ghost use Rattle.std.specs.Prelude.{◌≡◌, ◌≤◌, ◌∷◌, [], ℕ, IfOk, length};
ghost use Rattle.machine_book.specs.Bound.{opened, CanOpen};
ghost use Rattle.program_run.specs.Alone.{opening_of};
ghost use Rattle.program_run.specs.Scripts.{AreFew};
ghost use Rattle.program_run.specs.Together.{Mean};

use crate::scripts::Scripts;
use base_types::{Exact, NoMemory, Seq};
use drive_round::Program;
use import_machine::Machine;
use import_words::RunPlan;
use machine_book::Opening;
use std::alloc::Global;

/// What programs run on: the machine and what it was opened with; and the programs.
#[derive(Drop)]
pub struct Begun<P: Program> {
    pub opening: Opening,
    pub machine: Machine,
    pub programs: Vec<P>,
}

fn one_round(alloc: Global, size: usize) -> Result<Seq<u32>, NoMemory>
    requires { size ≤ 16 }
    ensures { IfOk result (λ rounds. rounds ≡ size ∷ []) }
{
    let mut rounds = Seq::new(alloc);
    rounds.push(size as u32)?;
    Ok(rounds)
}

/// The scripts of these texts.
pub fn programs_of<S: Scripts>(alloc: Global, texts: &[Seq<u8>]) -> Result<Vec<S>, NoMemory>
    ensures { IfOk result (λ programs. Mean S.run S.means texts.now programs.items) }
{
    let mut programs = Vec::new(alloc);
    for text in texts {
        programs.push(S::of_text(text.copy()?))?;
    }
    Ok(programs)
}

/// The machine for the programs of a plan, which are of one round. It keeps these texts.
pub fn begin<P: Program>(
    alloc: Global,
    plan: &RunPlan,
    texts: Seq<Seq<u8>>,
    programs: Vec<P>,
) -> Result<Begun<P>, NoMemory>
    requires few { AreFew plan.now.scripts }
    requires texts { length texts ≡ length plan.now.scripts }
    ensures opening { IfOk result (λ it. opened it.opening ≡ opening_of plan.now texts) }
    ensures machine { IfOk result (λ it. it.machine ≡ opening_of plan.now texts) }
    ensures can_open { IfOk result (λ it. CanOpen it.opening) }
    ensures rounds { IfOk result (λ it. it.opening.rounds ≡ length plan.now.scripts ∷ []) }
    ensures programs { IfOk result (λ it. it.programs ≡ programs) }
{
    let opening = Opening {
        scripts: plan.scripts.copy()?,
        texts,
        path: plan.path.copy()?,
        rounds: one_round(alloc, plan.scripts.len())?,
    };
    let machine = opening.machine()?;
    Ok(Begun {
        opening,
        machine,
        programs,
    })
}
