//! What rounds run on.
ghost use Rattle.std.specs.Prelude.{◌≡◌, ◌≤◌, [], ◌++◌, ℕ, IfOk, OnOk, length, map};
ghost use Rattle.machine_book.specs.Bound.{opened, CanOpen};
ghost use Rattle.program_run.specs.Together.{Mean};
ghost use Rattle.drive_round.specs.Played.{AreShort};
ghost use Rattle.program_rounds.specs.Rounds.{AreFew, AreSingle, CanRun, edits_of, opening_in, scripts_of, sizes_of};

use base_types::{Exact, NoMemory, Seq, Text, Texts};
use import_machine::Machine;
use import_words::{Round, RunPlan};
use machine_book::Opening;
use program_run::{Came, Scripts, programs_of};
use std::alloc::Global;
use tree_files::Edit;

/// The machine that rounds run on, and what it was opened with.
#[derive(Drop)]
pub struct Ground {
    pub opening: Opening,
    pub machine: Machine,
}

/// What rounds of one script each run on: the machine and what it was opened with, the scripts, and
/// room for what comes of each.
#[derive(Drop)]
pub(crate) struct Begun<S: Scripts> {
    pub(crate) opening: Opening,
    pub(crate) machine: Machine,
    pub(crate) programs: Vec<S>,
    pub(crate) results: Vec<Came>,
}

/// Puts copies of texts behind those that there are.
fn add_texts(texts: &mut Texts, more: &[Text]) -> Result<(), NoMemory>
    ensures { OnOk result (texts.new ≡ texts.old ++ more.now) }
{
    for text in more {
        texts.push(text.copy()?)?;
    }
    Ok(())
}

/// All scripts of the rounds, in their order.
pub(crate) fn scripts_of(alloc: Global, rounds: &[Round]) -> Result<Texts, NoMemory>
    ensures { IfOk result (λ scripts. scripts ≡ scripts_of rounds.now) }
{
    let mut scripts = Texts::new(alloc);
    for round in rounds {
        add_texts(&mut scripts, round.scripts.as_slice())?;
    }
    Ok(scripts)
}

/// Copies of edits.
fn copied(alloc: Global, edits: &[Edit]) -> Result<Seq<Edit>, NoMemory>
    ensures { IfOk result (λ copies. copies ≡ edits.now) }
{
    let mut copies = Seq::new(alloc);
    for edit in edits {
        copies.push(edit.copy()?)?;
    }
    Ok(copies)
}

/// What is edited before each round.
pub(crate) fn edits_of(alloc: Global, rounds: &[Round]) -> Result<Seq<Seq<Edit>>, NoMemory>
    ensures { IfOk result (λ edits. edits ≡ edits_of rounds.now) }
{
    let mut edits = Seq::new(alloc);
    for round in rounds {
        edits.push(copied(alloc, round.edits.as_slice())?)?;
    }
    Ok(edits)
}

/// How many scripts a round has.
fn size_of(round: &Round) -> u32
    requires { length round.now.scripts ≤ 16 }
    ensures { result ≡ length round.now.scripts }
{
    round.scripts.len() as u32
}

/// How many scripts each round has.
fn sizes_of(alloc: Global, rounds: &[Round]) -> Result<Seq<u32>, NoMemory>
    requires { CanRun rounds.now }
    ensures { IfOk result (λ sizes. sizes ≡ sizes_of rounds.now) }
{
    let mut sizes = Seq::new(alloc);
    for round in rounds {
        sizes.push(size_of(round))?;
    }
    Ok(sizes)
}

/// Room for what comes of so many scripts; nothing has come yet.
fn room_for(alloc: Global, count: usize) -> Result<Vec<Came>, NoMemory>
    ensures short { IfOk result (λ results. AreShort results.items) }
    ensures many { IfOk result (λ results. length results.items ≡ count) }
{
    let mut results = Vec::new(alloc);
    for _ in 0..count {
        results.push(Err(NoMemory))?;
    }
    Ok(results)
}

/// The machine for the scripts of rounds, and what it was opened with.
pub fn ground_for(
    alloc: Global,
    plan: &RunPlan,
    rounds: &[Round],
    texts: Seq<Seq<u8>>,
) -> Result<Ground, NoMemory>
    requires can_run { CanRun rounds.now }
    requires texts { length texts ≡ length (scripts_of rounds.now) }
    ensures opening { IfOk result (λ it. opened it.opening ≡ opening_in plan.now rounds.now texts) }
    ensures machine { IfOk result (λ it. it.machine ≡ opened it.opening) }
    ensures can_open { IfOk result (λ it. CanOpen it.opening) }
    ensures scripts { IfOk result (λ it. it.opening.scripts ≡ scripts_of rounds.now) }
    ensures rounds { IfOk result (λ it. it.opening.rounds ≡ sizes_of rounds.now) }
{
    let opening = Opening {
        scripts: scripts_of(alloc, rounds)?,
        texts,
        path: plan.path.copy()?,
        rounds: sizes_of(alloc, rounds)?,
    };
    let machine = opening.machine()?;
    Ok(Ground { opening, machine })
}

/// What rounds of one script each run on.
pub(crate) fn begin<S: Scripts>(
    alloc: Global,
    plan: &RunPlan,
    rounds: &[Round],
    texts: Seq<Seq<u8>>,
) -> Result<Begun<S>, NoMemory>
    requires few { AreFew rounds.now }
    requires single { AreSingle rounds.now }
    requires texts { length texts ≡ length rounds.now }
    ensures opening { IfOk result (λ it. opened it.opening ≡ opening_in plan.now rounds.now texts) }
    ensures machine { IfOk result (λ it. it.machine ≡ opened it.opening) }
    ensures can_open { IfOk result (λ it. CanOpen it.opening) }
    ensures scripts { IfOk result (λ it. it.opening.scripts ≡ scripts_of rounds.now) }
    ensures rounds { IfOk result (λ it. it.opening.rounds ≡ sizes_of rounds.now) }
    ensures programs { IfOk result (λ it. Mean S.run S.means texts it.programs.items) }
    ensures results { IfOk result (λ it. AreShort it.results.items × (length it.results.items ≡ length rounds.now)) }
{
    let programs = programs_of(alloc, texts.as_slice())?;
    let Ground { opening, machine } = ground_for(alloc, plan, rounds, texts)?;
    Ok(Begun {
        opening,
        machine,
        programs,
        results: room_for(alloc, rounds.len())?,
    })
}
