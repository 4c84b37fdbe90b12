//! The scripts against which a trace is judged, and their rounds.
ghost use Rattle.std.specs.Prelude.{◌≡◌, ◌≤◌, IfErr, IfOk, None, Some};
ghost use Rattle.program_run.specs.Scripts.{AreFew};
ghost use Rattle.program_check.specs.Judge.{one_round};
ghost use Rattle.program_check.specs.Opened.{Fit, Opens, StopsFor};

use base_types::{Exact, NoMemory, Seq, Text};
use import_words::{Round, RunPlan};
use program_rounds::{open_rounds, rounds_of};
use program_run::{Unopened, open_all};
use std::alloc::Global;
use tree_files::{Grove, Tree};

/// Rounds, and the texts of all their scripts.
#[derive(Drop)]
pub struct Opened {
    pub rounds: Seq<Round>,
    pub texts: Seq<Seq<u8>>,
}

/// The one round of a plan without a rounds file.
fn one_round(alloc: Global, run: &RunPlan) -> Result<Seq<Round>, NoMemory>
    ensures { IfOk result (λ rounds. rounds ≡ one_round run.now) }
{
    let mut rounds = Seq::new(alloc);
    let round = Round {
        edits: Seq::new(alloc),
        scripts: run.scripts.copy()?,
    };
    rounds.push(round)?;
    Ok(rounds)
}

/// Opens the scripts of a plan without a rounds file.
fn open_plain<T: Tree>(alloc: Global, tree: &mut T, run: &RunPlan) -> Result<Opened, Unopened>
    requires plain { run.now.rounds ≡ None }
    requires few { AreFew run.now.scripts }
    ensures ok { IfOk result (λ it. Opens (T.files tree.old) run.now it.rounds it.texts) }
    ensures fit { IfOk result (λ it. Fit it.rounds it.texts) }
    ensures err { IfErr result (StopsFor (T.files tree.old) run.now (T.faults tree.old) (T.faults tree.new)) }
    ensures files_stay { T.files tree.new ≡ T.files tree.old }
    ensures faults_grow { T.faults tree.old ≤ T.faults tree.new }
{
    let Ok(rounds) = one_round(alloc, run) else {
        return Err(Unopened::NoMemory);
    };
    match open_all(alloc, tree, run.scripts.as_slice()) {
        Ok(texts) => Ok(Opened { rounds, texts }),
        Err(why) => Err(why),
    }
}

/// Opens a rounds file and the scripts of its rounds.
fn open_file<T: Grove>(
    alloc: Global,
    tree: &mut T,
    run: &RunPlan,
    file: &Text,
) -> Result<Opened, Unopened>
    requires named { run.now.rounds ≡ Some file.now }
    ensures ok { IfOk result (λ it. Opens (T.files tree.old) run.now it.rounds it.texts) }
    ensures fit { IfOk result (λ it. Fit it.rounds it.texts) }
    ensures err { IfErr result (StopsFor (T.files tree.old) run.now (T.faults tree.old) (T.faults tree.new)) }
    ensures files_stay { T.files tree.new ≡ T.files tree.old }
    ensures faults_grow { T.faults tree.old ≤ T.faults tree.new }
{
    let _ = run;
    let rounds = match rounds_of(alloc, tree, file) {
        Ok(rounds) => rounds.list,
        Err(why) => return Err(why),
    };
    match open_rounds(alloc, tree, rounds.as_slice()) {
        Ok(texts) => Ok(Opened { rounds, texts }),
        Err(why) => Err(why),
    }
}

/// Opens what a plan names: the rounds file first, where there is one, and then the scripts, each in the
/// files of its own round.
pub fn open_scripts<T: Grove>(
    alloc: Global,
    tree: &mut T,
    run: &RunPlan,
) -> Result<Opened, Unopened>
    requires few { run.now.rounds ≡ None → AreFew run.now.scripts }
    ensures ok { IfOk result (λ it. Opens (T.files tree.old) run.now it.rounds it.texts) }
    ensures fit { IfOk result (λ it. Fit it.rounds it.texts) }
    ensures err { IfErr result (StopsFor (T.files tree.old) run.now (T.faults tree.old) (T.faults tree.new)) }
    ensures files_stay { T.files tree.new ≡ T.files tree.old }
    ensures faults_grow { T.faults tree.old ≤ T.faults tree.new }
{
    match &run.rounds {
        Some(file) => open_file(alloc, tree, run, file),
        None => open_plain(alloc, tree, run),
    }
}
