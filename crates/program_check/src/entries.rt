//! The verdict on the entries of a trace.
ghost use Rattle.std.specs.Prelude.{◌≡◌, ◌≤◌, ◌+◌, ◌++◌, List, ℕ, Option, drop, length, replicate, take, IfOk, IfSome, IsErrOf, OnOk};
ghost use Rattle.tree_files.specs.Count.{Rose};
ghost use Rattle.tree_files.specs.Files.{Files};
ghost use Rattle.tree_overlay.specs.Kinds.{IsBelowRoot};
ghost use Rattle.tree_overlay.specs.Told.{edited_told};
ghost use Rattle.trace_check.specs.Threads.{list_of, pairs_of};
ghost use Rattle.drive_account.specs.Following.{Answers};
ghost use Rattle.program_rounds.specs.Rounds.{opening_in, told_in};
ghost use Rattle.program_check.specs.Judge.{AreFollows, JudgesEntries};
ghost use Rattle.program_check.specs.Opened.{Fit};

use crate::followed::Followed;
use crate::opened::Opened;
use base_types::{Exact, NoMemory, Seq};
use import_machine::Machine;
use import_words::{Round, RunPlan};
use machine_events::{Entry, Follow, Pair};
use program_rounds::{Ground, ground_for};
use std::alloc::Global;
use trace_check::{Verdict, counts_of, own_lists, replay_shares, threads_of, verdict_in};
use tree_files::{Edit, Grove, TreeFault};
use tree_overlay::{absorb_fork, add_edits, edited_fork};

/// A judged trace has fewer entries, so that the line behind the last one has a number of 32 bits.
const MOST_ENTRIES: usize = 4_294_967_294;

/// Compares what one script made with what it means, over a fork of the tree after these edits.
fn follow_one<F: Followed, T: Grove>(
    alloc: Global,
    tree: &mut T,
    edits: &[Edit],
    script: u32,
    text: &[u8],
    fuel: u64,
    own: &[Pair],
) -> Result<Follow, TreeFault>
    requires below { IsBelowRoot edits.now }
    ensures answers { IfSome (edited_told edits.now (T.files tree.old)) (λ files. IfOk result
        (Answers files script (F.means script text.now) fuel (pairs_of own.now))) }
    ensures failed { IsErrOf result TreeFault.Failed → Rose (T.faults tree.old) (T.faults tree.new) }
    ensures files_stay { T.files tree.new ≡ T.files tree.old }
    ensures faults_grow { T.faults tree.old ≤ T.faults tree.new }
{
    let mut fork = edited_fork(alloc, tree, edits)?;
    let answer = F::follow(alloc, &mut fork, script, text, fuel, own);
    absorb_fork(tree, fork);
    answer
}

/// Compares each script of one round, the first with the number `from`, in their order.
fn follow_round<F: Followed, T: Grove>(
    alloc: Global,
    tree: &mut T,
    edits: &[Edit],
    from: u32,
    texts: &[Seq<u8>],
    fuel: u64,
    lists: &[Seq<Pair>],
    follows: &mut Vec<Follow>,
) -> Result<(), TreeFault>
    requires below { IsBelowRoot edits.now }
    requires few { from + length texts.now ≤ 16 }
    requires held { from + length texts.now ≤ length lists.now }
    ensures each { OnOk result ((trees : List (Option Files)) (before : List (List ℕ)) → from ≡ length before
        → AreFollows F.means fuel (list_of lists.now) 0 trees before follows.old.items
        → AreFollows F.means fuel (list_of lists.now) 0
        (trees ++ replicate (length texts.now) (edited_told edits.now (T.files tree.old))) (before ++ texts.now)
        follows.new.items) }
    ensures failed { IsErrOf result TreeFault.Failed → Rose (T.faults tree.old) (T.faults tree.new) }
    ensures files_stay { T.files tree.new ≡ T.files tree.old }
    ensures faults_grow { T.faults tree.old ≤ T.faults tree.new }
{
    for i in 0..texts.len() {
        let text = texts[i].as_slice();
        let script = from + i as u32;
        let at = script as usize;
        let own = lists[at].as_slice();
        let follow = follow_one::<F, T>(alloc, tree, edits, script, text, fuel, own)?;
        follows.push(follow)?;
    }
    Ok(())
}

/// Compares each script of one round more, over the files after its edits too.
fn follow_next<F: Followed, T: Grove>(
    alloc: Global,
    tree: &mut T,
    edits: &mut Seq<Edit>,
    round: &Round,
    texts: &[Seq<u8>],
    fuel: u64,
    lists: &[Seq<Pair>],
    follows: &mut Vec<Follow>,
) -> Result<(), TreeFault>
    requires before { IsBelowRoot edits.old }
    requires below { IsBelowRoot round.now.edits }
    requires fits { length follows.old.items + length round.now.scripts ≤ length texts.now }
    requires few { length texts.now ≤ 16 }
    requires held { length texts.now ≤ length lists.now }
    ensures edits { OnOk result (edits.new ≡ edits.old ++ round.now.edits) }
    ensures each { OnOk result ((trees : List (Option Files)) (before : List (List ℕ))
        → length follows.old.items ≡ length before
        → AreFollows F.means fuel (list_of lists.now) 0 trees before follows.old.items
        → AreFollows F.means fuel (list_of lists.now) 0
        (trees ++ replicate (length round.now.scripts) (edited_told edits.new (T.files tree.old)))
        (before ++ take (length round.now.scripts) (drop (length follows.old.items) texts.now)) follows.new.items) }
    ensures failed { IsErrOf result TreeFault.Failed → Rose (T.faults tree.old) (T.faults tree.new) }
    ensures files_stay { T.files tree.new ≡ T.files tree.old }
    ensures faults_grow { T.faults tree.old ≤ T.faults tree.new }
{
    add_edits(edits, round.edits.as_slice())?;
    let from = follows.len();
    let here = &texts[from..from + round.scripts.len()];
    let edits = edits.as_slice();
    let first = from as u32;
    follow_round::<F, T>(alloc, tree, edits, first, here, fuel, lists, follows)
}

/// Compares each script of rounds, in their order, over the files of its own round.
fn follow_all<F: Followed, T: Grove>(
    alloc: Global,
    tree: &mut T,
    rounds: &[Round],
    texts: &[Seq<u8>],
    fuel: u64,
    lists: &[Seq<Pair>],
) -> Result<Vec<Follow>, TreeFault>
    requires fit { Fit rounds.now texts.now }
    requires held { length texts.now ≤ length lists.now }
    ensures each { IfOk result (λ it. AreFollows F.means fuel (list_of lists.now) 0
        (told_in (T.files tree.old) rounds.now) texts.now it.items) }
    ensures failed { IsErrOf result TreeFault.Failed → Rose (T.faults tree.old) (T.faults tree.new) }
    ensures files_stay { T.files tree.new ≡ T.files tree.old }
    ensures faults_grow { T.faults tree.old ≤ T.faults tree.new }
{
    let mut follows = Vec::new(alloc);
    let mut edits = Seq::new(alloc);
    for round in rounds {
        follow_next::<F, T>(
            alloc,
            tree,
            &mut edits,
            round,
            texts,
            fuel,
            lists,
            &mut follows,
        )?;
    }
    Ok(follows)
}

/// The machine before the first event of a run.
fn machine_of(alloc: Global, run: &RunPlan, it: &Opened) -> Result<Machine, NoMemory>
    requires fit { Fit it.now.rounds it.now.texts }
    ensures { IfOk result (λ machine. machine ≡ opening_in run.now it.now.rounds it.now.texts) }
{
    let texts = it.texts.copy()?;
    let Ground { opening, machine } = ground_for(alloc, run, it.rounds.as_slice(), texts)?;
    drop(opening);
    Ok(machine)
}

/// Judges the entries of a trace. More of them than a judged trace has are want of memory. Each entry goes
/// to its thread, and is replayed after all scripts were compared: so the machine grows while the entries go.
pub fn judge_entries<F: Followed, T: Grove>(
    alloc: Global,
    run: &RunPlan,
    it: &Opened,
    tree: &mut T,
    entries: Seq<Entry>,
) -> Result<Verdict, TreeFault>
    requires fit { Fit it.now.rounds it.now.texts }
    ensures judges { IfOk result (JudgesEntries F.means (T.files tree.old) run.now it.now.rounds it.now.texts
        entries) }
    ensures failed { IsErrOf result TreeFault.Failed → Rose (T.faults tree.old) (T.faults tree.new) }
    ensures files_stay { T.files tree.new ≡ T.files tree.old }
    ensures faults_grow { T.faults tree.old ≤ T.faults tree.new }
{
    if entries.len() >= MOST_ENTRIES {
        return Err(TreeFault::NoMemory);
    }
    let history = entries.as_slice();
    let counts = counts_of(history);
    let threads = threads_of(alloc, history)?;
    let order = threads.as_slice();
    let rounds = it.rounds.as_slice();
    let texts = it.texts.as_slice();
    let scripts = texts.len();
    let lists = own_lists(alloc, entries, scripts)?;
    let own = lists.as_slice();
    let follows = follow_all::<F, T>(alloc, tree, rounds, texts, run.fuel, own)?;
    let machine = machine_of(alloc, run, it)?;
    let replayed = replay_shares(machine, order, lists, counts)?;
    Ok(verdict_in(order, &replayed, follows.as_slice()))
}
