//! Rounds of several scripts, one after another on one book.
ghost use Rattle.std.specs.Prelude.{◌≡◌, ◌≤◌, ◌<◌, ◌+◌, ◌^◌, ◌++◌, ◌∷◌, [], List, None, IfOk, IfErr, IfSome, IsSome, OnErr, length, map, take, drop};
ghost use Rattle.std.specs.List.{All, list_all};
ghost use Rattle.std.specs.Result.{is_ok};
ghost use Rattle.tree_overlay.specs.Kinds.{IsBelowRoot};
ghost use Rattle.tree_overlay.specs.Told.{edited_told};
ghost use Rattle.words_rounds.specs.declared.rounds.Round.{Round as RoundOf};
ghost use Rattle.machine_spec.specs.Opening.{round_starts};
ghost use Rattle.machine_spec.specs.declared.state.State.{State};
ghost use Rattle.machine_desk.specs.Outgo.{Outgo};
ghost use Rattle.drive_round.specs.Ran.{Counts, counted, IsNewTree, MayBegin};
ghost use Rattle.program_run.specs.Results.{AreWhole};
ghost use Rattle.program_run.specs.Together.{Mean};
ghost use Rattle.program_rounds.specs.Course.{HasCome, MayGoOn, RoundRanOver, under_by};
ghost use Rattle.program_rounds.specs.Rounds.{AreBelowRoot, CanRun, scripts_of, sizes_of};

use base_types::{NoMemory, Seq};
use drive_round::{Gate, Over, Program, Round as Ran, Unrun, run_over};
use import_words::Round;
use machine_book::Book;
use machine_desk::Outlet;
use program_run::{Came, Scripts, programs_of};
use std::alloc::Global;
use std::sync::Wait;
use std::thread::Threads;
use tree_files::{Edit, Grove, Tree};
use tree_overlay::{Overlay, absorb_forks, add_edits, edited_fork};

/// How far rounds have come: their book, all edits so far, and how each script ended. Where memory was
/// wanted there are no results, and no round begins any more.
#[derive(Drop)]
pub(crate) struct Course<O: Outlet> {
    pub(crate) book: Book<O>,
    pub(crate) edits: Seq<Edit>,
    pub(crate) results: Option<Vec<Came>>,
}

/// So many forks of a tree after the same edits.
fn forks_after<T: Grove>(
    alloc: Global,
    tree: &mut T,
    edits: &[Edit],
    count: usize,
) -> Result<Vec<Overlay<T>>, NoMemory>
    requires { IsBelowRoot edits.now }
    ensures count { IfOk result (λ forks. length forks.items ≡ count) }
    ensures forks { IfOk result (λ forks. All (IsNewTree ⟦<Overlay<T> as Tree>⟧.files ⟦<Overlay<T> as Tree>⟧.faults
        ⟦<Overlay<T> as Tree>⟧.lists (edited_told edits.now (T.files tree.old))) forks.items) }
    ensures files_stay { T.files tree.new ≡ T.files tree.old }
    ensures faults_stay { T.faults tree.new ≡ T.faults tree.old }
    ensures lists_stay { T.lists tree.new ≡ T.lists tree.old }
{
    let mut forks = Vec::new(alloc);
    for _ in 0..count {
        forks.push(edited_fork(alloc, tree, edits)?)?;
    }
    Ok(forks)
}

/// Runs the programs of one round, the first with the number `from`, each in a thread of its own over
/// a fork of the tree after these edits. The tree takes in what the forks counted. Where memory is
/// wanted before a thread begins, the book comes back.
fn run_edited<
    P: Program + Send,
    R: Threads + Wait + Sync,
    T: Grove,
    O: Outlet + Send,
    G: Gate + Sync,
>(
    rt: &R,
    alloc: Global,
    book: Book<O>,
    from: u32,
    programs: Vec<P>,
    edits: &[Edit],
    tree: &mut T,
    fuel: u64,
    gate: &G,
) -> Result<Ran<O>, Unrun<O>>
    requires some { 1 ≤ length programs.items }
    requires fits { from + length programs.items < 2 ^ 32 }
    requires may { MayBegin book from (length programs.items) }
    requires below { IsBelowRoot edits.now }
    ensures files { T.files tree.new ≡ T.files tree.old }
    ensures ok { IfOk result (λ ran. RoundRanOver O.piece O.out (edited_told edits.now (T.files tree.old)) from
        (map P.run programs.items) fuel book ran.book (counted T.faults T.lists tree.old)
        (counted T.faults T.lists tree.new) ran.results.items) }
    ensures faults_grow { T.faults tree.old ≤ T.faults tree.new }
    ensures err { IfErr result (λ unrun. unrun.book ≡ book) }
    ensures unchanged { OnErr result ((T.faults tree.new ≡ T.faults tree.old) × (T.lists tree.new ≡ T.lists tree.old)) }
{
    let Ok(forks) = forks_after(alloc, tree, edits, programs.len()) else {
        return Err(Unrun { book });
    };
    match run_over(rt, alloc, book, from, programs, forks, fuel, gate) {
        Ok(over) => {
            let Over {
                book,
                trees,
                results,
            } = over;
            absorb_forks(tree, trees);
            Ok(Ran { book, results })
        }
        Err(unrun) => Err(unrun),
    }
}

fn has_end(came: &Came) -> bool
    ensures { result ≡ is_ok came.now }
{
    came.is_ok()
}

/// Whether no script wanted memory.
fn all_ended(results: &[Came]) -> bool
    ensures { result ≡ list_all is_ok results.now }
{
    results.iter().all(|came| has_end(came))
}

/// Puts results behind those that there are. There are none where memory is wanted.
fn append(mut results: Vec<Came>, more: Vec<Came>) -> Option<Vec<Came>>
    ensures { IfSome result (λ all. all.items ≡ results.items ++ more.items) }
{
    for came in more {
        if results.push(came).is_err() {
            return None;
        }
    }
    Some(results)
}

/// The results so far and those of one round more. There are none where a script wanted memory.
fn joined(results: Vec<Came>, more: Vec<Came>) -> Option<Vec<Came>>
    ensures { IfSome result (λ all. (all.items ≡ results.items ++ more.items) × AreWhole more.items) }
{
    if all_ended(more.as_slice()) {
        return append(results, more);
    }
    None
}

/// The programs of so many texts from this one on.
fn programs_at<S: Scripts>(
    alloc: Global,
    texts: &[Seq<u8>],
    from: usize,
    count: usize,
) -> Result<Vec<S>, NoMemory>
    requires { from + count ≤ length texts.now }
    ensures { IfOk result (λ programs. Mean S.run S.means (take count (drop from texts.now)) programs.items) }
{
    let end = from + count;
    let here = &texts[from..end];
    programs_of::<S>(alloc, here)
}

/// One round more. Nothing of it begins where memory was wanted before.
fn go_on<S: Scripts + Send, R: Threads + Wait + Sync, T: Grove, O: Outlet + Send, G: Gate + Sync>(
    rt: &R,
    alloc: Global,
    course: Course<O>,
    round: &Round,
    texts: &[Seq<u8>],
    tree: &mut T,
    fuel: u64,
    gate: &G,
) -> Course<O>
    requires may { IfSome course.results (λ r. MayGoOn course.book (length r.items) round.now texts.now) }
    requires before { IfSome course.results (λ _. IsBelowRoot course.edits) }
    requires below { IsBelowRoot round.now.edits }
    ensures files { T.files tree.new ≡ T.files tree.old }
    ensures faults_grow { T.faults tree.old ≤ T.faults tree.new }
    ensures come { (old : Counts) (first : State) (start : Outgo) (rounds : List RoundOf)
        → length (scripts_of rounds) + length round.now.scripts ≤ length texts.now
        → HasCome O.piece O.out S.means (under_by (T.files tree.old) fuel texts.now old first start) rounds
        (counted T.faults T.lists tree.old) course.book course.edits course.results (λ r. r.items)
        → HasCome O.piece O.out S.means (under_by (T.files tree.old) fuel texts.now old first start)
        (rounds ++ round.now ∷ []) (counted T.faults T.lists tree.new) result.book result.edits result.results
        (λ r. r.items) }
{
    let Course {
        book,
        mut edits,
        results,
    } = course;
    let Some(done) = results else {
        return stopped(book, edits);
    };
    let Ok(()) = add_edits(&mut edits, round.edits.as_slice()) else {
        return stopped(book, edits);
    };
    let from = done.len();
    let Ok(programs) = programs_at::<S>(alloc, texts, from, round.scripts.len()) else {
        return stopped(book, edits);
    };
    let first = from as u32;
    let all = edits.as_slice();
    match run_edited(rt, alloc, book, first, programs, all, tree, fuel, gate) {
        Ok(ran) => Course {
            book: ran.book,
            edits,
            results: joined(done, ran.results),
        },
        Err(unrun) => stopped(unrun.book, edits),
    }
}

/// No round begins any more.
fn stopped<O: Outlet>(book: Book<O>, edits: Seq<Edit>) -> Course<O>
    ensures book { result.book ≡ book }
    ensures results { result.results ≡ None }
{
    Course {
        book,
        edits,
        results: None,
    }
}

/// Runs rounds on a book without entries, one after another over a tree that is edited before each.
pub(crate) fn run_course<
    S: Scripts + Send,
    R: Threads + Wait + Sync,
    T: Grove,
    O: Outlet + Send,
    G: Gate + Sync,
>(
    rt: &R,
    alloc: Global,
    book: Book<O>,
    rounds: &[Round],
    texts: &[Seq<u8>],
    tree: &mut T,
    fuel: u64,
    gate: &G,
) -> Course<O>
    requires start { book.history ≡ [] }
    requires rounds { book.opening.rounds ≡ round_starts 0 (sizes_of rounds.now) }
    requires can_run { CanRun rounds.now }
    requires below { AreBelowRoot rounds.now }
    requires texts { length texts.now ≡ length (scripts_of rounds.now) }
    ensures files { T.files tree.new ≡ T.files tree.old }
    ensures faults_grow { T.faults tree.old ≤ T.faults tree.new }
    ensures come { HasCome O.piece O.out S.means (under_by (T.files tree.old) fuel texts.now
        (counted T.faults T.lists tree.old) book.opening (O.out book.outlet)) rounds.now
        (counted T.faults T.lists tree.new) result.book result.edits result.results (λ r. r.items) }
{
    let edits = Seq::new(alloc);
    let results = Vec::new(alloc);
    let mut course = Course {
        book,
        edits,
        results: Some(results),
    };
    for round in rounds {
        course = go_on::<S, R, T, O, G>(rt, alloc, course, round, texts, tree, fuel, gate);
    }
    course
}
