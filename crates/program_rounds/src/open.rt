//! The rounds file, and the scripts of its rounds.
ghost use Rattle.std.specs.Prelude.{◌≡◌, ◌≤◌, ◌++◌, ℕ, List, IfOk, IfErr, OnOk};
ghost use Rattle.tree_overlay.specs.Kinds.{IsBelowRoot};
ghost use Rattle.tree_overlay.specs.Told.{edited_told};
ghost use Rattle.program_run.specs.Scripts.{Opens, Stops};
ghost use Rattle.program_run.specs.declared.open.Opened.TheVariants as opened;
ghost use Rattle.program_rounds.specs.Opened.{line_refused, WantsRounds, HasRounds, EachRoundOpens, OpensRound, StopsIn};
ghost use Rattle.program_rounds.specs.Rounds.{AreBelowRoot};

use base_types::{NoMemory, Seq, Text};
use import_words::{Round, Rounds, RoundsError, read_rounds};
use program_run::{Opened, Unopened, joined, open_all, open_script, refused};
use std::alloc::Global;
use tree_files::{Grove, Tree, TreeFault};
use tree_overlay::Overlay;

/// The bytes of the rounds file.
fn bytes_of<T: Tree>(alloc: Global, tree: &mut T, file: &Text) -> Result<Seq<u8>, Unopened>
    ensures ok { IfOk result (λ bytes. Opens (T.files tree.old) file.now (opened.Text bytes)) }
    ensures err { IfErr result (WantsRounds (T.files tree.old) file.now (T.faults tree.old) (T.faults tree.new)) }
    ensures faults_stay { OnOk result (T.faults tree.new ≡ T.faults tree.old) }
    ensures files_stay { T.files tree.new ≡ T.files tree.old }
    ensures faults_grow { T.faults tree.old ≤ T.faults tree.new }
    ensures lists_stay { T.lists tree.new ≡ T.lists tree.old }
{
    match open_script(alloc, tree, file) {
        Ok(Opened::Text(bytes)) => Ok(bytes),
        Ok(Opened::Missing) => {
            let line = joined(alloc, "pyimport: cannot open rounds '", file.as_str(), "'");
            Err(refused(line))
        }
        Ok(Opened::TooLong) => {
            let line = joined(alloc, "pyimport: rounds '", file.as_str(), "' is too long");
            Err(refused(line))
        }
        Err(TreeFault::Failed) => Err(Unopened::Unread),
        Err(TreeFault::NoMemory) => Err(Unopened::NoMemory),
    }
}

/// The line about a line at which no rounds file goes on.
fn refusal(alloc: Global, file: &str, line: u32) -> Result<Vec<u8>, NoMemory>
    ensures { IfOk result (λ it. it.items ≡ line_refused file.now line) }
{
    let line = format!(in alloc; "pyimport: rounds '{file}' line {line} is refused\n")?;
    Ok(line.into_bytes())
}

/// The rounds that a file spells.
pub fn rounds_of<T: Tree>(alloc: Global, tree: &mut T, file: &Text) -> Result<Rounds, Unopened>
    ensures ok { IfOk result (λ rounds. HasRounds (T.files tree.old) file.now rounds.list) }
    ensures err { IfErr result (WantsRounds (T.files tree.old) file.now (T.faults tree.old) (T.faults tree.new)) }
    ensures faults_stay { OnOk result (T.faults tree.new ≡ T.faults tree.old) }
    ensures files_stay { T.files tree.new ≡ T.files tree.old }
    ensures faults_grow { T.faults tree.old ≤ T.faults tree.new }
    ensures lists_stay { T.lists tree.new ≡ T.lists tree.old }
{
    let bytes = match bytes_of(alloc, tree, file) {
        Ok(bytes) => bytes,
        Err(why) => return Err(why),
    };
    match read_rounds(alloc, bytes.as_slice()) {
        Ok(rounds) => Ok(rounds),
        Err(RoundsError::At { line }) => Err(refused(refusal(alloc, file.as_str(), line))),
        Err(RoundsError::NoMemory) => Err(Unopened::NoMemory),
    }
}

/// Puts texts behind those that there are.
fn append(texts: &mut Seq<Seq<u8>>, more: Seq<Seq<u8>>) -> Result<(), NoMemory>
    ensures { OnOk result (texts.new ≡ texts.old ++ more) }
{
    for text in more.into_vec() {
        texts.push(text)?;
    }
    Ok(())
}

/// The texts of one round's scripts, behind those that there are, read from the files after its edits.
fn open_round<T: Tree>(
    alloc: Global,
    over: &mut Overlay<T>,
    round: &Round,
    texts: &mut Seq<Seq<u8>>,
) -> Result<(), Unopened>
    requires { IsBelowRoot round.now.edits }
    ensures ok { OnOk result (OpensRound (edited_told round.now.edits (⟦<Overlay<T> as Tree>⟧.files over.old))
        round.now.scripts texts.old texts.new) }
    ensures err { IfErr result (Stops (edited_told round.now.edits (⟦<Overlay<T> as Tree>⟧.files over.old))
        round.now.scripts (⟦<Overlay<T> as Tree>⟧.faults over.old) (⟦<Overlay<T> as Tree>⟧.faults over.new)) }
    ensures files { OnOk result (⟦<Overlay<T> as Tree>⟧.files over.new
        ≡ edited_told round.now.edits (⟦<Overlay<T> as Tree>⟧.files over.old)) }
    ensures faults_stay { OnOk result (⟦<Overlay<T> as Tree>⟧.faults over.new
        ≡ ⟦<Overlay<T> as Tree>⟧.faults over.old) }
    ensures faults_grow { ⟦<Overlay<T> as Tree>⟧.faults over.old ≤ ⟦<Overlay<T> as Tree>⟧.faults over.new }
    ensures lists_stay { ⟦<Overlay<T> as Tree>⟧.lists over.new ≡ ⟦<Overlay<T> as Tree>⟧.lists over.old }
{
    if over.edit(round.edits.as_slice()).is_err() {
        return Err(Unopened::NoMemory);
    }
    let more = match open_all(alloc, over, round.scripts.as_slice()) {
        Ok(more) => more,
        Err(why) => return Err(why),
    };
    match append(texts, more) {
        Ok(()) => Ok(()),
        Err(_) => Err(Unopened::NoMemory),
    }
}

/// The texts of all scripts, round by round, each read from the files of its own round.
fn open_over<T: Tree>(
    alloc: Global,
    over: &mut Overlay<T>,
    rounds: &[Round],
) -> Result<Seq<Seq<u8>>, Unopened>
    requires { AreBelowRoot rounds.now }
    ensures ok { IfOk result (EachRoundOpens (⟦<Overlay<T> as Tree>⟧.files over.old) rounds.now) }
    ensures err { IfErr result (StopsIn (⟦<Overlay<T> as Tree>⟧.files over.old) rounds.now
        (⟦<Overlay<T> as Tree>⟧.faults over.old) (⟦<Overlay<T> as Tree>⟧.faults over.new)) }
    ensures faults_stay { OnOk result (⟦<Overlay<T> as Tree>⟧.faults over.new
        ≡ ⟦<Overlay<T> as Tree>⟧.faults over.old) }
    ensures faults_grow { ⟦<Overlay<T> as Tree>⟧.faults over.old ≤ ⟦<Overlay<T> as Tree>⟧.faults over.new }
    ensures lists_stay { ⟦<Overlay<T> as Tree>⟧.lists over.new ≡ ⟦<Overlay<T> as Tree>⟧.lists over.old }
{
    let mut texts = Seq::new(alloc);
    for round in rounds {
        match open_round(alloc, over, round, &mut texts) {
            Ok(()) => {}
            Err(why) => return Err(why),
        }
    }
    Ok(texts)
}

/// The texts of all scripts, each read from the files of its own round, over one fork of the tree.
pub fn open_rounds<T: Grove>(
    alloc: Global,
    tree: &mut T,
    rounds: &[Round],
) -> Result<Seq<Seq<u8>>, Unopened>
    requires { AreBelowRoot rounds.now }
    ensures ok { IfOk result (EachRoundOpens (T.files tree.old) rounds.now) }
    ensures err { IfErr result (StopsIn (T.files tree.old) rounds.now (T.faults tree.old) (T.faults tree.new)) }
    ensures faults_stay { OnOk result (T.faults tree.new ≡ T.faults tree.old) }
    ensures files_stay { T.files tree.new ≡ T.files tree.old }
    ensures faults_grow { T.faults tree.old ≤ T.faults tree.new }
    ensures lists_stay { T.lists tree.new ≤ T.lists tree.old }
{
    let Ok(fork) = tree.fork() else {
        return Err(Unopened::NoMemory);
    };
    let Ok(mut over) = Overlay::open(alloc, fork, &[]) else {
        return Err(Unopened::NoMemory);
    };
    let texts = open_over(alloc, &mut over, rounds);
    tree.absorb(over.close());
    texts
}
