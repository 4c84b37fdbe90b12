//! The forks of a tree that is edited again and again.
ghost use Rattle.std.specs.Prelude.{◌≡◌, ◌≤◌, ◌+◌, ◌++◌, IfOk, OnOk};
ghost use Rattle.tree_overlay.specs.Kinds.{IsBelowRoot};
ghost use Rattle.tree_overlay.specs.Told.{edited_told};
ghost use Rattle.tree_overlay.specs.Rounds.{AreBelowRoot, AreForks, Absorbed, total};

use crate::Overlay;
use base_types::{Exact, NoMemory, Seq};
use std::alloc::Global;
use tree_files::{Edit, Grove, Tree};

/// Puts copies of edits behind those that there are.
pub fn add_edits(edits: &mut Seq<Edit>, more: &[Edit]) -> Result<(), NoMemory>
    ensures { OnOk result (edits.new ≡ edits.old ++ more.now) }
{
    for edit in more {
        edits.push(edit.copy()?)?;
    }
    Ok(())
}

/// A fork of a tree after edits. It has counted nothing.
pub fn edited_fork<T: Grove>(
    alloc: Global,
    tree: &mut T,
    edits: &[Edit],
) -> Result<Overlay<T>, NoMemory>
    requires { IsBelowRoot edits.now }
    ensures files { IfOk result (λ fork. ⟦<Overlay<T> as Tree>⟧.files fork ≡ edited_told edits.now (T.files tree.old)) }
    ensures faults { IfOk result (λ fork. ⟦<Overlay<T> as Tree>⟧.faults fork ≡ 0) }
    ensures lists { IfOk result (λ fork. ⟦<Overlay<T> as Tree>⟧.lists fork ≡ 0) }
    ensures files_stay { T.files tree.new ≡ T.files tree.old }
    ensures faults_stay { T.faults tree.new ≡ T.faults tree.old }
    ensures lists_stay { T.lists tree.new ≡ T.lists tree.old }
{
    let fork = tree.fork()?;
    Overlay::open(alloc, fork, edits)
}

/// Forks of a tree, one for each list of edits, in their order: each has the edits of its own list and
/// of all before it. An `Err` has changed nothing of the tree but that forks were made of it.
pub fn edited_forks<T: Grove>(
    alloc: Global,
    tree: &mut T,
    rounds: &[Seq<Edit>],
) -> Result<Vec<Overlay<T>>, NoMemory>
    requires { AreBelowRoot rounds.now }
    ensures forks { IfOk result (λ forks. AreForks ⟦<Overlay<T> as Tree>⟧.files ⟦<Overlay<T> as Tree>⟧.faults
        ⟦<Overlay<T> as Tree>⟧.lists (T.files tree.old) rounds.now forks.items) }
    ensures files_stay { T.files tree.new ≡ T.files tree.old }
    ensures faults_stay { T.faults tree.new ≡ T.faults tree.old }
    ensures lists_stay { T.lists tree.new ≡ T.lists tree.old }
{
    let mut edits = Seq::new(alloc);
    let mut forks = Vec::new(alloc);
    for round in rounds {
        add_edits(&mut edits, round.as_slice())?;
        forks.push(edited_fork(alloc, tree, edits.as_slice())?)?;
    }
    Ok(forks)
}

/// Takes in what a fork counted.
pub fn absorb_fork<T: Grove>(tree: &mut T, fork: Overlay<T>)
    ensures files_stay { T.files tree.new ≡ T.files tree.old }
    ensures faults_grow { T.faults tree.old ≤ T.faults tree.new }
    ensures faults { Absorbed (T.faults tree.old) (⟦<Overlay<T> as Tree>⟧.faults fork) (T.faults tree.new) }
    ensures lists { T.lists tree.new ≤ T.lists tree.old + ⟦<Overlay<T> as Tree>⟧.lists fork }
{
    tree.absorb(fork.close());
}

/// Takes in what all forks counted. It takes no memory.
pub fn absorb_forks<T: Grove>(tree: &mut T, mut forks: Vec<Overlay<T>>)
    ensures files_stay { T.files tree.new ≡ T.files tree.old }
    ensures faults_grow { T.faults tree.old ≤ T.faults tree.new }
    ensures faults { Absorbed (T.faults tree.old) (total ⟦<Overlay<T> as Tree>⟧.faults forks.items)
        (T.faults tree.new) }
    ensures lists { T.lists tree.new ≤ T.lists tree.old + total ⟦<Overlay<T> as Tree>⟧.lists forks.items }
{
    while let Some(fork) = forks.pop() {
        absorb_fork(tree, fork);
    }
}
