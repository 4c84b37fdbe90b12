//! What forks with edits tell.
ghost use Rattle.std.specs.Prelude.{◌≡◌, ℕ, List, Option, Some, map};
ghost use Rattle.tree_files.specs.Files.{Files};
ghost use Rattle.tree_files.specs.declared.edit.Edit.{Edit};
ghost use Rattle.tree_overlay.specs.Rounds.{AreForks, trees_of};

/// Forks of a tree that tells its files tell the files of their rounds: those after all edits of all
/// rounds up to each.
#[tactic(auto, using(crate::proofs::Rounds::told_by))]
pub fn forks_tell_their_rounds<F>()
    ensures { (told : F → Option Files) (faults lists : F → ℕ) (files : Files) (rounds : List (List Edit))
        (forks : List F) → AreForks told faults lists (Some files) rounds forks
        → map told forks ≡ map (λ f. Some f) (trees_of files rounds) }
{}
