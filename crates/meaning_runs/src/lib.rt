//! What scripts mean: trees of payments and events, with the laws that hold of all of them whatever
//! the language is.
#![tactic(auto)]

ghost use Rattle.std.specs.Prelude.{◌≡◌, ◌≤◌, ℕ, List, Some};
ghost use Rattle.tree_files.specs.Files.{Files, IsListing};
ghost use Rattle.base_types.specs.Path.{Path};
ghost use Rattle.machine_events.specs.declared.event.Reply.{Reply};
ghost use Rattle.meaning_runs.specs.Runs.{Run, IsTold, NamesOf};
ghost use Rattle.meaning_runs.specs.Follows.{BudgetLaw};

/// A smaller budget makes the events of a greater one, up to the first payment that it cannot make.
pub fn budget_law()
    ensures { (files : Files) (t : ℕ) (run : Run) (k fuel : ℕ) (replies : List Reply) → k ≤ fuel
        → BudgetLaw files t run k fuel replies }
{}

/// What a tree lists of a directory is the answer that its files tell.
pub fn listing_is_told()
    ensures { (files : Files) (dir : Path) (names : List (List ℕ)) → IsListing files dir names
        → IsTold (Some files) (NamesOf dir) names }
{}
