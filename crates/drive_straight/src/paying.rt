//! Payments in one sum.
ghost use Rattle.std.specs.Prelude.{◌≡◌, ℕ, IsTrue, List, Option, false};
ghost use Rattle.tree_files.specs.Files.{Files};
ghost use Rattle.machine_events.specs.declared.event.Event.{Event};
ghost use Rattle.machine_events.specs.declared.event.Reply.{Reply};
ghost use Rattle.meaning_runs.specs.Runs.{Run, Pays};
ghost use Rattle.drive_account.specs.At.{At};
ghost use Rattle.drive_straight.specs.Remains.{Affords};

use drive_account::Budget;

/// Pays units in one sum, if they are there. Else nothing changes.
pub fn afford(budget: &mut Budget, units: u64) -> bool
    ensures unpaid { result ≡ false → budget.new ≡ budget.old }
    ensures paid { IsTrue result → Affords budget.old budget.new units }
{
    if budget.left < units {
        return false;
    }
    let _ = budget.pay(false, units);
    true
}

/// Pays units, for a call of the tree or not, if they are there. Else nothing changes.
pub fn spend(budget: &mut Budget, of_tree: bool, units: u64) -> bool
    ensures unpaid { result ≡ false → budget.new ≡ budget.old }
    ensures paid { IsTrue result → (files : Option Files) (whole : Run) (fuel : ℕ) (mine : List (Event × Reply))
        (next : Run) → At files whole fuel mine budget.old (Pays of_tree units next)
        → At files whole fuel mine budget.new next }
{
    if budget.left < units {
        return false;
    }
    let _ = budget.pay(of_tree, units);
    true
}
