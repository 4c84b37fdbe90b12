//! The budget of a script.
ghost use Rattle.std.specs.Prelude.{◌≡◌, ◌≤◌, ◌-◌, ℕ, List, Option, nat_le, IsTrue};
ghost use Rattle.tree_files.specs.Files.{Files};
ghost use Rattle.machine_events.specs.declared.event.Event.{Event};
ghost use Rattle.machine_events.specs.declared.event.Reply.{Reply};
ghost use Rattle.meaning_runs.specs.Runs.{Run, Pays};
ghost use Rattle.meaning_runs.specs.Costs.{after_reply};
ghost use Rattle.drive_account.specs.At.{At, AfterPay, told_of};

use crate::costs::reply_units;
use machine_events::Reply;

/// The budget that is left; what was left before the last payment for a call of the tree, if no
/// event and no payment came after it; and whether the last payment, made or not, was one for a
/// call of the tree.
#[derive(Drop)]
pub struct Budget {
    pub left: u64,
    pub read: Option<u64>,
    pub of_tree: bool,
}

/// What a read that fails right behind a payment would tell.
fn told_of(budget: u64, of_tree: bool, units: u64) -> Option<u64>
    ensures { result ≡ told_of budget of_tree units }
{
    if of_tree && units > 0 {
        Some(budget)
    } else {
        None
    }
}

impl Budget {
    /// Takes units that are there, for a call of the tree or not. What a failed read would tell is of
    /// this payment alone: no older one counts.
    fn take(&mut self, of_tree: bool, units: u64)
        requires { units ≤ self.old.left }
        ensures left { self.new.left ≡ self.old.left - units }
        ensures told { self.new.read ≡ told_of self.old.left of_tree units }
        ensures kind { self.new.of_tree ≡ self.old.of_tree }
    {
        self.read = told_of(self.left, of_tree, units);
        self.left -= units;
    }

    /// Pays units, for a call of the tree or not, if they are there.
    pub fn pay(&mut self, of_tree: bool, units: u64) -> bool
        ensures paid { result ≡ nat_le units self.old.left }
        ensures left { IsTrue result → self.new.left ≡ self.old.left - units }
        ensures told { IsTrue result → self.new.read ≡ told_of self.old.left of_tree units }
        ensures kind { self.new.of_tree ≡ of_tree }
        ensures moves { (files : Option Files) (whole : Run) (fuel : ℕ) (mine : List (Event × Reply)) (next : Run)
            → At files whole fuel mine self.old (Pays of_tree units next)
            → AfterPay result files whole fuel mine self.new next }
    {
        self.of_tree = of_tree;
        if self.left < units {
            return false;
        }
        self.take(of_tree, units);
        true
    }
}

/// What the reply to an event costs is paid. Who is to wait for a lock pays nothing before that.
#[tactic(auto, using(crate::proofs::Paying::paid_reply))]
pub fn pay_reply(budget: &mut Budget, reply: &Reply) -> bool
    ensures { (files : Option Files) (whole : Run) (fuel : ℕ) (mine : List (Event × Reply)) (next : Run)
        → At files whole fuel mine budget.old (after_reply reply.now next)
        → AfterPay result files whole fuel mine budget.new next }
{
    match reply {
        Reply::Wait(_) => true,
        _ => budget.pay(false, reply_units(reply)),
    }
}
