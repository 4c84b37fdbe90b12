//! The budget by which a recorded list is followed.
ghost use Rattle.std.specs.Prelude.{◌≡◌};
ghost use Rattle.drive_account.specs.Replay.{pairs_of};
ghost use Rattle.drive_account.specs.Following.{budget_of, budget_by};

use machine_events::{Event, Outcome, Pair};

/// The budget that an End tells: what was paid, where a call of the tree failed, and else the fuel.
fn budget_of(fuel: u64, outcome: &Outcome, spent: u64) -> u64
    ensures { result ≡ budget_of fuel outcome.now spent }
{
    match outcome {
        Outcome::Read => spent,
        _ => fuel,
    }
}

/// The budget that the first End of a recorded list tells, and the fuel where it has none.
pub fn budget_by(fuel: u64, own: &[Pair]) -> u64
    ensures { result ≡ budget_by fuel (pairs_of own.now) }
{
    for pair in own {
        if let Event::End { outcome, spent } = &pair.event {
            return budget_of(fuel, outcome, *spent);
        }
    }
    fuel
}
