//! The history of scripts that run alone, each in a round of its own.
#![tactic(auto)]

ghost use Rattle.std.specs.Prelude.{◌≡◌, ◌++◌, ℕ, List, length};
ghost use Rattle.std.specs.List.{AllByRecursion};
ghost use Rattle.machine_events.specs.declared.event.Entry.{Entry};
ghost use Rattle.machine_laws.specs.Begun.{Begun, first};
ghost use Rattle.meaning_solo.specs.Made.{Turn, CanStop, HaveNoStops};
ghost use Rattle.meaning_solo.specs.Solo.{AreAlone, IsSolo, IsBroken, AllSafe};

/// Where each round has one script, the scripts run one after another.
pub fn rounds_of_one()
    ensures { (b : Begun) → AllByRecursion (λ size. size ≡ 1) b.rounds → AreAlone (first b) }
{}

/// On a machine whose rounds have one script each, whatever the scripts mean, there is at most one
/// history: the files, the fuel and the budgets at which a call of the tree failed, where one did,
/// fix every entry.
pub fn solo_is_one()
    ensures { (b : Begun) (turns : List Turn) (fuel : ℕ) (h h' : List Entry) → AreAlone (first b)
        → IsSolo (first b) turns fuel h → IsSolo (first b) turns fuel h' → h ≡ h' }
{}

/// There is one, where the scripts are safe and can stop where stops are given: the machine answers
/// each event of the runs, up to their ends.
pub fn solo_is_there()
    ensures { (b : Begun) (turns : List Turn) (fuel : ℕ) → AreAlone (first b) → length turns ≡ length (first b).rounds
        → AllSafe turns 0 → CanStop (first b) turns 0 fuel
        → (h : List Entry) × IsSolo (first b) turns fuel h }
{}

/// With no stops there is always one.
pub fn solo_without_stops()
    ensures { (b : Begun) (turns : List Turn) (fuel : ℕ) → AreAlone (first b) → length turns ≡ length (first b).rounds
        → AllSafe turns 0 → HaveNoStops turns
        → (h : List Entry) × IsSolo (first b) turns fuel h }
{}

/// A history that was broken off for want of memory begins one.
pub fn solo_goes_on()
    ensures { (b : Begun) (turns : List Turn) (fuel : ℕ) (h : List Entry) → AreAlone (first b) → AllSafe turns 0
        → IsBroken (first b) turns fuel h
        → (rest : List Entry) × IsSolo (first b) turns fuel (h ++ rest) }
{}
