//! When the count of a lock falls.
ghost use Rattle.std.specs.Prelude.{◌≡◌, ◌↔◌, ℕ, List, Some, suc};
ghost use Rattle.machine_events.specs.declared.event.Entry.{Entry};
ghost use Rattle.machine_events.specs.declared.event.Event.{Event};
ghost use Rattle.machine_spec.specs.Gives.{gives};
ghost use Rattle.machine_spec.specs.Legal.{Allowed, IsLegal, replay};
ghost use Rattle.machine_spec.specs.Step.{step};
ghost use Rattle.machine_laws.specs.Begun.{Begun, first};
ghost use Rattle.machine_laws.specs.Counts.{count_of, Falls};

/// An event that the machine allows lowers the count of a lock exactly where it gives that lock back,
/// and then by one. So whoever rings for the locks that `gives` tells rings wherever a lock may have
/// become free, and nowhere else.
pub fn a_count_falls_exactly_where_its_lock_is_given()
    ensures exactly { (b : Begun) (history : List Entry) → IsLegal (first b) history
        → (t : ℕ) (event : Event) (n : List ℕ) → Allowed (replay (first b) history) t event
        → ((gives (replay (first b) history) event ≡ Some n) ↔ Falls (replay (first b) history) t event n) }
    ensures by_one { (b : Begun) (history : List Entry) → IsLegal (first b) history
        → (t : ℕ) (event : Event) (n : List ℕ) → Allowed (replay (first b) history) t event
        → gives (replay (first b) history) event ≡ Some n
        → suc (count_of (step (replay (first b) history) t event).1 n) ≡ count_of (replay (first b) history) n }
{}
