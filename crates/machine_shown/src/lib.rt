//! What a thread knows of the import machine by its own events and the replies to them, and which
//! events it knows to be allowed. It speaks of no state of the machine.
#![tactic(auto)]

ghost use Rattle.std.specs.Prelude.{ℕ, List};
ghost use Rattle.machine_events.specs.declared.event.Event.{Event};
ghost use Rattle.machine_events.specs.declared.event.Event.TheVariants as events;
ghost use Rattle.machine_events.specs.declared.event.Reply.{Reply};
ghost use Rattle.machine_shown.specs.Knowing.{Knows, Waits};

/// No thread knows of itself that it may wake, since others hold the lock that it waits for.
pub fn wake_is_never_known()
    ensures { (t : ℕ) (pairs : List (Event × Reply)) → Knows t pairs events.Wake → ⊥ }
{}

/// Who waits knows no event to be allowed.
pub fn who_waits_knows_nothing()
    ensures { (t : ℕ) (pairs : List (Event × Reply)) (event : Event) → Waits t pairs → Knows t pairs event → ⊥ }
{}
