//! What a thread knows of the import machine holds of its state: so an event that the thread's own
//! pairs show to be allowed is allowed, whatever the other threads did.
#![tactic(auto)]

ghost use Rattle.std.specs.Prelude.{◌≡◌, ℕ, List, length};
ghost use Rattle.machine_events.specs.declared.event.Event.{Event};
ghost use Rattle.machine_events.specs.declared.event.Entry.{Entry};
ghost use Rattle.machine_spec.specs.declared.state.State.{State};
ghost use Rattle.machine_spec.specs.Step.{step};
ghost use Rattle.machine_spec.specs.Legal.{Allowed, IsLegal, replay};
ghost use Rattle.machine_laws.specs.Begun.{Begun, first};
ghost use Rattle.machine_shown.specs.Knowing.{Knows, Waits};
ghost use Rattle.machine_shown.specs.Own.{own, Ready, IsLone};
ghost use Rattle.machine_allows.specs.Loads.{kinds_of, MadeBy, mains};

/// In the state after every legal history an event is allowed that the thread's own pairs show to
/// be allowed, once every thread of an earlier round has its End.
pub fn knows_is_allowed()
    ensures { (b : Begun) (history : List Entry) → IsLegal (first b) history → (t : ℕ) (e : Event)
        → Ready (first b).rounds history t → Knows t (own t history) e → Allowed (replay (first b) history) t e }
{}

/// A thread that has no other in its round never waits.
#[tactic(auto, using(crate::proofs::Lone::lone_waits_not))]
pub fn lone_never_waits()
    ensures { (b : Begun) (history : List Entry) → IsLegal (first b) history → (t : ℕ) → IsLone (first b).rounds t
        → Waits t (own t history) → ⊥ }
{}

/// An event of a thread leaves the loads as they are, but for Add, AddLazy and ReloadTake, each of
/// which makes at most one, of its own kind: so each load is made once, by one of these three or at
/// the opening.
#[tactic(auto, using(crate::proofs::Making::made_step))]
pub fn loads_are_made()
    ensures { (s : State) (t : ℕ) (e : Event) → MadeBy e (kinds_of s.table.loads)
        (kinds_of (step s t e).1.table.loads) }
{}

/// There are as many loads of kind Main as scripts.
#[tactic(auto, using(crate::proofs::Making::mains_are))]
pub fn one_main_a_script()
    ensures { (b : Begun) (history : List Entry) → mains (kinds_of (replay (first b) history).table.loads)
        ≡ length b.scripts }
{}
