//! What holds of every history that the machine allows.
ghost use Rattle.std.specs.Prelude.{◌≡◌, ◌≤◌, ◌++◌, ℕ, true, Some, length, List, slice_get};
ghost use Rattle.py_value.specs.declared.value.ModRef.{ModRef};
ghost use Rattle.spec_core.specs.declared.spec.Spec.{Spec};
ghost use Rattle.machine_events.specs.declared.event.Entry.{Entry};
ghost use Rattle.machine_events.specs.declared.event.Event.{Event};
ghost use Rattle.machine_events.specs.declared.event.Event.TheVariants as events;
ghost use Rattle.machine_events.specs.declared.event.Reply.TheVariants as replies;
ghost use Rattle.module_lock.specs.Cycles.{Closes};
ghost use Rattle.module_table.specs.declared.module.Object.{Object};
ghost use Rattle.module_table.specs.declared.module.LoadStage.TheVariants as stages;
ghost use Rattle.module_table.specs.declared.module.Phase.TheVariants as phases;
ghost use Rattle.machine_events.specs.Fitting.{Fits};
ghost use Rattle.machine_spec.specs.Step.{step};
ghost use Rattle.machine_spec.specs.Parts.{is_initialising};
ghost use Rattle.machine_spec.specs.Legal.{Allowed, IsLegal, replay};
ghost use Rattle.machine_laws.specs.Sound.{IsSound};
ghost use Rattle.machine_laws.specs.Answered.{IsOwn, IsInFirstRound, SomeoneGoesOn, GoOn, HasOneLoad};
ghost use Rattle.machine_laws.specs.Begun.{Begun, first};

/// In the state after every legal history holds what the machine's type keeps: among the rest, no
/// threads wait for one another in a cycle.
#[tactic(auto, using(crate::proofs::Always::sound_always))]
pub fn always_sound()
    ensures { (b : Begun) (history : List Entry) → IsLegal (first b) history → IsSound (replay (first b) history) }
{}

/// Every reply of the machine is of a kind that the table of events gives for its event.
pub fn replies_fit()
    ensures { (b : Begun) (history : List Entry) → IsLegal (first b) history
        → (t : ℕ) (event : Event) → Allowed (replay (first b) history) t event
        → Fits event (step (replay (first b) history) t event).0 }
{}

/// Who asks for a name and is answered a module that is initialising owns the lock of that module's
/// name, and the module's open load is its own.
pub fn initialising_is_own()
    ensures { (b : Begun) (history : List Entry) → IsLegal (first b) history
        → (t : ℕ) (n : List ℕ) (m : ModRef) (o : Object) → (step (replay (first b) history) t (events.Ask n)).0
        ≡ replies.Module m
        → slice_get (replay (first b) history).table.objects m.mid ≡ Some o → is_initialising o.phase ≡ true
        → IsOwn (replay (first b) history) t m.mid o.spec.name }
{}

/// The same for who takes a name.
pub fn taken_is_own()
    ensures { (b : Begun) (history : List Entry) → IsLegal (first b) history
        → (t : ℕ) (n : List ℕ) (m : ModRef) (o : Object) → (step (replay (first b) history) t (events.Take n)).0
        ≡ replies.Module m
        → slice_get (replay (first b) history).table.objects m.mid ≡ Some o → is_initialising o.phase ≡ true
        → IsOwn (replay (first b) history) t m.mid o.spec.name }
{}

/// Who asks for a name and is answered Cycle would have closed a cycle by waiting.
pub fn cycle_would_close()
    ensures { (b : Begun) (history : List Entry) → (t : ℕ) (n : List ℕ) (m : ModRef) (o : Object)
        → (step (replay (first b) history) t (events.Ask n)).0 ≡ replies.Cycle m
        → slice_get (replay (first b) history).table.objects m.mid ≡ Some o
        → Closes (replay (first b) history).locks t o.spec.name }
{}

/// The same for who takes a name.
pub fn taken_cycle_would_close()
    ensures { (b : Begun) (history : List Entry) → (t : ℕ) (n : List ℕ) (m : ModRef) (o : Object)
        → (step (replay (first b) history) t (events.Take n)).0 ≡ replies.Cycle m
        → slice_get (replay (first b) history).table.objects m.mid ≡ Some o
        → Closes (replay (first b) history).locks t o.spec.name }
{}

/// Loads are never taken away, keep their kinds and modules, and only go on: so each is made once, is
/// opened at most once and ended at most once.
#[tactic(auto, using(crate::proofs::Always::loads_always))]
pub fn loads_go_on()
    ensures { (b : Begun) (history more : List Entry) → IsLegal (first b) history
        → IsLegal (replay (first b) history) more
        → GoOn (replay (first b) history).table.loads (replay (replay (first b) history) more).table.loads }
{}

/// Where a thread of the first round that goes on has not ended, some thread of that round has not
/// ended and waits for nothing, or for a lock that nobody owns.
pub fn someone_goes_on()
    ensures { (b : Begun) (history : List Entry) → IsLegal (first b) history
        → (t start : ℕ) → IsInFirstRound (replay (first b) history) t start
        → SomeoneGoesOn (replay (first b) history) start }
{}

/// A module that is initialising has one load of kind Plain or Lazy, and it is open.
pub fn one_open_load()
    ensures { (b : Begun) (history : List Entry) → IsLegal (first b) history
        → (mid : ℕ) (o : Object) → slice_get (replay (first b) history).table.objects mid ≡ Some o
        → o.phase ≡ phases.Initialising → HasOneLoad (replay (first b) history) mid stages.Open }
{}

/// A lazy module has one load of kind Plain or Lazy, and it rests.
pub fn one_resting_load()
    ensures { (b : Begun) (history : List Entry) → IsLegal (first b) history
        → (mid : ℕ) (o : Object) → slice_get (replay (first b) history).table.objects mid ≡ Some o
        → o.phase ≡ phases.Lazy → HasOneLoad (replay (first b) history) mid stages.Resting }
{}

/// Who is answered Deadlock would have closed a cycle by waiting for the lock that the event needs:
/// that of the name it asks for, takes or loads again, or of the name of the module that it rouses.
pub fn deadlock_would_close()
    ensures asked { (b : Begun) (history : List Entry) (t : ℕ) (n : List ℕ)
        → (step (replay (first b) history) t (events.Ask n)).0 ≡ replies.Deadlock
        → Closes (replay (first b) history).locks t n }
    ensures taken { (b : Begun) (history : List Entry) (t : ℕ) (n : List ℕ)
        → (step (replay (first b) history) t (events.Take n)).0 ≡ replies.Deadlock
        → Closes (replay (first b) history).locks t n }
    ensures reloaded { (b : Begun) (history : List Entry) (t mid : ℕ) (spec : Spec) (text : List ℕ)
        → (step (replay (first b) history) t (events.ReloadTake mid spec text)).0 ≡ replies.Deadlock
        → Closes (replay (first b) history).locks t spec.name }
    ensures roused { (b : Begun) (history : List Entry) (t mid : ℕ) (o : Object)
        → (step (replay (first b) history) t (events.Rouse mid)).0 ≡ replies.Deadlock
        → slice_get (replay (first b) history).table.objects mid ≡ Some o
        → Closes (replay (first b) history).locks t o.spec.name }
{}

/// Who rouses a module and is answered Cycle would have closed a cycle by waiting.
pub fn roused_cycle_would_close()
    ensures { (b : Begun) (history : List Entry) (t mid : ℕ) (m : ModRef) (o : Object)
        → (step (replay (first b) history) t (events.Rouse mid)).0 ≡ replies.Cycle m
        → slice_get (replay (first b) history).table.objects mid ≡ Some o
        → Closes (replay (first b) history).locks t o.spec.name }
{}
