//! All that a script holds.
ghost use Rattle.std.specs.Prelude.{◌≡◌, [], ◌∷◌, MatchOption, OnOk, OnErr};
ghost use Rattle.machine_shown.specs.Holdings.{is_holding, without, becoming};
ghost use Rattle.drive_account.specs.Holds.{holding_of, held_in};

use base_types::{NoMemory, Seq};
use machine_events::is_same_load;
use spec_core::Dotted;
use std::alloc::Global;

/// One thing that a script holds of the machine.
#[derive(Drop)]
pub enum Hold {
    /// A lock, by its name, for which no body runs yet.
    Taken(Dotted),
    /// A module's body that was not ended, by its load.
    Loading(u32),
    /// A reload of a module, with the load of its body where that has begun.
    Reloading { mid: u32, load: Option<u32> },
}

impl Hold {
    /// Whether the two are the same.
    pub fn is_hold(&self, other: &Hold) -> bool
        ensures { result ≡ is_holding (holding_of self.now) (holding_of other.now) }
    {
        match self {
            Hold::Taken(name) => match other {
                Hold::Taken(other) => name == other,
                Hold::Loading(_) => false,
                Hold::Reloading { mid: _, load: _ } => false,
            },
            Hold::Loading(load) => match other {
                Hold::Taken(_) => false,
                Hold::Loading(other) => *load == *other,
                Hold::Reloading { mid: _, load: _ } => false,
            },
            Hold::Reloading { mid, load } => match other {
                Hold::Taken(_) => false,
                Hold::Loading(_) => false,
                Hold::Reloading {
                    mid: other,
                    load: their,
                } => *other == *mid && is_same_load(*their, *load),
            },
        }
    }
}

/// All that a script holds, the innermost first.
pub struct Held {
    holds: Seq<Hold>,
}

impl Held {
    /// Nothing is held. It takes no memory.
    pub fn new(alloc: Global) -> Held
        ensures { held_in result ≡ [] }
    {
        Held {
            holds: Seq::new(alloc),
        }
    }

    /// One thing more is held, and is the innermost. A refusal changes nothing.
    pub fn put(&mut self, hold: Hold) -> Result<(), NoMemory>
        ensures ok { OnOk result (held_in self.new ≡ holding_of hold ∷ held_in self.old) }
        ensures err { OnErr result (held_in self.new ≡ held_in self.old) }
    {
        self.holds.insert(0, hold)
    }

    /// Takes off the innermost. None exactly where nothing is held.
    pub fn pop(&mut self) -> Option<Hold>
        ensures { MatchOption result ((held_in self.old ≡ []) × (held_in self.new ≡ []))
            (λ hold. held_in self.old ≡ holding_of hold ∷ held_in self.new) }
    {
        if self.holds.is_empty() {
            return None;
        }
        Some(self.holds.remove(0))
    }

    /// The innermost that is this one is held no more.
    #[tactic(auto, using(crate::proofs::HeldPlaces::past, crate::proofs::HeldPlaces::here))]
    pub fn give(&mut self, hold: &Hold)
        ensures { held_in self.new ≡ without (holding_of hold.now) (held_in self.old) }
    {
        let mut at = 0;
        while at < self.holds.len() {
            if hold.is_hold(&self.holds.as_slice()[at]) {
                drop(self.holds.remove(at));
                return;
            }
            at += 1;
        }
    }

    /// The innermost that is this one becomes another.
    #[tactic(auto, using(crate::proofs::HeldPlaces::past_other, crate::proofs::HeldPlaces::becomes))]
    pub fn turn(&mut self, hold: &Hold, into: Hold)
        ensures { held_in self.new ≡ becoming (holding_of hold.now) (holding_of into) (held_in self.old) }
    {
        let mut at = 0;
        while at < self.holds.len() {
            if hold.is_hold(&self.holds.as_slice()[at]) {
                self.holds.set(at, into);
                return;
            }
            at += 1;
        }
    }
}

impl Drop for Held {
    fn drop(self) {
        let Held { holds } = self;
        drop(holds);
    }
}
