//! The state of the import machine, and the rules of it as definitions: what each event answers and
//! does, when an event is allowed, and which histories are legal. The code that keeps them stands in
//! crates of its own, so that what only speaks of the rules need not wait for it.
#![tactic(auto)]

mod state;

pub use state::State;
