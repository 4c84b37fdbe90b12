//! What scripts ask of the import machine and what it answers: events, replies, and the entries of
//! a history. They stand apart from the machine, so that meanings, traces and checkers can speak of
//! a history without it.
#![tactic(auto)]

mod carried;
mod copies;
mod event;
mod fitting;
mod module;
mod sames;

pub use carried::Carried;
pub use event::{Entry, Event, Follow, Outcome, Pair, Reply};
pub use fitting::fits;
pub use module::{Slot, is_same_load, module_of};
