//! Traces: the history of a run as lines of text, one for each entry.
#![tactic(auto)]

mod events;
mod fields;
mod replies;
mod trace;
mod values;

pub use trace::{write_entry, write_trace};
