//! Reloads (`importlib.reload`), of lazy modules too, as a procedure that is fed and that wants.
#![tactic(auto)]

mod begins;
mod ends;
mod finds;
mod locates;
mod raises;
mod reload;
mod reloader;
mod takes;
mod waits;

pub use reload::next as next_of_reload;
pub use reloader::{Awaited, Finding, ReloadStage, Reloader};
