//! The import machine, whose type keeps what holds in every state: its opening, its test and its step.
#![tactic(auto)]

mod counted;
mod counts;
mod known;
mod leave;
mod machine;
mod opening;

pub use leave::{allowed, scripts};
pub use machine::Machine;
pub use opening::open;
