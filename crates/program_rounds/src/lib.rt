//! Scripts in rounds: one round after another on one machine, over a tree that is edited before each,
//! whatever the scripts mean.
#![tactic(auto)]

mod answer;
mod begin;
mod course;
mod open;
mod solo;
mod together;

pub use answer::call;
pub use begin::{Ground, ground_for};
pub use open::{open_rounds, rounds_of};
pub use solo::run_rounds_alone;
pub use together::run_rounds;
