//! The steps of a script's work: each says what it wants first.
#![tactic(auto)]

mod callees;
mod steps;

pub use steps::{begin, fed, go_on, replied};
