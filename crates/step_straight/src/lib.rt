//! What an expression comes to at once, where its operands are at hand: literals and local variables, and operators on
//! them. Nothing is asked of the machine on the way, and what is to be paid is told in one sum.
#![tactic(auto)]

mod atoms;
mod given;
mod operators;
mod resuming;
mod straight;

pub use atoms::{Bought, atom};
pub use given::{Given, Priced};
pub use resuming::{with_left, with_right};
pub use straight::at_once;
