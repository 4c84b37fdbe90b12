//! Desks and outlets: where one script makes its events, and where the entries of a history go out. Both are
//! interfaces, so that what runs scripts does not stand on the machine's code.
#![tactic(auto)]

mod desk;
mod outlet;

pub use desk::{Desk, Halt};
pub use outlet::{Flow, Outlet, outlets_keep_up};
