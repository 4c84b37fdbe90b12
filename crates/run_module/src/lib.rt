//! Modules as programs (`python -m`), and the first use of a lazy module, as procedures that are fed and
//! that want.
#![tactic(auto)]

mod finds;
mod locates;
mod raises;
mod rouse;
mod rouser;
mod start;
mod steps;
mod waits;

pub use rouse::next as next_of_rouse;
pub use rouser::{RouseStage, Rouser};
pub use start::{ModuleStart, Stage};
pub use steps::next;
