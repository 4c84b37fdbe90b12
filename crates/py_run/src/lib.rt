//! Runs a script, or a module as a program, on a desk, and compares a recorded list of its events with what it means.
//! The driver alone sees a port, a tree and a budget, which it lends to a search, and gives the steps what they want.
#![tactic(auto)]

mod compare;
mod drive;
mod find;
mod looks;
mod makes;
mod on_desk;
mod program;
mod script;
mod start;
mod steps;
mod thread;
mod turn;
mod turns;
mod whole_thread;
mod working;

pub use compare::follow;
pub use drive_account::Ending;
pub use on_desk::OnDesk;
pub use program::run_module_main;
pub use script::run_script;
