//! The programs of one round, each in a thread of its own, on one book.
#![tactic(auto)]

mod forks;
mod gate;
mod laws;
mod program;
mod round;
mod rounds;
mod worker;

pub use forks::{Round, run_round};
pub use gate::{Gate, OpenGate};
pub use laws::rounds_have_one_history;
pub use program::Program;
pub use round::{Over, Unrun, run_over};
pub use rounds::play_rounds;
