//! The functions of a script by their numbers, and the names that are local in a function.
#![tactic(auto)]

mod collect;
mod function;
mod laws;
mod names;
mod program;

pub use function::Function;
pub use laws::numbered_in_order;
pub use program::Program;
