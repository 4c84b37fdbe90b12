//! What a script keeps while it runs, and what it does at once, in place, where nothing is asked of the machine or the
//! tree: expressions with their operands, assignments to local variables, `return`, tests and turns of loops. All else
//! is begun piece by piece.
#![tactic(auto)]

mod blocks;
mod choices;
mod coming;
mod deciding;
mod execution;
mod expressions;
mod gathering;
mod loops;
mod names;
mod next;
mod paying;
mod resuming;

pub use blocks::block;
pub use deciding::decide;
pub use execution::Execution;
pub use expressions::evaluate;
pub use loops::turn;
pub use next::Next;
pub use paying::spend;
pub use resuming::{resume_block, resume_loop, resume_operand, resume_sized};
