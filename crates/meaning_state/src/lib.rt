//! What a thread keeps beside its work, and the errors that running scripts raises.
#![tactic(auto)]

mod fault;
mod flow;
mod locals;
mod stack;
mod thread;

pub use fault::{Fault, raised};
pub use flow::{Flow, Leave};
pub use locals::Locals;
pub use stack::Stack;
pub use thread::{FunctionScope, Parsing, Scope, Source, State, Thread};
