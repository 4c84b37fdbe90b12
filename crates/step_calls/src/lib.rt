//! Steps of calls: of functions, kinds of errors and built-in functions, and of the bodies of functions, modules and
//! scripts.
#![tactic(auto)]

mod attributes;
mod bodies;
mod errors;
mod function_bodies;
mod functions;
mod kinds;
mod loading;
mod natives;
mod operands;
mod parsing;
mod print;
mod values;

pub use attributes::{give_default, tell};
pub use bodies::{begin, start};
pub use function_bodies::source_came;
pub use functions::{call_function, come_back, sourced};
pub use kinds::call_kind;
pub use natives::call_native;
pub use parsing::parsing_of;
