//! The printer: a script to its lexemes, and these to a text that is a source of the script.
#![tactic(auto)]

mod exprs;
mod imports;
mod laws;
mod lexemes;
mod names;
mod operators;
mod page;
mod script;
mod spelling;
mod stmts;

pub use laws::{printed_is_laid, printed_is_spelled, text_is_source};
pub use lexemes::script_lexemes;
pub use script::print_script;
