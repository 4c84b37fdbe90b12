//! Statements and scripts are read by descent, exactly as the grammar spells them.
#![tactic(auto)]

mod globals;
mod lists;
mod name_set;
mod parameters;
mod parts;
mod scripts;
mod statements;
mod tokens;

pub use scripts::script;
