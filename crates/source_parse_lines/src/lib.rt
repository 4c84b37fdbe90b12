//! Simple statements and their lines are read by descent, exactly as the grammar spells them.
#![tactic(auto)]

mod assignments;
mod imports;
mod lines;
mod lists;
mod names;
mod simple_stmts;
mod sources;

pub use lines::line;
pub use lists::{one, with};
pub use names::{bound, comma_ahead, name, name_ahead};
