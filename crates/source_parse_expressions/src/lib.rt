//! Expressions are read by descent, exactly as the grammar spells them.
#![tactic(auto)]

mod items;
mod parser;
mod tokens;
mod whole;

pub use parser::{expr, primary};
pub use tokens::{close_paren, comma, starts};
pub use whole::expression;
