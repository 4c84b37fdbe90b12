//! The syntax of scripts: the lexemes that the grammar speaks of, the trees that they spell, and, in `specs`, the grammar.
#![tactic(auto)]

mod context;
mod expr;
mod lexeme;
mod stmt;

pub use context::Context;
pub use expr::{BinaryOp, Comparison, Expr, Items, Level, Spelled};
pub use lexeme::Lexeme;
pub use stmt::{Alias, Branch, FuncDef, Handler, ImportedNames, Script, Stmt};
