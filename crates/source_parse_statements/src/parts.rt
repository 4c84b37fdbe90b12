//! What the parts of compound statements come to.

use crate::name_set::NameSet;
use base_owners::Shared;
use base_types::{Seq, Text, Texts};
use py_syntax::{Branch, Expr, Handler, Stmt};

/// Statements, and the number of the first function behind them.
#[derive(Drop)]
pub struct Stmts {
    pub found: Seq<Stmt>,
    pub next: u32,
}

/// A test with its block, and the number of the first function behind it.
#[derive(Drop)]
pub struct Tested {
    pub branch: Branch,
    pub next: u32,
}

/// Tests with their blocks, and the number of the first function behind them.
#[derive(Drop)]
pub struct Branches {
    pub found: Seq<Branch>,
    pub next: u32,
}

/// The kinds that a handler takes, and what the error is bound to.
#[derive(Drop)]
pub struct Caught {
    pub kinds: Shared<Expr>,
    pub bound: Option<Text>,
}

/// Handlers, the number of the first function behind them, and whether another one may follow.
#[derive(Drop)]
pub struct Handlers {
    pub found: Seq<Handler>,
    pub next: u32,
    pub is_open: bool,
}

/// The blocks of `else` and `finally`, and the number of the first function behind them.
#[derive(Drop)]
pub struct TryEnds {
    pub otherwise: Seq<Stmt>,
    pub at_last: Seq<Stmt>,
    pub next: u32,
}

/// A function's name and parameters.
#[derive(Drop)]
pub struct Signature {
    pub name: Text,
    pub parameters: NameSet,
}

/// What stands in a function, and the number of the first function behind it.
#[derive(Drop)]
pub struct FunctionBody {
    pub globals: Texts,
    pub stmts: Seq<Stmt>,
    pub next: u32,
}
