//! Statements.

use crate::expr::{BinaryOp, Expr};
use base_owners::Shared;
use base_types::{Seq, Text, Texts};

/// `a.b` or `a.b as c` of `import` (Language Reference 7.11), with the parts of the dotted name.
#[derive(Drop)]
pub struct Alias {
    pub parts: Texts,
    pub bound: Option<Text>,
}

/// What `from .. import` names: `*`, or names with their new names. An item's dotted name has one part.
#[derive(Drop)]
pub enum ImportedNames {
    All,
    Listed(Seq<Alias>),
}

/// A test with its block: `if` or `elif` (8.1).
#[cycle(stmt)]
#[derive(Drop)]
pub struct Branch {
    pub test: Shared<Expr>,
    pub body: Shared<Seq<Stmt>>,
}

/// `except kinds as bound:` with its block (8.4). Without kinds it takes each error, and stands last.
#[cycle(stmt)]
#[derive(Drop)]
pub struct Handler {
    pub kinds: Option<Shared<Expr>>,
    pub bound: Option<Text>,
    pub body: Shared<Seq<Stmt>>,
}

/// A function (8.7), numbered from 0 in the order of the `def` tokens of its source.
#[cycle(stmt)]
#[derive(Drop)]
pub struct FuncDef {
    pub number: u32,
    pub name: Text,
    pub parameters: Texts,
    /// The names of its `global` lines (7.12).
    pub globals: Texts,
    pub body: Shared<Seq<Stmt>>,
}

/// A statement (chapters 7 and 8).
#[cycle(stmt)]
#[derive(Drop)]
pub enum Stmt {
    Evaluate(Shared<Expr>),
    /// `target = value`.
    Assign(Shared<Expr>, Shared<Expr>),
    /// `name op= value`.
    Augment(Text, BinaryOp, Shared<Expr>),
    Delete(Shared<Expr>),
    Pass,
    Break,
    Continue,
    Return(Option<Shared<Expr>>),
    Raise(Option<Shared<Expr>>),
    Import(Seq<Alias>),
    /// `from` as many dots and these parts `import` these names. Without dots there are parts.
    From(u32, Texts, ImportedNames),
    /// The branches in order, of which there is one at least, and the block of `else`, empty where there is none.
    If(Shared<Seq<Branch>>, Shared<Seq<Stmt>>),
    While(Shared<Expr>, Shared<Seq<Stmt>>),
    /// The block, its handlers, and the blocks of `else` and `finally`, each empty where there is none.
    Try(Shared<Seq<Stmt>>, Shared<Seq<Handler>>, Shared<Seq<Stmt>>, Shared<Seq<Stmt>>),
    Def(Shared<FuncDef>),
}

/// A script.
#[derive(Drop)]
pub struct Script {
    pub body: Shared<Seq<Stmt>>,
}
