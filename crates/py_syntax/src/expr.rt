//! Expressions.

use base_owners::Shared;
use base_types::{Seq, Text};

/// An operator of two operands (Language Reference 6.7).
#[derive(Clone, Copy, Debug, PartialEq, Eq)]
pub enum BinaryOp {
    Add,
    Sub,
    Mul,
    FloorDiv,
    Mod,
}

/// A comparison (6.10).
#[derive(Clone, Copy, Debug, PartialEq, Eq)]
pub enum Comparison {
    Eq,
    Ne,
    Lt,
    Le,
    Gt,
    Ge,
    In,
    NotIn,
    Is,
    IsNot,
}

/// Operators of two operands that group to the left, by how loosely they bind (6.17).
#[derive(Clone, Copy, Debug, PartialEq, Eq)]
pub enum Level {
    /// `or`.
    Disjunction,
    /// `and`.
    Conjunction,
    /// `+` and `-`.
    Sum,
    /// `*`, `//` and `%`.
    Term,
}

/// An expression (chapter 6). Parentheses leave no trace but where they make a tuple.
#[cycle(expr)]
pub enum Expr {
    Name(Text),
    Number(i128),
    Str(Text),
    /// `None`.
    Nothing,
    True,
    False,
    Tuple(Shared<Seq<Shared<Expr>>>),
    List(Shared<Seq<Shared<Expr>>>),
    /// `object.name`.
    Attribute(Shared<Expr>, Text),
    /// `callee(arguments)`.
    Call(Shared<Expr>, Shared<Seq<Shared<Expr>>>),
    /// `object[index]`.
    Subscript(Shared<Expr>, Shared<Expr>),
    Negative(Shared<Expr>),
    Binary(BinaryOp, Shared<Expr>, Shared<Expr>),
    Compare(Comparison, Shared<Expr>, Shared<Expr>),
    Not(Shared<Expr>),
    And(Shared<Expr>, Shared<Expr>),
    Or(Shared<Expr>, Shared<Expr>),
}

impl Drop for Expr {
    // A long sum, and a long chain of attributes, calls and subscriptions, is a tree that is deep to the left alone: its
    // left side goes in a loop, so that the native stack holds a few calls for each level that is open in the source.
    fn drop(mut self) {
        loop {
            let left = match self {
                Expr::Name(text) | Expr::Str(text) => return drop(text),
                Expr::Number(_) | Expr::Nothing | Expr::True | Expr::False => return,
                Expr::Tuple(items) | Expr::List(items) => return drop(items),
                Expr::Attribute(object, name) => {
                    drop(name);
                    object
                }
                Expr::Call(callee, arguments) => {
                    drop(arguments);
                    callee
                }
                Expr::Subscript(object, index) => {
                    drop(index);
                    object
                }
                Expr::Negative(operand) | Expr::Not(operand) => operand,
                Expr::Binary(_, left, right) | Expr::Compare(_, left, right) => {
                    drop(right);
                    left
                }
                Expr::And(left, right) | Expr::Or(left, right) => {
                    drop(right);
                    left
                }
            };
            match left.into_inner() {
                Some(expr) => self = expr,
                None => return,
            }
        }
    }
}

/// An expression with whether it is spelled as a target: as a name, an attribute or a subscription (7.2). `(x)` is not.
#[derive(Drop)]
pub struct Spelled {
    pub tree: Shared<Expr>,
    pub is_target: bool,
}

/// Expressions with commas between, and whether another one may follow: where there is none yet, and behind a comma.
#[derive(Drop)]
pub struct Items {
    pub found: Seq<Shared<Expr>>,
    pub is_open: bool,
}
