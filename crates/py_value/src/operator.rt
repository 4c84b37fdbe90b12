use crate::value::{Raised, Value};

/// The operators that compute a value from two.
#[derive(Clone, Copy, PartialEq, Eq, Drop)]
pub enum BinOp {
    Add,
    Sub,
    Mul,
    FloorDiv,
    Mod,
}

/// The operators that compare two values.
#[derive(Clone, Copy, PartialEq, Eq, Drop)]
pub enum CmpOp {
    Eq,
    Ne,
    Lt,
    Le,
    Gt,
    Ge,
}

/// What an operator gives: a value, or the error that it raises.
#[derive(Drop)]
pub enum Applied {
    Value(Value),
    Raised(Raised),
}
