//! How a piece of work ends.
use py_value::{Raised, Value};

/// A way out of work (Language Reference 7.6 to 7.10 and 8.4).
#[derive(Drop)]
pub enum Leave {
    /// An error.
    Raised(Raised),
    /// A `return`, with its value.
    Return(Value),
    Break,
    Continue,
}

/// How a piece of work ended: with a value, which is `None` for a statement, or by a leave.
#[derive(Drop)]
pub enum Flow {
    Went(Value),
    Left(Leave),
}
