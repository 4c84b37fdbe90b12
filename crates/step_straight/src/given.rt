//! What an expression comes to.
use base_owners::Shared;
use base_types::Seq;
use py_syntax::Expr;
use py_value::{Raised, Value};

/// What an expression came to at once.
#[derive(Drop)]
pub enum Given {
    Value(Value),
    Raised(Raised),
    /// An operand whose value is not at hand, behind the values of those before it. What gathers the operands of the
    /// expression waits for it.
    Waits(Shared<Expr>, Seq<Value>),
}

/// What an expression came to, and the units that it paid on the way.
#[derive(Drop)]
pub struct Priced {
    pub given: Given,
    pub units: u64,
}
