//! Where a statement stands.

/// What stands around a statement (Language Reference 7.6, 7.9, 7.10).
#[derive(Clone, Copy, Debug, PartialEq, Eq)]
pub struct Context {
    pub in_function: bool,
    /// A loop of the same function, with no `finally` block between that began inside the loop.
    pub in_loop: bool,
    /// A `finally` block of the same function.
    pub in_finally: bool,
}
