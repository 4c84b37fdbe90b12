//! The statuses of a call.

/// Each script ended normally.
pub const NORMAL_END: u8 = 0;

/// A script ended with an error.
pub const ERROR_END: u8 = 1;

/// The words or a script were refused.
pub const REFUSAL: u8 = 2;

/// A script spent its budget.
pub const SPENT_BUDGET: u8 = 3;

/// A call of the tree failed.
pub const TREE_FAULT: u8 = 4;

/// A write to a sink failed.
pub const SINK_FAULT: u8 = 5;

/// Memory was wanted.
pub const WANT_OF_MEMORY: u8 = 6;
