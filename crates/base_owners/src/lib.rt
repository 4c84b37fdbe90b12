//! Owners of values: one that has other owners, so that a tree is kept and never copied, and one that keeps a large
//! value on the heap.
#![tactic(auto)]

mod boxed;
mod shared;

pub use boxed::Boxed;
pub use shared::Shared;
