//! The texts of values: `str` and `repr`.
#![tactic(auto)]

mod draft;
mod quoting;
mod texts;

pub use texts::{repr_of, str_of};
