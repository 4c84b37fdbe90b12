//! The operators on values. Each call answers what its table gives: a value, or the error that is
//! raised.
#![tactic(auto)]

mod arithmetic;
mod comparison;
mod items;
mod outcome;

pub use arithmetic::{augmented, binary, negate};
pub use comparison::{compare, identical};
pub use items::{contains, length_of, subscript};
pub use outcome::{
    MOST_ITEMS, MOST_NESTING, MOST_TEXT, is_plain, limited, not_in_profile, raise, too_long_text,
};
