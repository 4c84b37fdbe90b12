//! From a source to its tokens' lexemes and its tree, or to the refusal of its first refused token.
#![tactic(auto)]

mod error;
mod keywords;
mod kinds;
mod laws;
mod mapping;
mod place;
mod signs;
mod source;

pub use error::ParseError;
pub use laws::one_answer;
pub use mapping::{lexeme, lexemes};
pub use source::{MAX_LEVELS, parse};
