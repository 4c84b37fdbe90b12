//! Tokens of a source (Language Reference, chapter 2, for a small subset of the language).
#![tactic(auto)]

mod chars;
mod columns;
mod error;
mod gap;
mod indent;
mod laws;
mod names;
mod number;
mod operator;
mod quoted;
mod scan;
mod source;
mod text;
mod word;

pub use crate::error::LexError;
pub use crate::laws::one_answer;
pub use crate::source::tokens;
pub use crate::word::{Tok, Token};
pub use base_types::Text;
