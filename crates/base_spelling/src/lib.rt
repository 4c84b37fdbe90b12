//! How traces, rounds files and rows spell numbers, texts and sources, written and read.
#![tactic(auto)]

mod candidate;
mod decimal;
mod laws;
mod read;
mod write;

pub use decimal::read_number;
pub use laws::{one_source, one_text};
pub use read::{read_quoted, read_source};
pub use write::{hex_digit, put, write_quoted, write_source};
