//! Rows of plain text, as the programs of tables read and answer them: a row is a line, and its answer is written
//! behind it, with an arrow between.
#![tactic(auto)]

mod driver;
mod row;

pub use driver::{Answered, Table, answer_rows, answer_rows_by};
pub use row::{Row, RowError};
