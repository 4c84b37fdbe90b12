//! Rounds files: which scripts run in which round, and what is edited before each.
#![tactic(auto)]

mod draft;
mod laws;
mod line;
mod place;
mod read;
mod rounds;

pub use laws::{at_most_one_list, the_first_line_that_does_not_go_on, what_is_spelled_is_read};
pub use read::read_rounds;
pub use rounds::{Round, Rounds, RoundsError};
