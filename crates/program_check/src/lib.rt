//! The call that judges a stored trace: it is replayed on the machine, and each script's own entries are
//! compared with what the script means.
#![tactic(auto)]

mod call;
mod entries;
mod followed;
mod laws;
mod lines;
mod opened;
mod text;

pub use call::check;
pub use followed::Followed;
pub use laws::{one_verdict, yes_exactly_there, yes_says};
pub use lines::verdict_line;
