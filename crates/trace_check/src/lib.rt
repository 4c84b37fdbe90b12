//! A trace is judged: its entries are replayed on the machine, each script's own part of it is
//! compared with what the script means, and the first line that is wrong is told.
#![tactic(auto)]

mod answers;
mod history;
mod judge;
mod laws;
mod order;
mod shares;
mod split;
mod thread;

pub use answers::{Counts, Replayed, Verdict, Why};
pub use history::{counts_of, replay};
pub use laws::{
    legal_exactly_there, no_other_replay, no_other_verdict, own_is_counted, yes_exactly_there,
};
pub use order::{threads_of, verdict, verdict_in};
pub use shares::replay_shares;
pub use split::own_lists;
pub use thread::own;
