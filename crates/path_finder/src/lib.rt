//! The search for a module, over listings that are handed in.
#![tactic(auto)]

mod files;
mod laws;
mod load;
mod look;
mod probes;
mod sought;
mod stamps;
mod words;

pub use files::path_of;
pub use laws::a_search_ends_in_what_is_found;
pub use load::{LoadFault, load_text};
pub use look::Look;
pub use words::{Found, LookIn, LookWant, Probe};
