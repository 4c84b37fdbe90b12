//! Made workloads, of which no call fails, the call that runs one, and the line about it.
#![tactic(auto)]

mod call;
mod draws;
mod files;
mod laws;
mod made;
mod made_scripts;
mod no_out;
mod ready;
mod summary;
mod summing;
mod texts;
mod tree;
mod worst;

pub use call::call_made;
pub use laws::made_scripts_stand;
pub use made::{Made, generate};
pub use made_scripts::{MadeScripts, make_scripts};
pub use summary::write_summary;
pub use tree::MadeTree;
