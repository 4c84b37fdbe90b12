//! The import of one name (`importlib._bootstrap._find_and_load`), as a procedure that is fed and that
//! wants.
#![tactic(auto)]

mod import;
mod loads;
mod locates;
mod looks;
mod raises;
mod steps;
mod waits;
mod words;

pub use import::{Importer, Stage, most};
pub use raises::parent_of;
pub use steps::next;
pub use words::{In, Want};
