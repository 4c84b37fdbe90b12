//! The path of a module, as a procedure that is fed and that wants.
#![tactic(auto)]

mod reader;
mod steps;

pub use reader::{Namespace, PathReader, Stage};
pub use steps::next;
