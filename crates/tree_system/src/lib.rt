//! The edge to the system: a tree over a folder, and sinks over the standard streams.
#![tactic(auto)]

mod real_tree;
mod std_sink;

pub use real_tree::RealTree;
pub use std_sink::{StdSink, Streams};
