//! Trees of files and sinks for bytes, as the whole program sees the outside world.
#![tactic(auto)]

mod edit;
mod laws;
mod mem_tree;
mod nodes;
mod sink;
mod tree;

pub use base_types::{Exact, Listing, NoMemory, Same, Seq, Text, Texts, TreePath};
pub use edit::Edit;
pub use laws::{listing_is_one, names_are_listed};
pub use mem_tree::MemTree;
pub use sink::{MemSink, Sink, SinkFault, write_whole};
pub use tree::{Grove, Node, Stamp, Tree, TreeFault};
