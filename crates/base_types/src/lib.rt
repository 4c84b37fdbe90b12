//! The types that every crate above stands on: texts, lists, tree paths, exact copies, equality as
//! contracts see it, and the refusal for want of memory.
#![tactic(auto)]

mod exact;
mod limits;
mod no_memory;
mod path;
mod same;
mod seq;
mod text;
mod wide;

pub use exact::Exact;
pub use limits::LONGEST_SOURCE;
pub use no_memory::NoMemory;
pub use path::{Listing, TreePath};
pub use same::Same;
pub use seq::Seq;
pub use text::Text;
pub use wide::Wide;

/// A list of texts.
pub type Texts = Seq<Text>;
