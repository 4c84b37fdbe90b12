//! A file of a tree that a word names, read whole; and all files below a folder, in the order in which a walk comes to
//! them.
#![tactic(auto)]

mod load;
mod names;
mod open;
mod pack;
mod pile;
mod take;

pub use load::load_bytes;
pub use names::{behind, child_of};
pub use open::{Read, open_file};
pub use pack::{Packing, pack_folder};
pub use take::take_files;
