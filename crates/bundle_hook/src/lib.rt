//! Bundles: a file that holds a folder of files, written and read; and a tree in which bundles stand as the folders
//! that they list.
#![tactic(auto)]

mod bundle;
mod entry;
mod folder_laws;
mod found;
mod front;
mod index;
mod indexes;
mod inside;
mod kept;
mod laws;
mod line;
mod place;
mod read;
mod tree;
mod write;

pub use bundle::{BundleError, Index, Item, Packed};
pub use folder_laws::{a_bundle_is_a_folder, all_else_stays};
pub use index::read_index;
pub use laws::{
    at_most_one_list, bytes_stand_there, files_are_found, index_is_of_the_file,
    what_is_written_is_read,
};
pub use tree::BundleTree;
pub use write::{MOST_FRONT, write_bundle};
