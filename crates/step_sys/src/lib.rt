//! Steps of `sys.modules` and `sys.path` (Library Reference, sys): entries of the cache by their keys, and
//! the methods of both.
#![tactic(auto)]

mod arguments;
mod entries;
mod keys;
mod methods;
mod replies;
mod tested;
mod ways;

pub use entries::{delete_entry, has_entry, pop_entry, read_entry, set_entry};
pub use methods::{add_entry, method, path_added};
pub use replies::{entry_deleted, entry_found, entry_popped, entry_set, entry_told};
