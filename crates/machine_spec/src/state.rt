//! The state.
use base_types::Seq;
use module_lock::Locks;
use module_table::{KeptListing, Table};
use spec_core::PathMap;

/// All that threads share: the table of modules and loads, the locks and waits, the listings that are
/// kept, and for each thread the number of the first thread of its round.
#[derive(Drop)]
pub struct State {
    pub table: Table,
    pub locks: Locks,
    pub listings: PathMap<KeptListing>,
    pub rounds: Seq<u32>,
}
